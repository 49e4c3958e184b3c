// The walk over the code of a handler without loops: what is known at each address, and which rule is broken
// first.
#![tactic(auto)]

mod code;
mod flow_state;
pub mod laws;
mod lint_why;
mod look;
mod looking;
mod onward;
mod pending;
mod places;
mod region;
mod rules;
mod stack_word;
mod stack_words;
#[cfg(test)]
mod tests;
mod transfer;
mod value;
mod verdict;
mod walking;

pub use code::code_at;
pub use lint_why::LintWhy;
pub use look::Look;
pub use onward::targets_at;
pub use places::meets_slot;
pub use region::Region;
pub use rules::{is_free, is_other_system};
pub use transfer::{load_width, store_width};
pub use value::depth_of;
pub use verdict::Verdict;
pub use walking::lint_code;
