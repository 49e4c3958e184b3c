// The static checker of the handlers of an image, and the bound of the stack that handlers use together.
#![tactic(auto)]

mod accepted;
mod bound;
mod code;
pub mod laws;
mod linting;
mod pair;
mod pair_reading;
#[cfg(test)]
mod pair_tests;
mod pairs;
mod table_bound;
mod tables;
#[cfg(test)]
mod tests;
mod texts;
mod uses;

pub use bound::stack_bound;
pub use chain_flow::{LintWhy, Region, Verdict};
pub use code::memory_of;
pub use linting::lint;
pub use pair::Pair;
pub use pair_reading::read_pairs;
pub use pairs::Pairs;
pub use table_bound::TableBound;
pub use tables::{bound_of_table, word_at};
pub use texts::{table_line, verdict_line};
pub use uses::Use;
