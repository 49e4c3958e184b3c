// A search for certificates of handlers that loop, branch and call, and what it tells of the handlers in a table.
#![tactic(auto)]

mod accepted;
mod bounding;
mod certifying;
mod context;
mod joins;
pub mod laws;
mod pair_answer;
mod place;
mod refusal;
mod search;
mod telling;

pub use bounding::bound_told;
pub use certifying::{certify, certify_code};
pub use pair_answer::PairAnswer;
pub use telling::certify_table;
