// Chains of interrupt services: a board with a dispatcher runs as the servicing machine does, round by
// round, with what is counted and written of it.
#![tactic(auto)]

mod chain_end;
mod chaining;
mod course;
mod ended;
pub mod ending;
pub mod laws;
mod round;
pub mod rounds;
pub mod stepping;
mod telling;

pub use chain_end::ChainEnd;
pub use chain_moves::{Broken, Dispatcher, Watch, dispatch_word, install, slot_taken};
pub use chaining::{can_start, chain};
pub use course::Course;
pub use ended::Ended;
pub use ending::put_end;
pub use round::Round;
pub use telling::put_begun;
