// The servicing machine that a chain of interrupt services is: the dispatchers and their slot, the state with
// its three moves, and what is judged of them on a board.
#![tactic(auto)]

mod broken;
mod convention;
mod dead;
mod dispatcher;
pub mod due;
mod entering;
mod entry;
mod frames;
mod installing;
mod judging;
pub mod kept;
mod mark;
mod moves;
mod next;
pub mod slot;
mod taken;
#[cfg(test)]
mod tests;
mod turn;
mod verdict;
mod watch;

pub use broken::Broken;
pub use dispatcher::{Dispatcher, dispatch_word};
pub use due::is_long;
pub use entering::table_address;
pub use entry::Entry;
pub use installing::install;
pub use mark::Mark;
pub use moves::Move;
pub use next::Next;
pub use taken::slot_taken;
pub use turn::Turn;
pub use verdict::Verdict;
pub use watch::{MAX_LIVE, Watch};
