// Positions of a board that is stepped forwards and back: where it stands after so many steps, and where it stops.
#![tactic(auto)]

mod change;
mod found;
mod going;
pub mod laws;
mod least;
mod looking;
mod place;
mod rungs;
mod session;
mod sought;
mod stop;
mod timing;
mod until;
mod watch;

pub use change::Change;
pub use session::Session;
pub use sought::{MAX_SOUGHT, Sought};
pub use stop::Stop;
pub use timing::Timing;
pub use until::Until;
pub use watch::Watch;
