// What a device of the board is, a device that is moved to another place, and two devices side by side.
#![tactic(auto)]

mod both;
mod device;
pub mod laws;
mod stimulus;
mod window;

pub use both::Both;
pub use device::{Device, MAX_LINES, REGION_LEN};
pub use stimulus::Stimulus;
pub use window::Window;
