// A device of one's own, as an example: docs/DEVICES.md goes through it.
#![tactic(auto)]

mod counter;
mod counting_board;
#[cfg(test)]
mod tests;

pub use counter::Counter;
pub use counting_board::{CountingDevices, counting_devices};
