// The four devices of the shipped board: a serial port, pins, a timer, and a way to halt.
#![tactic(auto)]

mod all_devices;
mod gpio;
mod halter;
pub mod laws;
mod output_bytes;
#[cfg(test)]
mod tests;
mod ticker;
mod uart;
mod waiting_bytes;

pub use all_devices::{AllDevices, ThreeDevices, TwoDevices, shipped};
pub use gpio::Gpio;
pub use halter::Halter;
pub use ticker::Ticker;
pub use uart::Uart;
