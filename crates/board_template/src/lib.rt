// A board of one's own, to be copied: three devices that aren't shipped, beside the shipped Uart.
#![tactic(auto)]

mod alarm;
mod flash;
pub mod laws;
mod places;
#[cfg(test)]
mod tests;
mod watchdog;

pub use alarm::Alarm;
pub use flash::{CONTENTS_LEN, Flash};
pub use places::{AlarmAndOthers, TemplateDevices, TwoOthers, template_devices};
pub use watchdog::Watchdog;
