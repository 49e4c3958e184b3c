// The monitor: a script of commands for a board.
#![tactic(auto)]

mod breakpoints;
mod bytes;
mod command;
mod going;
pub mod laws;
mod lines;
mod monitor_fault;
#[cfg(test)]
mod monitor_tests;
mod monitoring;
mod numbers;
mod obeying;
mod script;
mod script_error;
mod script_reading;
#[cfg(test)]
mod script_tests;
mod script_why;
mod stop;
mod texts;

pub use breakpoints::MAX_BREAKS;
pub use command::Command;
pub use monitor_fault::MonitorFault;
pub use monitoring::monitor;
pub use script::Script;
pub use script_error::ScriptError;
pub use script_reading::{MAX_COMMANDS, read_script};
pub use script_why::ScriptWhy;
