// A trace with names and instructions.
#![tactic(auto)]

pub mod laws;
mod naming;
mod reading;
mod trace_line;
mod writing;

pub use naming::put_named_text;
pub use reading::{address_of, line_told};
pub use trace_line::TraceLine;
