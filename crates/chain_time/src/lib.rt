// How long services take, and how long an input waits until it is served.
#![tactic(auto)]

mod bound;
pub mod laws;
mod looping;
mod table_fault;
mod tables;
#[cfg(test)]
mod tests;
mod texts;
mod timed;
mod times;
mod triple;
mod triple_reading;
#[cfg(test)]
mod triple_tests;
mod triples;
mod ways;

pub use table_fault::TableFault;
pub use tables::times_of_table;
pub use texts::{fault_line, text_of_times};
pub use timed::Timed;
pub use times::{MAX_TIMES, Times};
pub use triple::Triple;
pub use triple_reading::read_triples;
pub use triples::{MAX_TRIPLES, Triples};
pub use ways::Ways;
