// Selection of the input that interrupts.
#![tactic(auto)]

mod byte_rows;
mod choice;
pub mod laws;
mod selector;
mod steps;
#[cfg(test)]
mod tests;
mod tree;

pub use byte_rows::{load_bytes, store_bytes};
pub use choice::Choice;
pub use selector::Selector;
pub use steps::Steps;
pub use tree::beats;
