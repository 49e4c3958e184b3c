// What each instruction does.
#![tactic(auto)]

mod access;
mod arithmetic;
mod effect;
mod execution;
pub mod laws;
mod operation;
#[cfg(test)]
mod tests;

pub use access::extend;
pub use effect::Effect;
pub use execution::execute;
pub use operation::{Kind, Operation, instruction_of, operation_of, unknown};
