// A line of assembler source: the forms that it may have, and what it asks for.
#![tactic(auto)]

mod asm_why;
mod bytes;
mod extent;
mod form;
mod forms;
mod kind;
pub mod laws;
mod making;
mod operation;
mod read;
mod statements;
mod task;
#[cfg(test)]
mod tests;

pub use asm_why::AsmWhy;
pub use bytes::push_operation;
pub use extent::Extent;
pub use form::Form;
pub use forms::all_forms;
pub use kind::Kind;
pub use making::{extent_of, first_value, is_fit, operation_of};
pub use operation::Operation;
pub use read::Read;
pub use statements::read_line;
pub use task::Task;
