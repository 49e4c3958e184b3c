// The operands of a line of assembler source: which there are, and how they are read.
#![tactic(auto)]

mod field;
mod fields;
mod item;
mod number;
mod operands;
mod reading;
mod sets;
#[cfg(test)]
mod tests;

pub use field::Field;
pub use fields::{is_marked, read_items};
pub use item::Item;
pub use number::Number;
pub use operands::{Operands, without_operands};
pub use reading::label_in;
