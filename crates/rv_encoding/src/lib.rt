// Instructions of 32 bits, and the words that spell them.
#![tactic(auto)]

mod canonical;
mod decode;
mod encode;
mod fields;
mod function_fields;
mod instruction;
pub mod laws;
mod matches;
mod operations;
mod spellable;
#[cfg(test)]
mod tests;
mod words;

pub use canonical::is_canonical;
pub use decode::decode32;
pub use encode::encode32;
pub use instruction::Ins;
pub use operations::{BranchOp, CsrOp, ImmOp, LoadOp, RegOp, StoreOp};
pub use spellable::fits;
