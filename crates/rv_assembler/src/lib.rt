// The assembler: from a source to an image.
#![tactic(auto)]

mod asm_error;
mod assembled;
mod assembling;
mod building;
mod cutting;
pub mod laws;
mod laying;
mod line_work;
mod lines;
mod passing;
mod stop;
mod stretch;
mod symbols;
#[cfg(test)]
mod tests;

pub use asm_error::AsmError;
pub use assembled::Assembled;
pub use assembling::{MAX_SOURCE, assemble};
pub use stretch::Stretch;
pub use symbols::Symbols;
