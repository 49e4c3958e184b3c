// The disassembler: from bytes and images to source that is assembled to them.
#![tactic(auto)]

mod disassembly;
pub mod laws;
mod listing;
mod printing;
mod shown;
mod statement;
#[cfg(test)]
mod tests;
mod values;

pub use disassembly::{disassemble, disassemble_image};
pub use listing::{put_half, put_word};
