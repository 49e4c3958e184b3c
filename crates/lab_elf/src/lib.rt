// ELF files of RISC-V: what they load into memory, and the names of their symbols.
#![tactic(auto)]

mod elf_error;
mod elf_why;
mod header;
mod image_of_file;
mod loading;
mod numbers;
mod piece;
mod program;
mod section;
mod symbol;
mod symbol_table;
mod symbols;
#[cfg(test)]
mod tests;

pub use elf_error::ElfError;
pub use elf_why::ElfWhy;
pub use image_of_file::read_elf;
pub use symbols::{MAX_SYMBOLS, read_symbols};
