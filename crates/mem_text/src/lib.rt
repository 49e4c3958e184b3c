// Memory text: an image as bytes in hexadecimal, with addresses.
#![tactic(auto)]

mod byte_kind;
pub mod laws;
mod laying;
mod mem_error;
mod mem_reader;
mod mem_why;
mod moves;
mod reading;
#[cfg(test)]
mod tests;
mod token;
mod writing;

pub use mem_error::MemError;
pub use mem_reader::MemReader;
pub use mem_why::MemWhy;
pub use writing::write_mem;
