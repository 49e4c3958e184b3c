// What stands outside the board: files to read, a sink to write to, and the words of a command line.
#![tactic(auto)]

mod buffered_sink;
mod calls;
mod file_shelf;
mod memory_shelf;
mod memory_sink;
mod puts;
mod quiet;
mod reads;
mod shelf;
mod sink;
mod std_sink;
mod stored_file;
mod streams;
#[cfg(test)]
mod tests;
mod tries;
mod word;
mod words;

pub use buffered_sink::BufferedSink;
pub use file_shelf::FileShelf;
pub use memory_shelf::MemoryShelf;
pub use memory_sink::MemorySink;
pub use quiet::Quiet;
pub use shelf::{MOST_FETCHED, Shelf, ShelfFault};
pub use sink::{Sink, SinkFault};
pub use std_sink::StdSink;
pub use word::Word;
pub use words::Words;
