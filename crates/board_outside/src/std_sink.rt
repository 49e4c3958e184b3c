// Standard output.
ghost use Rattle.std.specs.Prelude.{◌≡◌, [], is_ok};
ghost use Rattle.board_outside.specs.Sink.{Writes};
ghost use Rattle.board_outside.specs.Puts.{output_view, Hands};
ghost use Rattle.board_outside.specs.Buffered.{nothing_written, handed, kept_after};

use crate::buffered_sink::BufferedSink;
use crate::sink::{Sink, SinkFault};
use std::io;
use std::io::Printer;
use std::marker::Model;

/// Standard output, a writer that doesn't tell what it holds, behind a buffer.
#[derive(Drop)]
pub struct StdSink<'a, R: Print> {
    buffered: BufferedSink<Printer<'a, R>>,
}

impl<'a, R: Print> Model for StdSink<'a, R> {
    ghost use Rattle.board_outside.specs.Buffered.{BufferedState};

    ghost Value = { BufferedState };

    ghost view = { λ s. s.buffered };
}

impl<'a, R: Print> StdSink<'a, R> {
    /// No text yet.
    pub fn new(rt: &'a R) -> StdSink<'a, R>
        ensures { result ≡ nothing_written }
    {
        StdSink {
            buffered: BufferedSink::new(io::writer(rt)),
        }
    }

    /// How many bytes standard output took.
    pub fn bytes_taken(&self) -> u64
        ensures { result ≡ self.now.puts.bytes }
    {
        self.buffered.bytes_taken()
    }

    /// Hands over what is kept, at the end.
    pub fn finish(&mut self) -> Result<(), SinkFault>
        ensures hands { Hands (is_ok result) self.old.held self.new.held self.old.puts self.new.puts self.old.kept }
        ensures keeps { self.new.kept ≡ [] }
    {
        self.buffered.finish()
    }
}

impl<'a, R: Print> Sink for StdSink<'a, R> {
    ghost told = { λ s. output_view s.puts };

    fn put(&mut self, bytes: &[u8]) -> Result<(), SinkFault>
        ensures writes { Writes (is_ok result) (output_view self.old.puts) (output_view self.new.puts) bytes.now }
        ensures hands { Hands (is_ok result) self.old.held self.new.held self.old.puts self.new.puts (handed self.old.kept bytes.now) }
        ensures keeps { self.new.kept ≡ kept_after self.old.kept bytes.now }
    {
        self.buffered.put(bytes)
    }
}
