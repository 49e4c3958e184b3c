// Text that is kept back, and handed over together.
ghost use Rattle.std.specs.Prelude.{◌≡◌, ◌+◌, ◌≤◌, ◌++◌, [], length, is_ok};
ghost use Rattle.board_outside.specs.Sink.{Writes};
ghost use Rattle.board_outside.specs.Puts.{no_puts, output_view, Hands};
ghost use Rattle.board_outside.specs.Buffered.{handed, kept_after};

use crate::puts::Puts;
use crate::sink::{Sink, SinkFault};
use crate::streams::write_whole;
use arrayvec::ArrayVec;
use std::io::Write;
use std::marker::Model;

/// How many bytes are kept at most.
const MOST_KEPT: usize = 8192;

/// Text on its way to a writer, seen as what the writer holds, where it tells that, what is kept back, and what was handed
/// over, in counts. What isn't taken by a write that fails is dropped, and what is kept is lost unless `finish` hands it over.
#[derive(Drop)]
pub struct BufferedSink<W: Write> {
    writer: W,
    kept: ArrayVec<u8, MOST_KEPT>,
    puts: Puts,
}

impl<W: Write> Model for BufferedSink<W> {
    ghost use Rattle.board_outside.specs.Buffered.{BufferedState};

    ghost Value = { BufferedState };

    ghost view = { λ s. record { held = W.contents s.writer; kept = s.kept.items; puts = s.puts } };
}

impl<W: Write> BufferedSink<W> {
    /// Over this writer, with no text yet.
    pub fn new(writer: W) -> BufferedSink<W>
        ensures { result ≡ record { held = W.contents writer; kept = []; puts = no_puts } }
    {
        BufferedSink {
            writer,
            kept: ArrayVec::new(),
            puts: Puts::new(),
        }
    }

    /// How many bytes were taken.
    pub fn bytes_taken(&self) -> u64
        ensures { result ≡ self.now.puts.bytes }
    {
        self.puts.bytes()
    }

    fn keep(&mut self, bytes: &[u8])
        requires { length self.old.kept + length bytes.now ≤ MOST_KEPT }
        ensures { self.new ≡ record self.old { kept = self.old.kept ++ bytes.now } }
    {
        let _ = self.kept.try_extend_from_slice(bytes);
    }

    /// Hands over what is kept, at the end.
    pub fn finish(&mut self) -> Result<(), SinkFault>
        // All that was kept is taken, or a front of it and then a write failed.
        ensures hands { Hands (is_ok result) self.old.held self.new.held self.old.puts self.new.puts self.old.kept }
        ensures keeps { self.new.kept ≡ [] }
    {
        let done = write_whole(&mut self.puts, &mut self.writer, self.kept.as_slice());
        self.kept.clear();
        done
    }
}

impl<W: Write> Sink for BufferedSink<W> {
    ghost told = { λ s. output_view s.puts };

    /// Keeps the bytes, or hands over all.
    fn put(&mut self, bytes: &[u8]) -> Result<(), SinkFault>
        ensures writes { Writes (is_ok result) (output_view self.old.puts) (output_view self.new.puts) bytes.now }
        // All that is handed over was taken, or a front of it and then a write failed.
        ensures hands { Hands (is_ok result) self.old.held self.new.held self.old.puts self.new.puts (handed self.old.kept bytes.now) }
        ensures keeps { self.new.kept ≡ kept_after self.old.kept bytes.now }
    {
        if bytes.len() <= self.kept.remaining_capacity() {
            self.keep(bytes);
            return Ok(());
        }
        self.finish()?;
        write_whole(&mut self.puts, &mut self.writer, bytes)
    }
}
