// Sinks that keep text back.
ghost use Rattle.std.specs.Prelude.{◌≡◌, [], is_ok};

use board_outside::{Sink, SinkFault, StdSink};

/// A sink that may keep text back until its end.
pub trait Finish: Sink {
    ghost use Rattle.std.specs.Prelude.{Bool};

    /// What the end made of it, and whether all was taken.
    ghost finishes: { Bool → Self → Self → Type 0 };

    /// Hands over what is kept, at the end.
    fn finish(&mut self) -> Result<(), SinkFault>
        ensures { finishes (is_ok result) self.old self.new };
}

impl<R: Print> Finish for StdSink<'_, R> {
    ghost use Rattle.board_outside.specs.Puts.{Hands};

    ghost finishes = { λ whole old new. Hands whole old.held new.held old.puts new.puts old.kept × (new.kept ≡ []) };

    fn finish(&mut self) -> Result<(), SinkFault> {
        StdSink::finish(self)
    }
}
