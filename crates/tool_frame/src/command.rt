// What a program does with its words.
use crate::status::Status;
use board_outside::{Shelf, Sink, Words};
use std::alloc::Global;

/// What a program does with its words, over a shelf and a sink.
pub trait Command<F: Shelf, W: Sink> {
    ghost use Rattle.std.specs.Prelude.{ℕ, List};
    ghost use Rattle.tool_frame.specs.declared.status.Status.{Status};

    /// What became of the shelf and the sink, by the words and the status.
    ghost obeys: { List (List ℕ) → Status → F → F → W → W → Type 0 };

    fn obey(&mut self, alloc: Global, words: &Words, shelf: &mut F, out: &mut W) -> Status
        ensures { obeys words.now result shelf.old shelf.new out.old out.new };
}
