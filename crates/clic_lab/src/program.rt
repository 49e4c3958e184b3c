// The program.
use crate::command::lab_main;
use board_outside::{Shelf, Sink, Words};
use lab_sweep::Progress;
use std::alloc::Global;
use tool_frame::{Command, Status};

/// The program, with who is told how far a sweep has come.
#[derive(Drop)]
pub struct Program<P: Progress> {
    progress: P,
}

impl<P: Progress> Program<P> {
    pub fn new(progress: P) -> Program<P> {
        Program { progress }
    }
}

impl<P: Progress, F: Shelf, W: Sink> Command<F, W> for Program<P> {
    ghost use Rattle.tool_frame.specs.Answers.{Follows};
    ghost use Rattle.lab_words.specs.Order.{order_of};
    ghost use Rattle.clic_lab.specs.Plan.{plan_of};

    // What a command does with its files, with every cause.
    ghost obeys = { λ words status shelf shelf' out out'. Follows tt status (plan_of (order_of words)) (F.told shelf) (F.told shelf') (W.told out) (W.told out') };

    fn obey(&mut self, alloc: Global, words: &Words, shelf: &mut F, out: &mut W) -> Status {
        lab_main(alloc, words, shelf, out, &mut self.progress)
    }
}
