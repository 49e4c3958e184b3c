// The program.
use crate::command::clic_main;
use board_outside::{Shelf, Sink, Words};
use std::alloc::Global;
use tool_frame::{Command, Status};
use tool_work::Bench;

/// The program, with the bench on which its commands leave boards.
#[derive(Drop)]
pub struct Program {
    pub bench: Bench,
}

impl<F: Shelf, W: Sink> Command<F, W> for Program {
    ghost use Rattle.tool_frame.specs.Answers.{FollowsWith};
    ghost use Rattle.tool_work.specs.Bench.{empty_bench};
    ghost use Rattle.tool_work.specs.declared.bench.Bench.{Bench};
    ghost use Rattle.tool_words.specs.Order.{order_of};
    ghost use Rattle.clic_tool.specs.Plan.{plan_of};

    // What a command does with its files, with every cause.
    ghost obeys = { λ words status shelf shelf' out out'. (bench : Bench) × FollowsWith empty_bench status (plan_of (order_of words)) (F.told shelf) (F.told shelf') (W.told out) (W.told out') bench };

    fn obey(&mut self, alloc: Global, words: &Words, shelf: &mut F, out: &mut W) -> Status {
        clic_main(alloc, words, shelf, &mut self.bench, out)
    }
}
