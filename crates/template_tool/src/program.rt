// The program.
use crate::command::template_main;
use board_outside::{Shelf, Sink, Words};
use std::alloc::Global;
use tool_frame::{Command, Status};

/// The program.
#[derive(Drop)]
pub struct Program {}

impl<F: Shelf, W: Sink> Command<F, W> for Program {
    ghost use Rattle.tool_frame.specs.Answers.{Follows};
    ghost use Rattle.template_tool.specs.Words.{order_of};
    ghost use Rattle.template_tool.specs.Template.{plan_of};

    // What the words ask for, with every cause.
    ghost obeys = { λ words status shelf shelf' out out'. Follows tt status (plan_of (order_of words)) (F.told shelf) (F.told shelf') (W.told out) (W.told out') };

    fn obey(&mut self, alloc: Global, words: &Words, shelf: &mut F, out: &mut W) -> Status {
        template_main(alloc, words, shelf, out)
    }
}
