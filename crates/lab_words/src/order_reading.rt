// What the words of the program ask for.
ghost use Rattle.std.specs.Prelude.{◌≡◌, IfOk, option_map};
ghost use Rattle.lab_words.specs.Order.{order_of, view};

use crate::elf_command::read_elf;
use crate::names_command::read_names;
use crate::order::Order;
use crate::sweep_command::read_sweep;
use crate::trace_command::read_trace;
use board_outside::Words;
use hart_words::WantOfMemory;
use std::alloc::Global;
use tool_frame::names;

/// What the words ask for, where they are those of a command. They are the words after the program's name.
#[tactic(auto, unfolding(crate::specs::Order::order_of))]
pub fn read_order<'a>(alloc: Global, words: &'a Words) -> Result<Option<Order<'a>>, WantOfMemory>
    ensures { IfOk result (λ order. option_map view order ≡ order_of words.entry.now) }
{
    if names(words, "elf") {
        match read_elf(alloc, words.as_slice())? {
            Some(order) => Ok(Some(Order::Elf(order))),
            None => Ok(None),
        }
    } else if names(words, "names") {
        match read_names(alloc, words.as_slice())? {
            Some(order) => Ok(Some(Order::Names(order))),
            None => Ok(None),
        }
    } else if names(words, "trace") {
        match read_trace(alloc, words.as_slice())? {
            Some(order) => Ok(Some(Order::Trace(order))),
            None => Ok(None),
        }
    } else if names(words, "sweep") {
        match read_sweep(alloc, words.as_slice())? {
            Some(order) => Ok(Some(Order::Sweep(order))),
            None => Ok(None),
        }
    } else {
        Ok(None)
    }
}
