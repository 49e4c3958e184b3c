// What the words of the program ask for.
ghost use Rattle.std.specs.Prelude.{◌≡◌, IfOk, option_map};
ghost use Rattle.tool_words.specs.Order.{handler_order_of, file_order_of, order_of, view};

use crate::assemble_command::read_assemble;
use crate::bound_command::read_bound;
use crate::chain_command::read_chain;
use crate::disassemble_command::read_disassemble;
use crate::gen_command::read_gen;
use crate::lint_command::read_lint;
use crate::mem_command::read_mem;
use crate::monitor_command::read_monitor;
use crate::order::Order;
use crate::run_command::read_run;
use crate::unmem_command::read_unmem;
use board_outside::Words;
use hart_words::WantOfMemory;
use std::alloc::Global;
use tool_frame::names;

// What the words ask for, where they are those of a command of handlers.
fn read_handler_order<'a>(
    alloc: Global,
    words: &'a Words,
) -> Result<Option<Order<'a>>, WantOfMemory>
    ensures { IfOk result (λ order. option_map view order ≡ handler_order_of words.entry.now) }
{
    if names(words, "lint") {
        match read_lint(alloc, words.as_slice())? {
            Some(order) => Ok(Some(Order::Lint(order))),
            None => Ok(None),
        }
    } else if names(words, "bound") {
        match read_bound(alloc, words.as_slice())? {
            Some(order) => Ok(Some(Order::Bound(order))),
            None => Ok(None),
        }
    } else {
        Ok(None)
    }
}

// What the words ask for, where they are those of a command that makes one file of another, or of handlers.
fn read_file_order<'a>(alloc: Global, words: &'a Words) -> Result<Option<Order<'a>>, WantOfMemory>
    ensures { IfOk result (λ order. option_map view order ≡ file_order_of words.entry.now) }
{
    if names(words, "asm") {
        match read_assemble(alloc, words.as_slice())? {
            Some(order) => Ok(Some(Order::Assemble(order))),
            None => Ok(None),
        }
    } else if names(words, "disasm") {
        match read_disassemble(alloc, words.as_slice())? {
            Some(order) => Ok(Some(Order::Disassemble(order))),
            None => Ok(None),
        }
    } else if names(words, "mem") {
        match read_mem(alloc, words.as_slice())? {
            Some(order) => Ok(Some(Order::Mem(order))),
            None => Ok(None),
        }
    } else if names(words, "unmem") {
        match read_unmem(alloc, words.as_slice())? {
            Some(order) => Ok(Some(Order::Unmem(order))),
            None => Ok(None),
        }
    } else {
        read_handler_order(alloc, words)
    }
}

/// What the words ask for, where they are those of a command. They are the words after the program's name.
#[tactic(auto, unfolding(crate::specs::Order::order_of))]
pub fn read_order<'a>(alloc: Global, words: &'a Words) -> Result<Option<Order<'a>>, WantOfMemory>
    ensures { IfOk result (λ order. option_map view order ≡ order_of words.entry.now) }
{
    if names(words, "run") {
        match read_run(alloc, words.as_slice())? {
            Some(order) => Ok(Some(Order::Run(order))),
            None => Ok(None),
        }
    } else if names(words, "chain") {
        match read_chain(alloc, words.as_slice())? {
            Some(order) => Ok(Some(Order::Chain(order))),
            None => Ok(None),
        }
    } else if names(words, "monitor") {
        match read_monitor(alloc, words.as_slice())? {
            Some(order) => Ok(Some(Order::Monitor(order))),
            None => Ok(None),
        }
    } else if names(words, "gen") {
        match read_gen(alloc, words.as_slice())? {
            Some(order) => Ok(Some(Order::Gen(order))),
            None => Ok(None),
        }
    } else {
        read_file_order(alloc, words)
    }
}
