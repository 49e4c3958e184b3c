// The command.
ghost use Rattle.std.specs.Prelude.{◌≡◌, Some, None};
ghost use Rattle.tool_frame.specs.Answers.{Follows};
ghost use Rattle.template_tool.specs.Words.{TemplateWords, order_of, view};
ghost use Rattle.template_tool.specs.Template.{plan_of, IsServedBy};
ghost use Rattle.template_tool.specs.Usage.{Misuses};

use crate::order::Order;
use crate::order_reading::read_order;
use crate::working::work_files;
use board_outside::{Shelf, Sink, Words};
use board_template::template_devices;
use std::alloc::Global;
use tool_frame::{Status, end_usage, status_in};

// Does what was asked for.
#[tactic(auto, unfolding(crate::specs::Template::template_meanings, crate::specs::Template::flash_contents))]
fn follow<F: Shelf, W: Sink>(alloc: Global, order: &Order<'_>, shelf: &mut F, out: &mut W) -> Status
    ensures follows { Follows tt result (plan_of (Some (view order.now))) (F.told shelf.old) (F.told shelf.new) (W.told out.old) (W.told out.new) }
    ensures served { IsServedBy (view order.now) result (F.told shelf.old) (F.told shelf.new) }
{
    match template_devices(alloc, b"ok") {
        Ok(devices) => status_in(work_files(alloc, devices, order, shelf, out)),
        Err(_) => Status::Memory,
    }
}

/// Does what the words say, and answers how it ended. The words are those after the program's name.
#[tactic(auto, unfolding(crate::specs::Usage::usage_line))]
pub fn template_main<F: Shelf, W: Sink>(
    alloc: Global,
    words: &Words,
    shelf: &mut F,
    out: &mut W,
) -> Status
    // Words that aren't such as the program takes.
    ensures usage { order_of words.now ≡ None → Misuses result (F.told shelf.old) (F.told shelf.new) (W.told out.old) (W.told out.new) }
    // What is written is the text of the run, or of the chain, of the files' board with these devices, and the status
    // is that of its end; or the line of a file that wasn't given or is refused.
    ensures follows { Follows tt result (plan_of (order_of words.now)) (F.told shelf.old) (F.told shelf.new) (W.told out.old) (W.told out.new) }
    // A chain that was made had the services of the servicing machine, which knows no dispatcher, and where it was done
    // the board agrees with that machine in all but dispatch code, dead bytes and what the last trap saved.
    ensures served { (asked : TemplateWords) → order_of words.now ≡ Some asked → IsServedBy asked result (F.told shelf.old) (F.told shelf.new) }
{
    let usage = b"usage: template_tool run | looping | returning IMAGE SCENARIO BOUND\n";
    match read_order(alloc, words) {
        Ok(Some(order)) => follow(alloc, &order, shelf, out),
        Ok(None) => end_usage(usage, out),
        Err(_) => Status::Memory,
    }
}
