// A sweep over the counts of one event, on the shipped board.
ghost use Rattle.std.specs.Prelude.{◌≡◌, ◌<◌, ◌+◌, ◌^◌, true};
ghost use Rattle.board_outside.specs.Shelf.{ShelfView};
ghost use Rattle.tool_frame.specs.Answers.{EndsOrWants, Follows, status_in};
ghost use Rattle.lab_words.specs.Sweep.{view_sweep};
ghost use Rattle.lab_work.specs.Sweep.{event_plan, has_event, no_event_line, status_of, sweep_due, sweep_of, sweep_plan};

use board_outside::{Shelf, Sink};
use chain_moves::slot_taken;
use hart_board::Events;
use hart_memory::Image;
use hart_words::Line;
use lab_sweep::{Counts, Progress, Sweep, Swept, put_outcomes, sweep_counts};
use lab_words::SweepOrder;
use std::alloc::Global;
use tool_frame::{Status, end_refused, ended, read_file};
use tool_work::{ImageFile, ScenarioFile, board_with, line_of_slot};

// Whether the scenario has an event of this number, of which the first is 1.
fn has_event(number: u32, events: &Events) -> bool
    ensures { result ≡ has_event number events.now }
{
    number > 0 && number as usize <= events.len()
}

// The line of a scenario that has no such event, with how many it has.
#[tactic(auto, unfolding(tool_frame::specs::Lines::refused_line))]
fn line_of_no_event(events: &Events) -> Line
    ensures { result ≡ no_event_line events.now }
{
    let mut line = Line::new();
    line.put_text("refused ");
    line.put_text("scenario");
    line.put_text(" ");
    line.put_text("NoEvent");
    line.put_text(" ");
    line.put_dec(events.len() as u64);
    line.put_text("\n");
    line
}

// What the words ask for.
fn sweep_of(order: &SweepOrder<'_>) -> Sweep
    requires event { 0 < order.now.event }
    ensures is { result ≡ sweep_of (view_sweep order.now) }
    ensures last { result.counts.to + 1 < 2 ^ 64 }
{
    Sweep {
        dispatcher: order.chaining.dispatcher,
        direct: order.chaining.direct,
        bound: order.bound,
        place: order.event as usize - 1,
        counts: Counts {
            from: u64::from(order.from),
            to: u64::from(order.to),
            part: u64::from(order.part.number),
            parts: u64::from(order.part.parts),
        },
    }
}

// The status of a sweep: a broken chain counts before one at its bound.
fn status_of(swept: &Swept) -> Status
    ensures { result ≡ status_of (record { rows = swept.now.outcomes; broken = swept.now.broken; spent = swept.now.spent }) }
{
    if swept.broken {
        Status::Broken
    } else if swept.spent {
        Status::BudgetSpent
    } else {
        Status::Done
    }
}

// Runs the chains.
#[tactic(auto, unfolding(crate::specs::Sweep::sweep_made, tool_work::specs::Shipped::shipped_meanings))]
fn sweep_image<W: Sink, P: Progress>(
    alloc: Global,
    order: &SweepOrder<'_>,
    image: &Image,
    events: &Events,
    out: &mut W,
    progress: &mut P,
) -> Status
    requires event { has_event order.now.event events.now ≡ true }
    requires parts { 0 < order.now.part.parts }
    ensures { EndsOrWants result (W.told out.old) (W.told out.new) (sweep_due (view_sweep order.now) image.now events.now) }
{
    let board = match board_with(alloc, order.chaining.dispatcher, image, events) {
        Ok(board) => board,
        Err(_) => return Status::Memory,
    };
    match sweep_counts(alloc, &board, events, &sweep_of(order), progress) {
        Ok(swept) => ended(put_outcomes(&swept.outcomes, out), status_of(&swept)),
        Err(_) => Status::Memory,
    }
}

// Runs the chains where the scenario has the event and the image leaves the slot free.
fn sweep_event<W: Sink, P: Progress>(
    alloc: Global,
    order: &SweepOrder<'_>,
    image: &Image,
    events: &Events,
    out: &mut W,
    progress: &mut P,
) -> Result<Status, Status>
    requires parts { 0 < order.now.part.parts }
    ensures { (shelf : ShelfView) → Follows tt (status_in result) (event_plan (view_sweep order.now) image.now events.now) shelf shelf (W.told out.old) (W.told out.new) }
{
    if !has_event(order.event, events) {
        return Err(end_refused(&line_of_no_event(events), out));
    }
    match slot_taken(image) {
        Some(at) => Err(end_refused(&line_of_slot(at), out)),
        None => Ok(sweep_image(alloc, order, image, events, out, progress)),
    }
}

/// Reads the image and then the scenario, runs a chain for each count, and writes what became of them. It
/// tells how far it has come.
pub fn sweep_files<F: Shelf, W: Sink, P: Progress>(
    alloc: Global,
    order: &SweepOrder<'_>,
    shelf: &mut F,
    out: &mut W,
    progress: &mut P,
) -> Result<Status, Status>
    requires parts { 0 < order.now.part.parts }
    ensures { Follows tt (status_in result) (sweep_plan (view_sweep order.now)) (F.told shelf.old) (F.told shelf.new) (W.told out.old) (W.told out.new) }
{
    let image = read_file(alloc, &ImageFile, order.image, shelf, out)?;
    let events = read_file(alloc, &ScenarioFile, order.scenario, shelf, out)?;
    sweep_event(alloc, order, &image, &events, out, progress)
}
