// A trace with names, on the shipped board.
ghost use Rattle.std.specs.Prelude.{◌≡◌, Some, IfOk};
ghost use Rattle.tool_frame.specs.Answers.{EndsOrWants, Follows, status_in};
ghost use Rattle.lab_words.specs.Trace.{view_trace};
ghost use Rattle.lab_work.specs.Trace.{named_plan, plain_due, taken_for, trace_due, trace_plan};

use crate::names_file::NamesFile;
use board_outside::{Shelf, Sink};
use chain_moves::slot_taken;
use hart_board::Events;
use hart_memory::Image;
use hart_words::WantOfMemory;
use lab_names::Names;
use lab_sweep::TextSink;
use lab_trace::put_named_text;
use lab_words::{Chaining, TraceOrder};
use std::alloc::Global;
use tool_frame::{Status, end_refused, ended, read_file};
use tool_words::{ChainOrder, RunOrder};
use tool_work::{Bench, ImageFile, ScenarioFile, chain_image, line_of_slot, run_image};

// Runs the image with the events under the dispatcher, with a trace.
fn trace_chain<W: Sink>(
    alloc: Global,
    order: &TraceOrder<'_>,
    chaining: Chaining,
    image: &Image,
    events: &Events,
    out: &mut W,
) -> Status
    ensures { EndsOrWants result (W.told out.old) (W.told out.new) (plain_due (view_trace order.now) (Some chaining) image.now events.now) }
{
    let chain = ChainOrder {
        image: order.image,
        scenario: order.scenario,
        dispatcher: chaining.dispatcher,
        bound: order.bound,
        trace: true,
        direct: chaining.direct,
    };
    let mut bench = Bench::new();
    chain_image(alloc, &chain, image, events, &mut bench, out)
}

// Runs the image with the events as the words say, with a trace.
fn trace_image<W: Sink>(
    alloc: Global,
    order: &TraceOrder<'_>,
    image: &Image,
    events: &Events,
    out: &mut W,
) -> Status
    ensures { EndsOrWants result (W.told out.old) (W.told out.new) (plain_due (view_trace order.now) order.now.chaining image.now events.now) }
{
    match order.chaining {
        None => {
            let run = RunOrder {
                image: order.image,
                scenario: order.scenario,
                bound: order.bound,
                trace: true,
            };
            run_image(alloc, &run, image, events, out)
        }
        Some(chaining) => trace_chain(alloc, order, chaining, image, events, out),
    }
}

// The trace without names, and its status.
fn plain_trace(
    alloc: Global,
    order: &TraceOrder<'_>,
    image: &Image,
    events: &Events,
) -> Result<(TextSink, Status), WantOfMemory>
    ensures { IfOk result (λ told. (told.0.text ≡ (plain_due (view_trace order.now) order.now.chaining image.now events.now).text) × (told.1 ≡ (plain_due (view_trace order.now) order.now.chaining image.now events.now).status)) }
{
    let mut plain = TextSink::new(alloc);
    match trace_image(alloc, order, image, events, &mut plain) {
        Status::SinkFailed => Err(WantOfMemory),
        Status::Memory => Err(WantOfMemory),
        status => Ok((plain, status)),
    }
}

// Writes the trace with names.
fn write_trace<W: Sink>(
    alloc: Global,
    order: &TraceOrder<'_>,
    image: &Image,
    events: &Events,
    names: &Names,
    out: &mut W,
) -> Status
    ensures { EndsOrWants result (W.told out.old) (W.told out.new) (trace_due (view_trace order.now) image.now events.now names.now) }
{
    match plain_trace(alloc, order, image, events) {
        Ok((plain, status)) => ended(put_named_text(names, plain.bytes(), out), status),
        Err(_) => Status::Memory,
    }
}

// Reads the names, where a file of names is told, and writes the trace.
fn trace_with_names<F: Shelf, W: Sink>(
    alloc: Global,
    order: &TraceOrder<'_>,
    image: &Image,
    events: &Events,
    shelf: &mut F,
    out: &mut W,
) -> Result<Status, Status>
    ensures { Follows tt (status_in result) (named_plan (view_trace order.now) image.now events.now) (F.told shelf.old) (F.told shelf.new) (W.told out.old) (W.told out.new) }
{
    match order.names {
        None => {
            let none = Names::new(alloc);
            Ok(write_trace(alloc, order, image, events, &none, out))
        }
        Some(name) => {
            let names = read_file(alloc, &NamesFile, name, shelf, out)?;
            Ok(write_trace(alloc, order, image, events, &names, out))
        }
    }
}

// The least address of the slot that the image covers, under a dispatcher.
fn taken_for(chaining: Option<Chaining>, image: &Image) -> Option<u32>
    ensures { result ≡ taken_for chaining image.now }
{
    match chaining {
        None => None,
        Some(_) => slot_taken(image),
    }
}

/// Reads the image, the scenario and then the names, and writes the trace of a run, or of a chain, with the names.
pub fn trace_files<F: Shelf, W: Sink>(
    alloc: Global,
    order: &TraceOrder<'_>,
    shelf: &mut F,
    out: &mut W,
) -> Result<Status, Status>
    ensures { Follows tt (status_in result) (trace_plan (view_trace order.now)) (F.told shelf.old) (F.told shelf.new) (W.told out.old) (W.told out.new) }
{
    let image = read_file(alloc, &ImageFile, order.image, shelf, out)?;
    let events = read_file(alloc, &ScenarioFile, order.scenario, shelf, out)?;
    match taken_for(order.chaining, &image) {
        Some(at) => Err(end_refused(&line_of_slot(at), out)),
        None => trace_with_names(alloc, order, &image, &events, shelf, out),
    }
}
