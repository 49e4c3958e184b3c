// The two chains of `gen`.
ghost use Rattle.std.specs.Prelude.{◌≡◌, false, IfOk, IfErr, Some, is_ok, if◌then◌else◌};
ghost use Rattle.board_outside.specs.Shelf.{ShelfView};
ghost use Rattle.board_outside.specs.Sink.{Writes};
ghost use Rattle.chain_core.specs.Chain.{chain_end, board_after};
ghost use Rattle.chain_moves.specs.declared.dispatcher.Dispatcher.TheVariants.{Looping, Returning};
ghost use Rattle.tool_work.specs.Bench.{empty_bench};
ghost use Rattle.tool_work.specs.Shipped.{shipped_meanings};
ghost use Rattle.tool_work.specs.Chain.{chain_board, IsServed};
ghost use Rattle.tool_words.specs.Gen.{view_gen};
ghost use Rattle.tool_work.specs.Gen.{gen_bound, gen_board, summary_line, line_after, gen_line, deciding, gen_due, gen_left, gen_plan, IsPrepared, AreServed};
ghost use Rattle.tool_work.specs.GenEvents.{gen_events};
ghost use Rattle.tool_frame.specs.Answers.{Ends, Leaves, FollowsWith};
ghost use Rattle.tool_frame.specs.Due.{worked};
ghost use Rattle.tool_frame.specs.Code.{OfCommand, origin_of};

use crate::agreeing::chains_agree;
use crate::bench::Bench;
use crate::chaining::{board_with, status_of_end};
use crate::gen_events::generated_events;
use crate::gen_image::generated_image;
use crate::prepared::Prepared;
use board_devices::AllDevices;
use board_outside::{Quiet, Sink, SinkFault};
use chain_core::{ChainEnd, chain, put_end};
use chain_moves::{Dispatcher, Watch};
use hart_board::{Board, Events};
use hart_memory::Image;
use hart_words::{Line, WantOfMemory};
use std::alloc::Global;
use tool_frame::{Status, ended};
use tool_words::GenOrder;

// The most steps of each chain.
const BOUND: u64 = 1_000_000;

// The board from which a chain starts, and all the memory that it takes.
fn prepare(
    alloc: Global,
    dispatcher: Dispatcher,
    image: &Image,
    events: &Events,
) -> Result<Prepared, WantOfMemory>
    ensures board { IfOk result (λ p. p.board ≡ chain_board dispatcher image.now events.now) }
    ensures ready { IfOk result (λ p. IsPrepared dispatcher events.now p) }
{
    let watch = Watch::new(alloc)?;
    let board = board_with(alloc, dispatcher, image, events)?;
    Ok(Prepared { board, watch })
}

// Runs the chain to its end. Nobody reads what it writes.
#[tactic(auto, unfolding(crate::specs::Shipped::shipped_meanings))]
fn chained(prepared: &mut Prepared, dispatcher: Dispatcher, events: &Events) -> ChainEnd
    requires ready { IsPrepared dispatcher events.now prepared.old }
    ensures end { result ≡ (chain_end shipped_meanings events.now.list dispatcher gen_bound prepared.old.board).end }
    ensures board { prepared.new.board ≡ board_after shipped_meanings events.now.list dispatcher gen_bound prepared.old.board }
    ensures served { IsServed false dispatcher gen_bound events.now prepared.old.board }
{
    let mut nowhere = Quiet::new();
    chain(
        &mut prepared.board,
        &mut prepared.watch,
        dispatcher,
        events,
        BOUND,
        false,
        &mut nowhere,
    )
}

// Writes the number, the services, and the steps of both chains.
#[tactic(auto, unfolding(crate::specs::Gen::summary_line))]
fn put_summary<W: Sink>(
    number: u16,
    services: u64,
    looping: u64,
    returning: u64,
    out: &mut W,
) -> Result<(), SinkFault>
    ensures { Writes (is_ok result) (W.told out.old) (W.told out.new) (summary_line number services looping returning) }
{
    let mut line = Line::new();
    line.put_text("gen ");
    line.put_dec(u64::from(number));
    line.put_text(" services ");
    line.put_dec(services);
    line.put_text(" looping ");
    line.put_dec(looping);
    line.put_text(" returning ");
    line.put_dec(returning);
    line.put_text("\n");
    out.put(line.bytes())
}

// Writes the summary where the returning chain is done too, and else how that one ended.
fn put_after<W: Sink>(
    number: u16,
    services: u64,
    looping: u64,
    returning: ChainEnd,
    out: &mut W,
) -> Result<(), SinkFault>
    ensures { Writes (is_ok result) (W.told out.old) (W.told out.new) (line_after number services looping returning) }
{
    match returning {
        ChainEnd::Done { steps, .. } => put_summary(number, services, looping, steps, out),
        ChainEnd::BudgetSpent | ChainEnd::Broken { .. } | ChainEnd::SinkFailed => {
            put_end(returning, None, out)
        }
    }
}

// Writes the line of both chains, which ended so.
fn put_line<W: Sink>(
    number: u16,
    looping: ChainEnd,
    returning: ChainEnd,
    out: &mut W,
) -> Result<(), SinkFault>
    ensures { Writes (is_ok result) (W.told out.old) (W.told out.new) (gen_line number looping returning) }
{
    match looping {
        ChainEnd::Done {
            steps,
            services,
            ..
        } => put_after(number, services, steps, returning, out),
        ChainEnd::BudgetSpent | ChainEnd::Broken { .. } | ChainEnd::SinkFailed => {
            put_end(looping, None, out)
        }
    }
}

// The first end that isn't that of a chain which is done, or else the second.
fn deciding(first: ChainEnd, second: ChainEnd) -> ChainEnd
    ensures { result ≡ deciding first second }
{
    match first {
        ChainEnd::Done { .. } => second,
        ChainEnd::BudgetSpent | ChainEnd::Broken { .. } | ChainEnd::SinkFailed => first,
    }
}

// Where the line was written, both boards go to the bench.
fn leave(written: bool, looping: Board<AllDevices>, returning: Board<AllDevices>, bench: &mut Bench)
    requires empty { bench.old ≡ empty_bench }
    ensures { bench.new ≡ (if written then record { first = Some looping; second = Some returning } else empty_bench) }
{
    if written {
        bench.first = Some(looping);
        bench.second = Some(returning);
    }
}

// Runs both chains, and tells what they came to.
fn run_both<W: Sink>(
    number: u16,
    looping: Prepared,
    returning: Prepared,
    events: &Events,
    bench: &mut Bench,
    out: &mut W,
) -> Status
    requires empty { bench.old ≡ empty_bench }
    requires made { events.now ≡ gen_events number }
    requires looping { looping.board ≡ gen_board Looping number }
    requires looping_ready { IsPrepared Looping events.now looping }
    requires returning { returning.board ≡ gen_board Returning number }
    requires returning_ready { IsPrepared Returning events.now returning }
    ensures ends { Ends result (W.told out.old) (W.told out.new) (gen_due number) }
    ensures leaves { Leaves empty_bench result (worked (gen_due number) (gen_left number)) bench.new }
    ensures served { AreServed number }
{
    chains_agree(&looping.board, Dispatcher::Looping, events);
    let mut first = looping;
    let mut second = returning;
    let first_end = chained(&mut first, Dispatcher::Looping, events);
    let second_end = chained(&mut second, Dispatcher::Returning, events);
    let written = put_line(number, first_end, second_end, out);
    leave(written.is_ok(), first.board, second.board, bench);
    ended(written, status_of_end(&deciding(first_end, second_end)))
}

// Makes the image and the events of a number, and both boards before either chain begins.
fn chains_of<W: Sink>(
    alloc: Global,
    number: u16,
    bench: &mut Bench,
    out: &mut W,
) -> Result<Status, WantOfMemory>
    requires empty { bench.old ≡ empty_bench }
    ensures ends { IfOk result (λ status. Ends status (W.told out.old) (W.told out.new) (gen_due number)) }
    ensures leaves { IfOk result (λ status. Leaves empty_bench status (worked (gen_due number) (gen_left number)) bench.new) }
    ensures served { IfOk result (λ status. AreServed number) }
    ensures silent { IfErr result (λ want. W.told out.new ≡ W.told out.old) }
    ensures kept { IfErr result (λ want. bench.new ≡ empty_bench) }
{
    let image = generated_image(alloc, number)?;
    let events = generated_events(alloc, number)?;
    let looping = prepare(alloc, Dispatcher::Looping, &image, &events)?;
    let returning = prepare(alloc, Dispatcher::Returning, &image, &events)?;
    Ok(run_both(number, looping, returning, &events, bench, out))
}

/// Makes the image and the events of a number, and runs both chains of them. It reads no file.
pub fn generate<W: Sink>(alloc: Global, order: &GenOrder, bench: &mut Bench, out: &mut W) -> Status
    requires empty { bench.old ≡ empty_bench }
    ensures served { origin_of result ≡ OfCommand → AreServed order.now.number }
    ensures follows { (shelf : ShelfView) → FollowsWith empty_bench result (gen_plan (view_gen order.now)) shelf shelf (W.told out.old) (W.told out.new) bench.new }
{
    match chains_of(alloc, order.number, bench, out) {
        Ok(status) => status,
        Err(_) => Status::Memory,
    }
}
