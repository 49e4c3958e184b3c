// A sweep over counts.
ghost use Rattle.std.specs.Prelude.{◌≡◌, ◌+◌, ◌<◌, ◌^◌, ◌||◌, [], length, IfOk, OnOk, IsTrue};
ghost use Rattle.board_outside.specs.Sink.{Writes};
ghost use Rattle.chain_moves.specs.Words.{HasDispatcher};
ghost use Rattle.chain_core.specs.Chain.{is_whole};
ghost use Rattle.lab_sweep.specs.Sweep.{any_broken, any_spent, end_at, end_by, is_broken, is_spent, text_by, outcome_at, outcomes, with_outcome};

use crate::moving::move_event;
use crate::outcome::outcome_of;
use crate::progress::Progress;
use crate::sweep::Sweep;
use crate::swept::Swept;
use crate::text_sink::TextSink;
use board_outside::Sink;
use chain_core::{ChainEnd, chain};
use chain_direct::{DirectWatch, chain_direct};
use chain_moves::Watch;
use device_model::Device;
use hart_board::{Board, Events};
use hart_words::WantOfMemory;
use std::alloc::Global;

// Runs the chain on this board.
fn run<D: Device>(
    alloc: Global,
    board: &mut Board<D>,
    events: &Events,
    how: &Sweep,
    out: &mut TextSink,
) -> Result<ChainEnd, WantOfMemory>
    requires has { HasDispatcher how.now.dispatcher board.old.memory.rom }
    requires level { board.old.csrs.mil ≡ 0 }
    requires shape { events.now.shape ≡ board.old.outside.clic.shape }
    ensures text { IfOk result (λ end. Writes (is_whole end) (⟦<TextSink as Sink>⟧.told out.old) (⟦<TextSink as Sink>⟧.told out.new) (text_by how.now.direct D.means events.now.list how.now.dispatcher how.now.bound board.old)) }
    ensures end { IfOk result (λ end. IsTrue (is_whole end) → end ≡ end_by how.now.direct D.means events.now.list how.now.dispatcher how.now.bound board.old) }
    ensures kept { OnOk result (board.new.kept ≡ board.old.kept) }
{
    if how.direct {
        let mut watch = DirectWatch::new(alloc)?;
        Ok(chain_direct(
            board,
            &mut watch,
            how.dispatcher,
            events,
            how.bound,
            false,
            out,
        ))
    } else {
        let mut watch = Watch::new(alloc)?;
        Ok(chain(
            board,
            &mut watch,
            how.dispatcher,
            events,
            how.bound,
            false,
            out,
        ))
    }
}

// What a chain with these events writes, and how it ends. The board goes back to where it stood.
fn text_of<D: Device>(
    alloc: Global,
    board: &mut Board<D>,
    events: &Events,
    how: &Sweep,
) -> Result<(TextSink, ChainEnd), WantOfMemory>
    requires has { HasDispatcher how.now.dispatcher board.old.memory.rom }
    requires level { board.old.csrs.mil ≡ 0 }
    requires shape { events.now.shape ≡ board.old.outside.clic.shape }
    requires none { board.old.kept ≡ [] }
    ensures text { IfOk result (λ told. told.0.text ≡ text_by how.now.direct D.means events.now.list how.now.dispatcher how.now.bound board.old) }
    ensures end { IfOk result (λ told. told.1 ≡ end_by how.now.direct D.means events.now.list how.now.dispatcher how.now.bound board.old) }
    ensures back { OnOk result (board.new ≡ board.old) }
{
    board.keep(alloc)?;
    let mut sink = TextSink::new(alloc);
    let end = run(alloc, board, events, how, &mut sink)?;
    let _ = board.back();
    if let ChainEnd::SinkFailed = end {
        return Err(WantOfMemory);
    }
    Ok((sink, end))
}

// One count more: the chain in which the event comes at it.
#[tactic(auto, unfolding(crate::specs::Sweep::outcome_at, crate::specs::Sweep::end_at))]
fn sweep_count<D: Device>(
    alloc: Global,
    board: &mut Board<D>,
    events: &Events,
    how: &Sweep,
    count: u64,
    found: &mut Swept,
) -> Result<(), WantOfMemory>
    requires has { HasDispatcher how.now.dispatcher board.old.memory.rom }
    requires level { board.old.csrs.mil ≡ 0 }
    requires shape { events.now.shape ≡ board.old.outside.clic.shape }
    requires inside { how.now.place < length events.now.list }
    requires none { board.old.kept ≡ [] }
    ensures outcomes { OnOk result (found.new.outcomes ≡ with_outcome count (outcome_at D.means events.now.list how.now board.old count) found.old.outcomes) }
    ensures broken { OnOk result (found.new.broken ≡ (found.old.broken || is_broken (end_at D.means events.now.list how.now board.old count))) }
    ensures spent { OnOk result (found.new.spent ≡ (found.old.spent || is_spent (end_at D.means events.now.list how.now board.old count))) }
    ensures back { OnOk result (board.new ≡ board.old) }
{
    let moved = move_event(alloc, events, how.place, count)?;
    let (sink, end) = text_of(alloc, board, &moved, how)?;
    let outcome = outcome_of(alloc, sink.bytes())?;
    found.add(count, outcome, &end)
}

/// Runs a chain for each count of the sweep, each from a board in the state of this one, of which
/// nothing is kept, and answers what was found.
#[tactic(auto, unfolding(crate::specs::Sweep::outcomes, crate::specs::Sweep::swept))]
pub fn sweep_counts<D: Device, P: Progress>(
    alloc: Global,
    board: &Board<D>,
    events: &Events,
    how: &Sweep,
    progress: &mut P,
) -> Result<Swept, WantOfMemory>
    requires has { HasDispatcher how.now.dispatcher board.now.memory.rom }
    requires level { board.now.csrs.mil ≡ 0 }
    requires shape { events.now.shape ≡ board.now.outside.clic.shape }
    requires inside { how.now.place < length events.now.list }
    requires parts { 0 < how.now.counts.parts }
    requires last { how.now.counts.to + 1 < 2 ^ 64 }
    // The outcomes are those of the chains as they are defined, one for each count.
    ensures outcomes { IfOk result (λ found. found.outcomes ≡ outcomes D.means events.now.list how.now board.now) }
    // So are the ends.
    ensures broken { IfOk result (λ found. found.broken ≡ any_broken D.means events.now.list how.now board.now) }
    ensures spent { IfOk result (λ found. found.spent ≡ any_spent D.means events.now.list how.now board.now) }
{
    let mut own = board.copy(alloc)?;
    let mut found = Swept::new(alloc);
    let counts = how.counts;
    for count in counts.from..counts.to + 1 {
        if count % counts.parts == counts.part {
            sweep_count(alloc, &mut own, events, how, count, &mut found)?;
        }
        progress.tell(count - counts.from + 1, counts.to - counts.from + 1);
    }
    Ok(found)
}
