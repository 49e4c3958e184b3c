// A chain on the shipped board, with direct services or without.
ghost use Rattle.std.specs.Prelude.{◌≡◌, IsTrue, IfOk, IfErr};
ghost use Rattle.board_outside.specs.Sink.{Writes};
ghost use Rattle.chain_moves.specs.Words.{HasDispatcher};
ghost use Rattle.chain_core.specs.Chain.{is_whole};
ghost use Rattle.tool_work.specs.Chain.{ends_by, text_by, board_by, HasItsServices, HasItsState};

use board_devices::AllDevices;
use board_outside::Sink;
use chain_core::{ChainEnd, chain};
use chain_direct::{DirectWatch, chain_direct};
use chain_moves::Watch;
use hart_board::{Board, Events};
use hart_words::WantOfMemory;
use std::alloc::Global;
use tool_words::ChainOrder;

/// Runs the shipped board under its dispatcher as the words say.
#[tactic(auto, unfolding(crate::specs::Shipped::shipped_meanings))]
pub fn run_chain<W: Sink>(
    alloc: Global,
    order: &ChainOrder<'_>,
    board: &mut Board<AllDevices>,
    events: &Events,
    out: &mut W,
) -> Result<ChainEnd, WantOfMemory>
    requires has { HasDispatcher order.now.dispatcher board.old.memory.rom }
    requires level { board.old.csrs.mil ≡ 0 }
    requires shape { events.now.shape ≡ board.old.outside.clic.shape }
    ensures end { IfOk result (λ end. IsTrue (is_whole end) → (end ≡ (ends_by order.now.direct order.now.dispatcher order.now.bound events.now board.old).end) × (board.new ≡ board_by order.now.direct order.now.dispatcher order.now.bound events.now board.old)) }
    ensures text { IfOk result (λ end. Writes (is_whole end) (W.told out.old) (W.told out.new) (text_by order.now.direct order.now.dispatcher order.now.trace order.now.bound events.now board.old)) }
    ensures services { IfOk result (λ end. HasItsServices order.now.direct order.now.dispatcher order.now.bound events.now board.old) }
    ensures state { IfOk result (λ end. HasItsState order.now.direct order.now.dispatcher order.now.bound events.now board.old) }
    ensures silent { IfErr result (λ want. W.told out.new ≡ W.told out.old) }
{
    if order.direct {
        let mut watch = DirectWatch::new(alloc)?;
        Ok(chain_direct(
            board,
            &mut watch,
            order.dispatcher,
            events,
            order.bound,
            order.trace,
            out,
        ))
    } else {
        let mut watch = Watch::new(alloc)?;
        Ok(chain(
            board,
            &mut watch,
            order.dispatcher,
            events,
            order.bound,
            order.trace,
            out,
        ))
    }
}
