// A chain of a board with any devices.
ghost use Rattle.std.specs.Prelude.{◌≡◌};
ghost use Rattle.tool_frame.specs.Code.{OfCommand, origin_of};
ghost use Rattle.tool_frame.specs.Answers.{EndsOrWants};
ghost use Rattle.template_tool.specs.Work.{chain_due, IsServed};

use board_outside::Sink;
use chain_core::chain;
use chain_moves::{Dispatcher, Watch, install};
use device_model::Device;
use hart_board::{Board, Events};
use std::alloc::Global;
use tool_frame::Status;
use tool_work::status_of_end;

/// Runs the board with the events under the dispatcher, at most so many steps.
pub fn chain_board<D: Device, W: Sink>(
    alloc: Global,
    board: &mut Board<D>,
    under: Dispatcher,
    events: &Events,
    bound: u64,
    out: &mut W,
) -> Status
    requires level { board.old.csrs.mil ≡ 0 }
    requires shape { events.now.shape ≡ board.old.outside.clic.shape }
    ensures ends { EndsOrWants result (W.told out.old) (W.told out.new) (chain_due D.means under events.now bound board.old) }
    ensures served { origin_of result ≡ OfCommand → IsServed D.means under events.now bound board.old }
{
    let Ok(mut watch) = Watch::new(alloc) else {
        return Status::Memory;
    };
    install(board, under);
    let end = chain(board, &mut watch, under, events, bound, false, out);
    status_of_end(&end)
}
