// The chains of one image and its events, under both dispatchers.
ghost use Rattle.std.specs.Prelude.{◌≡◌, Bool};
ghost use Rattle.hart_memory.specs.Image.{ImageView};
ghost use Rattle.chain_moves.specs.Words.{HasDispatcher};
ghost use Rattle.tool_work.specs.Chain.{chain_board, DoAgree};

use board_devices::AllDevices;
use chain_core::can_start;
use chain_core::laws::both_dispatchers_agree;
use chain_direct::laws::both_dispatchers_agree as direct_chains_agree;
use chain_moves::Dispatcher;
use hart_board::{Board, Events};

/// Where a chain can start from this board, the chains of its image and its events agree under both
/// dispatchers, with direct services or without. It takes no time.
#[tactic(auto, unfolding(crate::specs::Shipped::shipped_meanings))]
pub(crate) fn chains_agree(board: &Board<AllDevices>, dispatcher: Dispatcher, events: &Events)
    requires has { HasDispatcher dispatcher board.now.memory.rom }
    requires level { board.now.csrs.mil ≡ 0 }
    requires shape { events.now.shape ≡ board.now.outside.clic.shape }
    ensures { (image : ImageView) (directs : Bool) → board.now ≡ chain_board dispatcher image events.now → DoAgree directs image events.now }
{
    can_start(board, dispatcher, events);
    both_dispatchers_agree::<AllDevices>();
    direct_chains_agree::<AllDevices>();
}
