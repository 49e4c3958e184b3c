// What the static checker's answers on an image mean for its chains.
ghost use Rattle.std.specs.Prelude.{◌≡◌, Bool};
ghost use Rattle.hart_memory.specs.Image.{ImageView};
ghost use Rattle.chain_moves.specs.Words.{HasDispatcher};
ghost use Rattle.tool_work.specs.Chain.{chain_board};
ghost use Rattle.tool_work.specs.Checked.{IsCheckedBy};

use board_devices::AllDevices;
use chain_core::can_start;
use chain_lint::laws::{a_yes_is_sound, the_bound_is_sound, what_is_listed_is_safe};
use chain_moves::Dispatcher;
use hart_board::{Board, Events};

/// Where a chain without direct services can start from this board, what `lint` and `bound` say of its image
/// holds of it. It takes no time.
#[tactic(auto, unfolding(crate::specs::Shipped::shipped_meanings))]
pub(crate) fn answers_hold(board: &Board<AllDevices>, dispatcher: Dispatcher, events: &Events)
    requires has { HasDispatcher dispatcher board.now.memory.rom }
    requires level { board.now.csrs.mil ≡ 0 }
    requires shape { events.now.shape ≡ board.now.outside.clic.shape }
    ensures { (image : ImageView) (directs : Bool) → board.now ≡ chain_board dispatcher image events.now → IsCheckedBy directs dispatcher image events.now }
{
    can_start(board, dispatcher, events);
    a_yes_is_sound::<AllDevices>();
    the_bound_is_sound::<AllDevices>();
    what_is_listed_is_safe::<AllDevices>();
}
