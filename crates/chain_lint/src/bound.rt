// The bound of the stack that handlers use together.
ghost use Rattle.std.specs.Prelude.{◌≡◌, ◌≤◌, ◌<◌, ◌*◌};
ghost use Rattle.std.specs.List.{All};
ghost use Rattle.chain_moves.specs.Slot.{frame_size};
ghost use Rattle.chain_lint.specs.Bound.{IsUse, level_cost as level_cost_of, bound};

use crate::uses::Use;
use chain_moves::slot::FRAME_SIZE;

// A frame with the greatest uses at a level, or 0 where the list has no such level.
#[tactic(auto, unfolding(crate::specs::Bound::level_cost), using(crate::proofs::Loops::cost_small))]
fn level_cost(list: &[Use], level: u32) -> u32
    requires { All IsUse list.now }
    ensures cost { result ≡ level_cost_of list.now level }
    ensures small { result ≤ 4128 }
{
    let mut cost = 0;
    for used in list {
        if u32::from(used.level) == level {
            cost = cost.max(FRAME_SIZE + used.uses);
        }
    }
    cost
}

/// How far the stack can grow below the pointer of an Enter from the foreground, where handlers with
/// these uses are entered at these levels: the sum, over the different levels, of a frame and the
/// greatest uses.
#[tactic(auto, unfolding(crate::specs::Bound::bound, crate::specs::Bound::bound_below))]
pub fn stack_bound(list: &[Use]) -> u32
    requires { All IsUse list.now }
    ensures sum { result ≡ bound list.now }
    ensures small { result ≤ 255 * 4128 }
{
    let mut sum = 0;
    for level in 0..256 {
        sum += level_cost(list, level);
    }
    sum
}
