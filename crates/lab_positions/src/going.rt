// Going forward from a place, and looking for the latest reason on the way back to one.
ghost use Rattle.std.specs.Prelude.{◌≡◌, ◌+◌, ◌^◌, ◌<◌, ℕ, Some, None, IfOk};
ghost use Rattle.std.specs.List.{All};
ghost use Rattle.hart_memory.specs.Memory.{Memory};
ghost use Rattle.lab_positions.specs.Position.{Position, next, after};
ghost use Rattle.lab_positions.specs.Sought.{is_break, is_until};
ghost use Rattle.lab_positions.specs.Watching.{first_changed};
ghost use Rattle.lab_positions.specs.Forward.{room, reason, forward_in};
ghost use Rattle.lab_positions.specs.Places.{IsOnTime, IsReached};

use crate::least::least;
use crate::place::Place;
use crate::rungs::pass_rung;
use crate::sought::Sought;
use crate::stop::Stop;
use crate::timing::Timing;
use crate::watch::first_changed;
use device_model::Device;
use hart_board::Events;
use hart_memory::Banks;
use hart_report::Stepped;
use hart_words::WantOfMemory;
use std::alloc::Global;

/// The bytes that are watched, as they stand at a place.
pub(crate) fn watched<D: Device>(
    alloc: Global,
    place: &Place<D>,
    sought: &Sought,
) -> Result<Banks, WantOfMemory>
    ensures { IfOk result (λ banks. first_changed banks.present place.now.position.stand.board.memory sought.now.watches ≡ None) }
{
    let banks = place.memory(alloc)?;
    Ok(banks)
}

/// The address of the first watch of which a byte is another at a place.
#[inline(always)]
pub(crate) fn changed<D: Device>(place: &Place<D>, sought: &Sought, before: &Banks) -> Option<u32>
    ensures { result ≡ first_changed before.now.present place.now.position.stand.board.memory sought.now.watches }
{
    first_changed(sought.watches(), before, place.board().banks())
}

/// Whether a breakpoint stands at pc.
#[inline(always)]
pub(crate) fn is_break<D: Device>(place: &Place<D>, sought: &Sought) -> bool
    ensures { result ≡ is_break place.now.position.stand.board.pc sought.now.breaks }
{
    sought.is_break(place.board().pc())
}

/// Whether the place is the one that is asked for.
#[inline(always)]
pub(crate) fn is_until<D: Device>(place: &Place<D>, sought: &Sought) -> bool
    ensures { result ≡ is_until sought.now.until place.now.position }
{
    place.is_until(sought.until())
}

/// So many steps, but for those for which there is no number.
pub(crate) fn room<D: Device>(place: &Place<D>, most: u64) -> u64
    ensures exact { result ≡ room most place.now.position }
    ensures fits { place.now.position.steps + result < 2 ^ 64 }
{
    least(most, u64::MAX - place.steps())
}

// The first reason to stop behind a step, by the memory before it.
#[inline(always)]
#[tactic(auto, unfolding(crate::specs::Forward::reason))]
fn reason<D: Device>(
    place: &Place<D>,
    sought: &Sought,
    before: &Banks,
    told: &Stepped,
) -> Option<Stop>
    ensures { result ≡ reason D.means sought.now before.now.present told.now place.now.position }
{
    if let Some(code) = place.halted() {
        return Some(Stop::Halt(code));
    }
    if let Some(at) = changed(place, sought, before) {
        return Some(Stop::Watch(at));
    }
    if is_break(place, sought) {
        return Some(Stop::Break);
    }
    if let Stepped::Raised { pc, code } = *told {
        return Some(Stop::Exception { pc, code });
    }
    if is_until(place, sought) {
        return Some(Stop::Until);
    }
    None
}

/// Makes at most so many steps, up to the first behind which a reason to stop holds. `before` has the
/// bytes that are watched as they stand.
pub(crate) fn go_forward<D: Device>(
    alloc: Global,
    place: &mut Place<D>,
    rungs: &mut Vec<Place<D>>,
    events: &Events,
    timing: Timing,
    sought: &Sought,
    before: &Banks,
    most: u64,
) -> Stop
    requires room { place.old.position.steps + most < 2 ^ 64 }
    requires time { IsOnTime D.means events.now place.old }
    requires same { first_changed before.now.present place.old.position.stand.board.memory sought.now.watches ≡ None }
    ensures stop { record { why = result; at = place.new.position } ≡ forward_in D.means timing events.now.list sought.now most place.old.position }
    ensures reached { (base : Position) → IsReached D.means timing events.now base place.old → IsReached D.means timing events.now base place.new }
    ensures rungs { (base : Position) → IsReached D.means timing events.now base place.old → All (IsReached D.means timing events.now base) rungs.old.items → All (IsReached D.means timing events.now base) rungs.new.items }
{
    for _ in 0..most {
        let told = place.step(events, timing);
        if let Stepped::VectorFault(input) = told {
            return Stop::Vector(input);
        }
        if let Some(why) = reason(place, sought, before, &told) {
            return why;
        }
        pass_rung(alloc, place, rungs);
    }
    Stop::Bound
}

/// Makes so many steps, whatever they are.
pub(crate) fn go<D: Device>(place: &mut Place<D>, events: &Events, timing: Timing, count: u64)
    requires room { place.old.position.steps + count < 2 ^ 64 }
    requires time { IsOnTime D.means events.now place.old }
    ensures position { place.new.position ≡ after D.means timing events.now.list place.old.position count }
    ensures reached { (base : Position) → IsReached D.means timing events.now base place.old → IsReached D.means timing events.now base place.new }
{
    for _ in 0..count {
        let _ = place.step(events, timing);
    }
}
