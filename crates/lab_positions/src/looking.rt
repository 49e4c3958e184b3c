// Looking for the latest reason to stop on the way to a place.
ghost use Rattle.std.specs.Prelude.{◌≡◌, ◌+◌, ◌^◌, ◌<◌, [], ◌∷◌, None, IfOk};
ghost use Rattle.lab_positions.specs.Position.{next};
ghost use Rattle.lab_positions.specs.Watching.{first_changed};
ghost use Rattle.lab_positions.specs.Places.{IsOnTime};
ghost use Rattle.lab_positions.specs.Forward.{first_of, watch_stop, stop_if};
ghost use Rattle.lab_positions.specs.declared.stop.Stop.TheVariants.{Break, Until};
ghost use Rattle.lab_positions.specs.Backward.{back_reason, latest};
ghost use Rattle.lab_positions.specs.Looking.{shown, newer, WatchIsSame};

use crate::found::Found;
use crate::going::{changed, is_break, is_until, watched};
use crate::place::Place;
use crate::sought::Sought;
use crate::stop::Stop;
use crate::timing::Timing;
use device_model::Device;
use hart_board::Events;
use hart_memory::Banks;
use hart_words::WantOfMemory;
use std::alloc::Global;

// The first reason to stop, in their order.
fn back_reason(changed: Option<u32>, is_break: bool, is_until: bool) -> Option<Stop>
    ensures { result ≡ first_of (watch_stop changed ∷ stop_if is_break Break ∷ stop_if is_until Until ∷ []) }
{
    if let Some(at) = changed {
        return Some(Stop::Watch(at));
    }
    if is_break {
        return Some(Stop::Break);
    }
    if is_until {
        return Some(Stop::Until);
    }
    None
}

// The first reason to stop at a place, which makes its next step. `before` has the bytes that are
// watched as they stand before it.
fn look_once<D: Device>(
    place: &mut Place<D>,
    events: &Events,
    timing: Timing,
    sought: &Sought,
    before: &Banks,
) -> Option<Stop>
    requires room { place.old.position.steps + 1 < 2 ^ 64 }
    requires time { IsOnTime D.means events.now place.old }
    requires same { first_changed before.now.present place.old.position.stand.board.memory sought.now.watches ≡ None }
    ensures reason { result ≡ back_reason sought.now place.old.position place.new.position.stand.board.memory }
    ensures position { place.new.position ≡ next D.means timing events.now.list place.old.position }
    ensures time { IsOnTime D.means events.now place.new }
    ensures same { WatchIsSame sought.now before.now.present place.new.position.stand.board.memory result }
{
    let here = is_break(place, sought);
    let until = is_until(place, sought);
    let _ = place.step(events, timing);
    let other = changed(place, sought, before);
    back_reason(other, here, until)
}

// The bytes that are watched, as they stand at a place to which a step led: others only where a watch
// changed.
fn refreshed<D: Device>(
    alloc: Global,
    before: Banks,
    place: &Place<D>,
    sought: &Sought,
    why: Option<Stop>,
) -> Result<Banks, WantOfMemory>
    requires { WatchIsSame sought.now before.present place.now.position.stand.board.memory why }
    ensures { IfOk result (λ banks. first_changed banks.present place.now.position.stand.board.memory sought.now.watches ≡ None) }
{
    match why {
        Some(Stop::Watch(_)) => watched(alloc, place, sought),
        _ => Ok(before),
    }
}

// What was found, with a reason that was found later.
fn newer(found: Option<Found>, why: Option<Stop>, steps: u64) -> Option<Found>
    ensures { result ≡ newer why steps found }
{
    match why {
        Some(why) => Some(Found { why, steps }),
        None => found,
    }
}

/// The latest of so many places from this one on at which a reason to stop holds.
pub(crate) fn look<D: Device>(
    alloc: Global,
    place: &mut Place<D>,
    events: &Events,
    timing: Timing,
    sought: &Sought,
    count: u64,
) -> Result<Option<Found>, WantOfMemory>
    requires room { place.old.position.steps + count < 2 ^ 64 }
    requires time { IsOnTime D.means events.now place.old }
    ensures { IfOk result (λ found. found ≡ shown (latest D.means timing events.now.list sought.now count place.old.position)) }
{
    let mut before = watched(alloc, place, sought)?;
    let mut found = None;
    for _ in 0..count {
        let steps = place.steps();
        let why = look_once(place, events, timing, sought, &before);
        let fresh = refreshed(alloc, before, place, sought, why)?;
        before = fresh;
        found = newer(found, why, steps);
    }
    Ok(found)
}
