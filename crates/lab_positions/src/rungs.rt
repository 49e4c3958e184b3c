// Places that are kept on the way.
ghost use Rattle.std.specs.Prelude.{◌≡◌, ◌<◌, ◌≤◌, [], length, slice_get, Some, IfSome, IfOk};
ghost use Rattle.std.specs.List.{All};
ghost use Rattle.hart_board.specs.Event.{EventList};
ghost use Rattle.lab_positions.specs.Position.{Position};
ghost use Rattle.lab_positions.specs.Places.{PlaceState, IsReached};
ghost use Rattle.lab_positions.specs.declared.timing.Timing.{Timing};

use crate::place::Place;
use device_model::Device;
use hart_words::WantOfMemory;
use std::alloc::Global;

// How many steps lie between places that are kept.
const RUNG: u64 = 65_536;

// How many places are kept.
const MAX_RUNGS: usize = 16;

// Puts a place where an earlier one stands, or at the end.
fn put_rung<D: Device>(rungs: &mut Vec<Place<D>>, slot: usize, place: Place<D>)
    ensures { (timing : Timing) (events : EventList) (base : Position) → IsReached D.means timing events base place → All (IsReached D.means timing events base) rungs.old.items → All (IsReached D.means timing events base) rungs.new.items }
{
    if slot < rungs.len() {
        rungs[slot] = place;
    } else if rungs.len() < MAX_RUNGS {
        match rungs.push(place) {
            Ok(()) => {}
            Err(_) => {}
        }
    }
}

/// None is kept.
pub(crate) fn no_rungs<D: Device>(alloc: Global) -> Vec<Place<D>>
    ensures { result.items ≡ [] }
{
    Vec::new(alloc)
}

// Keeps a place, where there is memory for it. The place takes the room of an earlier one, so that the
// distances between those that stay double on the way back to the base.
#[inline(never)]
fn keep_rung<D: Device>(alloc: Global, place: &Place<D>, rungs: &mut Vec<Place<D>>)
    ensures { (timing : Timing) (events : EventList) (base : Position) → IsReached D.means timing events base place.now → All (IsReached D.means timing events base) rungs.old.items → All (IsReached D.means timing events base) rungs.new.items }
{
    let slot = (place.steps() / RUNG).trailing_zeros() as usize;
    match place.copy(alloc) {
        Ok(copy) => put_rung(rungs, slot, copy),
        Err(_) => {}
    }
}

/// Keeps a place at each so many steps.
#[inline(always)]
pub(crate) fn pass_rung<D: Device>(alloc: Global, place: &Place<D>, rungs: &mut Vec<Place<D>>)
    ensures { (timing : Timing) (events : EventList) (base : Position) → IsReached D.means timing events base place.now → All (IsReached D.means timing events base) rungs.old.items → All (IsReached D.means timing events base) rungs.new.items }
{
    if place.steps() % RUNG == 0 {
        keep_rung(alloc, place, rungs);
    }
}

// The latest of the places that were kept, up to this many steps.
fn latest_rung<D: Device>(rungs: &Vec<Place<D>>, steps: u64) -> Option<usize>
    ensures { IfSome result (λ i. (i < length rungs.now.items) × ((p : PlaceState) → slice_get rungs.now.items i ≡ Some p → p.position.steps ≤ steps)) }
{
    let mut best = None;
    let mut most = 0;
    for i in 0..rungs.len() {
        let here = rungs[i].steps();
        if here <= steps && most <= here {
            best = Some(i);
            most = here;
        }
    }
    best
}

/// A copy of the latest place up to this many steps that was kept, or of the base.
pub(crate) fn nearest<D: Device>(
    alloc: Global,
    base: &Place<D>,
    rungs: &Vec<Place<D>>,
    steps: u64,
) -> Result<Place<D>, WantOfMemory>
    requires { base.now.position.steps ≤ steps }
    ensures before { IfOk result (λ place. place.position.steps ≤ steps) }
    ensures reached { IfOk result (λ place. (timing : Timing) (events : EventList) (from : Position) → IsReached D.means timing events from base.now → All (IsReached D.means timing events from) rungs.now.items → IsReached D.means timing events from place) }
{
    match latest_rung(rungs, steps) {
        Some(i) => rungs[i].copy(alloc),
        None => base.copy(alloc),
    }
}
