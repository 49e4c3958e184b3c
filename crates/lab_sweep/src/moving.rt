// A scenario in which one event comes at another count.
ghost use Rattle.std.specs.Prelude.{◌≡◌, ◌<◌, ◌≤◌, length, remove, insert, IfOk};
ghost use Rattle.hart_board.specs.Event.{AreEventsFrom};
ghost use Rattle.hart_board.specs.declared.event.Event.{Event};
ghost use Rattle.lab_sweep.specs.Moved.{put_in, moved};

use clic_regs::Shape;
use hart_board::{Event, Events};
use hart_words::WantOfMemory;
use std::alloc::Global;

// All events but the one at a place.
fn others(alloc: Global, events: &Events, place: usize) -> Result<Vec<Event>, WantOfMemory>
    requires { place < length events.now.list }
    ensures { IfOk result (λ others. others.items ≡ remove events.now.list place) }
{
    let mut all = Vec::new(alloc);
    for k in 0..events.len() {
        all.push(events.get(k))?;
    }
    let _ = all.remove(place);
    Ok(all)
}

// Behind how many of the events one of this count comes.
fn place_for(others: &[Event], at: u64) -> usize
    ensures inside { result ≤ length others.now }
    ensures is { (e : Event) → e.at ≡ at → put_in e others.now ≡ insert others.now result e }
{
    for k in 0..others.len() {
        if others[k].at > at {
            return k;
        }
    }
    others.len()
}

// Events in their order.
fn in_order(alloc: Global, shape: Shape, list: &[Event]) -> Result<Events, WantOfMemory>
    requires { AreEventsFrom shape.inputs 0 list.now }
    ensures { IfOk result (λ events. events ≡ record { shape = shape; list = list.now }) }
{
    let mut events = Events::new(alloc, shape);
    for k in 0..list.len() {
        events.push(list[k])?;
    }
    Ok(events)
}

/// The scenario in which the event at a place, of which the first is 0, comes at another count.
#[tactic(auto, unfolding(crate::specs::Moved::moved))]
pub fn move_event(
    alloc: Global,
    events: &Events,
    place: usize,
    count: u64,
) -> Result<Events, WantOfMemory>
    requires { place < length events.now.list }
    ensures { IfOk result (λ es. es ≡ record { shape = events.now.shape; list = moved place count events.now.list }) }
{
    events.in_order();
    let event = Event {
        at: count,
        what: events.get(place).what,
    };
    let mut list = others(alloc, events, place)?;
    let at = place_for(&list, count);
    list.insert(at, event)?;
    in_order(alloc, events.shape(), &list)
}
