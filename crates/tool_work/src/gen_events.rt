// The events that `gen` makes.
ghost use Rattle.std.specs.Prelude.{◌≡◌, ◌+◌, ◌*◌, ◌^◌, ◌<◌, ◌≤◌, ◌++◌, IfOk, OnOk};
ghost use Rattle.clic_regs.specs.Shape.{plain_shape};
ghost use Rattle.hart_board.specs.Event.{last_count};
ghost use Rattle.hart_board.specs.declared.outside.TheConstants.{FIRST_DEVICE_INPUT};
ghost use Rattle.tool_work.specs.GenEvents.{next_number, pulse_input, pulse, gen_events};

use clic_regs::Shape;
use hart_board::{Event, Events, What};
use hart_words::WantOfMemory;
use std::alloc::Global;

// The number that follows another.
fn next_number(x: u64) -> u64
    requires { x < 2 ^ 32 }
    ensures value { result ≡ next_number x }
    ensures word { result < 2 ^ 32 }
{
    (1_664_525 * x + 1_013_904_223) % (1 << 32)
}

// The line of a pulse with this number.
fn pulse_input(x: u64) -> u32
    ensures value { result ≡ pulse_input x }
    ensures free { result < FIRST_DEVICE_INPUT }
{
    match (x >> 16) % 5 {
        0 => 3,
        1 => 5,
        2 => 7,
        3 => 9,
        _ => 11,
    }
}

// Adds pulse e, whose number is x.
fn push_pulse(events: &mut Events, e: u64, x: u64) -> Result<(), WantOfMemory>
    requires few { e < 2 ^ 32 }
    requires shape { events.old.shape ≡ plain_shape }
    requires order { last_count 0 events.old.list ≤ 30 + 8 * e }
    ensures pushed { OnOk result (events.new ≡ record events.old { list = events.old.list ++ pulse e x }) }
    ensures order { OnOk result (last_count 0 events.new.list ≤ 30 + 8 * (e + 1)) }
{
    let at = 30 + 8 * e + (x >> 24) % 8;
    let input = pulse_input(x);
    let rises = What::Line { input, high: true };
    let falls = What::Line { input, high: false };
    events.push(Event { at, what: rises })?;
    events.push(Event { at, what: falls })?;
    Ok(())
}

/// The events that are made of a number, for boards of the plain shape.
#[tactic(auto, unfolding(crate::specs::GenEvents::gen_events))]
pub fn generated_events(alloc: Global, number: u16) -> Result<Events, WantOfMemory>
    ensures { IfOk result (λ events. events ≡ gen_events number) }
{
    let mut events = Events::new(alloc, Shape::plain());
    let mut x = u64::from(number);
    for e in 0..u64::from(number) {
        x = next_number(x);
        push_pulse(&mut events, e, x)?;
    }
    Ok(events)
}
