ghost use Rattle.std.specs.Prelude.{◌≡◌, ◌<◌};

use super::*;
use clic_regs::{Clic, Shape};
use std::alloc::Global;
use std::marker::Brand;
use std::sync::ledger::{Blank, Ledger};
use std::test::Fail;

// Attributes: an input that a rising edge triggers, and that with its own vector.
const EDGE: u8 = 2;

const VECTORED_EDGE: u8 = 3;

// Makes an input pending and enabled by a rising edge, with a control byte.
fn raise(selector: &mut Selector, input: u32, attribute: u8, control: u8) -> bool {
    if input >= selector.shape().inputs() {
        return false;
    }
    let at = 0x1000 + 4 * input;
    let set = selector.write(at + 1, 1)
        && selector.write(at + 2, attribute)
        && selector.write(at + 3, control);
    selector.set_line(input, true);
    set
}

// Ties go to the greatest number, and a claim of the top leaves the next.
#[test]
fn tops(rt: HostRuntime) -> Result<(), Fail> {
    let mut selector = Selector::new(rt.alloc(), Shape::plain())?;
    assert_eq!(rt; selector.top(), None);
    assert!(rt; selector.write(0, 0x02));
    assert!(rt; raise(&mut selector, 5, VECTORED_EDGE, 0x40));
    assert!(rt; raise(&mut selector, 3, VECTORED_EDGE, 0x40));
    let five = Choice {
        id: 5,
        level: 127,
        priority: 0x40,
        shv: true,
    };
    assert_eq!(rt; selector.top(), Some(five));
    assert!(rt; raise(&mut selector, 2, EDGE, 0x41));
    let two = Choice {
        id: 2,
        priority: 0x41,
        shv: false,
        ..five
    };
    assert_eq!(rt; selector.top(), Some(two));
    claim(&mut selector, 2);
    assert_eq!(rt; selector.top(), Some(five));
    let copy = selector.copy(rt.alloc())?;
    claim(&mut selector, 5);
    assert_eq!(rt; selector.top(), Some(Choice { id: 3, ..five }));
    claim(&mut selector, 3);
    assert_eq!(rt; selector.top(), None);
    assert_eq!(rt; copy.top(), Some(five));
    Ok(())
}

fn claim(selector: &mut Selector, input: u32) {
    if input < selector.shape().inputs() {
        selector.claim_clear(input);
    }
}

fn claim_counted<L: Ledger>(selector: &mut Selector, i: u32, blank: Blank)
    requires name { blank.name ≡ L.name }
    requires parts { blank.parts ≡ L.parts }
    requires some { 0 < L.parts }
{
    let mut steps = Steps::<L>::new(blank);
    if i < selector.shape().inputs() {
        selector.claim_clear_counted(i, &mut steps);
    }
}

// Of two inputs with equal control bytes the one with the greater number is the top.
#[test]
fn the_last_of_equal_inputs(rt: HostRuntime) -> Result<(), Fail> {
    let mut selector = Selector::new(rt.alloc(), Shape::new(1024, 8))?;
    assert!(rt; raise(&mut selector, 3, EDGE, 0x40) && raise(&mut selector, 1000, EDGE, 0x40));
    assert_eq!(rt; selector.top().map(|top| top.id), Some(1000));
    assert_eq!(rt; selector.clic().read(0x2000), None);
    claim_counted::<Brand>(&mut selector, 1000, Blank::new(1));
    assert_eq!(rt; selector.top().map(|top| top.id), Some(3));
    Ok(())
}

// The greatest of all inputs that are pending and enabled, by a look at each.
fn found(clic: &Clic) -> Option<Choice> {
    let mut best: Option<Choice> = None;
    for id in 0..clic.shape().inputs() {
        if clic.pending(id) && clic.enabled(id) {
            let choice = Choice::of(clic, id);
            best = match best {
                Some(best) if best.is_greater(choice) => Some(best),
                _ => Some(choice),
            };
        }
    }
    best
}

// A change that a number says: a line, a claim, or a write to the controller.
fn change(selector: &mut Selector, number: u32) {
    let inputs = selector.shape().inputs();
    let input = number / 8 % inputs;
    match number % 8 {
        0 => selector.claim_clear(input),
        1 | 2 => selector.set_line(input, number / 512 % 2 == 1),
        3 => {
            let _ = selector.write(0, (number / 512 % 20) as u8);
        }
        _ => {
            let _ = selector.write(
                0x1000 + number / 8 % (4 * inputs),
                (number / 2048 % 256) as u8,
            );
        }
    }
}

// Whether the top is the greatest after each of many changes.
fn is_found(alloc: Global, shape: Shape) -> Result<bool, Fail> {
    let mut selector = Selector::new(alloc, shape)?;
    let mut number = 1u32;
    for _ in 0..4_000 {
        number = number.wrapping_mul(1_664_525).wrapping_add(1_013_904_223);
        change(&mut selector, number / 256);
        if selector.top() != found(selector.clic()) {
            return Ok(false);
        }
    }
    Ok(true)
}

#[test]
fn what_is_kept_is_what_is_found(rt: HostRuntime) -> Result<(), Fail> {
    for (inputs, bits) in [
        (24, 8),
        (25, 3),
        (63, 8),
        (64, 8),
        (65, 0),
        (1023, 8),
        (1024, 5),
    ] {
        let shape = Shape::of(inputs, bits).unwrap_or(Shape::plain());
        assert_eq!(rt; shape.inputs(), inputs);
        assert!(rt; is_found(rt.alloc(), shape)?, "with {inputs}");
    }
    Ok(())
}
