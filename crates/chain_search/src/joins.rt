// What two flows say together. The search alone joins, and the check of what it finds needs nothing of it.

use chain_certify::{Flow, StackWord, Value, find, ranged};
use std::alloc::{AllocError, Global};

// The range of two ranges. Where it widens, an end that moved goes to the last word that way.
fn hull(new: Value, old: Value, widens: bool) -> Value {
    let mut least = new.low().min(old.low());
    let mut greatest = new.high().max(old.high());
    if widens && new.low() < old.low() {
        least = 0;
    }
    if widens && new.high() > old.high() {
        greatest = u32::MAX;
    }
    if least == 0 && greatest == u32::MAX {
        Value::Unknown
    } else {
        ranged(least, greatest)
    }
}

fn is_number(value: Value) -> bool {
    match value {
        Value::Const(_) | Value::Range(_, _) => true,
        Value::Entry(_) | Value::Stack(_) | Value::Unknown => false,
    }
}

// What both say, or more that is not known.
fn joined(new: Value, old: Value, widens: bool) -> Value {
    if new.is_below(old) {
        return old;
    }
    if old.is_below(new) {
        return new;
    }
    if is_number(new) && is_number(old) {
        hull(new, old, widens)
    } else {
        Value::Unknown
    }
}

fn is_constant(value: Value) -> bool {
    match value {
        Value::Const(_) => true,
        Value::Entry(_) | Value::Stack(_) | Value::Range(_, _) | Value::Unknown => false,
    }
}

/// Each register that is a number in one of both is the same in the other.
pub fn has_same_numbers(flow: &Flow, other: &Flow) -> bool {
    for r in 0..32 {
        let v = flow.value(r);
        let u = other.value(r);
        let same = v.is_below(u) && u.is_below(v);
        if !same && (is_constant(v) || is_constant(u)) {
            return false;
        }
    }
    true
}

fn joined_words(
    alloc: Global,
    new: &[StackWord],
    old: &[StackWord],
    widens: bool,
) -> Result<Vec<StackWord>, AllocError> {
    let mut words = Vec::new(alloc);
    for word in old {
        if let Some(value) = find(new, word.offset) {
            words.push(StackWord {
                offset: word.offset,
                value: joined(value, word.value, widens),
            })?;
        }
    }
    Ok(words)
}

/// What a new flow and an old one say together.
pub fn joined_flow(
    alloc: Global,
    new: &Flow,
    old: &Flow,
    widens: bool,
) -> Result<Flow, AllocError> {
    let mut flow = old.copy(alloc)?;
    for r in 0..32 {
        flow.set(r, joined(new.value(r), old.value(r), widens));
    }
    flow.set_words(joined_words(alloc, new.words(), old.words(), widens)?);
    Ok(flow)
}
