// The command that a line of a script spells.
ghost use Rattle.std.specs.Prelude.{◌≡◌, ◌<◌, false, length, IfSome};
ghost use Rattle.hart_words.specs.Cuts.{cut};
ghost use Rattle.hart_board.specs.Event.{is_free_input};
ghost use Rattle.board_inputs.specs.Opening.{is_passed};
ghost use Rattle.hart_monitor.specs.Spelling.{IsInRange};
ghost use Rattle.hart_monitor.specs.Lines.{alone_named, one_named, two_named, command_after, command_of};

use crate::command::Command;
use crate::numbers::number;
use device_model::MAX_LINES;
use hart_board::FIRST_DEVICE_INPUT;
use hart_words::cut_at;

// The greatest number of steps in a command.
const MAX_STEPS: u32 = 1_000_000;

// The greatest number of bytes in a command.
const MAX_BYTES: u32 = 256;

// The last input.
const LAST_INPUT: u32 = 63;

// A name alone.
#[tactic(auto, unfolding(crate::specs::Lines::alone_named))]
fn alone(name: &[u8]) -> Option<Command>
    ensures command { result ≡ alone_named name.now }
    ensures range { IfSome result (λ c. IsInRange c) }
{
    if name == b"regs".as_slice() {
        return Some(Command::Regs);
    }
    if name == b"csr".as_slice() {
        return Some(Command::Csr);
    }
    if name == b"back".as_slice() {
        return Some(Command::Back);
    }
    None
}

// A name with its number.
#[tactic(auto, unfolding(crate::specs::Lines::one_named))]
fn with_one(name: &[u8], text: &[u8]) -> Option<Command>
    ensures command { result ≡ one_named name.now text.now }
    ensures range { IfSome result (λ c. IsInRange c) }
{
    if name == b"step".as_slice() {
        return match number(text, 1, MAX_STEPS) {
            Some(n) => Some(Command::Step(n)),
            None => None,
        };
    }
    if name == b"run".as_slice() {
        return match number(text, 1, MAX_STEPS) {
            Some(n) => Some(Command::Run(n)),
            None => None,
        };
    }
    if name == b"break".as_slice() {
        return match number(text, 0, u32::MAX) {
            Some(at) => Some(Command::Break(at)),
            None => None,
        };
    }
    if name == b"clic".as_slice() {
        return match number(text, 0, LAST_INPUT) {
            Some(input) => Some(Command::Clic(input)),
            None => None,
        };
    }
    None
}

// Whether the input is no device's.
fn is_free_input(input: u32) -> bool
    ensures { result ≡ is_free_input input }
{
    input < FIRST_DEVICE_INPUT || FIRST_DEVICE_INPUT + MAX_LINES <= input
}

// A name with its two numbers.
#[tactic(auto, unfolding(crate::specs::Lines::two_named))]
fn with_two(name: &[u8], first: &[u8], second: &[u8]) -> Option<Command>
    ensures command { result ≡ two_named name.now first.now second.now }
    ensures range { IfSome result (λ c. IsInRange c) }
{
    if name == b"mem".as_slice() {
        return match (number(first, 0, u32::MAX), number(second, 1, MAX_BYTES)) {
            (Some(at), Some(count)) => Some(Command::Mem { at, count }),
            _ => None,
        };
    }
    if name == b"line".as_slice() {
        return match (number(first, 0, LAST_INPUT), number(second, 0, 1)) {
            (Some(input), Some(value)) => {
                if is_free_input(input) {
                    Some(Command::Line {
                        input,
                        high: value == 1,
                    })
                } else {
                    None
                }
            }
            _ => None,
        };
    }
    None
}

// What follows a name.
fn after_name(name: &[u8], numbers: &[u8]) -> Option<Command>
    ensures command { result ≡ command_after name.now (cut 32 numbers.now) }
    ensures range { IfSome result (λ c. IsInRange c) }
{
    match cut_at(numbers, b' ') {
        (first, None) => with_one(name, first),
        (first, Some(second)) => with_two(name, first, second),
    }
}

/// The command that a line spells.
#[tactic(auto, unfolding(crate::specs::Lines::command_of))]
pub(crate) fn command_in(line: &[u8]) -> Option<Command>
    ensures command { result ≡ command_of line.now }
    ensures range { IfSome result (λ c. IsInRange c) }
{
    match cut_at(line, b' ') {
        (name, None) => alone(name),
        (name, Some(numbers)) => after_name(name, numbers),
    }
}

/// An empty line and a comment are passed over.
pub(crate) fn is_passed(line: &[u8]) -> bool
    ensures passed { result ≡ is_passed line.now }
    ensures some { result ≡ false → 0 < length line.now }
{
    match line {
        [] => true,
        [first, ..] => *first == b'#',
    }
}
