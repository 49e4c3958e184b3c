// What a line of a scenario says.
ghost use Rattle.std.specs.Prelude.{◌≡◌, ◌≢◌, ◌<◌, ◌≤◌, length, true, IsTrue, IfSome};
ghost use Rattle.hart_board.specs.Event.{is_free};
ghost use Rattle.hart_words.specs.Cuts.{cut};
ghost use Rattle.board_inputs.specs.Opening.{is_passed};
ghost use Rattle.board_inputs.specs.Spelling.{is_open};
ghost use Rattle.board_inputs.specs.Lines.{IfTold, stimulus_named, line_named, what_of, event_of, meaning_of};
ghost use Rattle.board_inputs.specs.declared.line_meaning.LineMeaning.TheVariants.{Passed};

use crate::line_meaning::LineMeaning;
use crate::numbers::number;
use device_model::{MAX_LINES, Stimulus};
use hart_board::{Event, FIRST_DEVICE_INPUT, What};
use hart_words::cut_at;

/// The greatest count.
const MAX_COUNT: u32 = 1_000_000_000;

/// The greatest number of ticks in a line.
const MAX_TICKS: u32 = 65_535;

// What comes to the device, by its name and its number.
#[tactic(auto, unfolding(crate::specs::Lines::stimulus_named))]
fn stimulus(name: &[u8], text: &[u8]) -> Option<Stimulus>
    ensures { result ≡ stimulus_named name.now text.now }
{
    if name == b"rx".as_slice() {
        return match number(text, 255) {
            Some(n) => Some(Stimulus::Receive(n as u8)),
            None => None,
        };
    }
    if name == b"pins".as_slice() {
        return match number(text, u32::MAX) {
            Some(n) => Some(Stimulus::Pins(n)),
            None => None,
        };
    }
    if name == b"tick".as_slice() {
        return match number(text, MAX_TICKS) {
            Some(n) => if n == 0 {
                None
            } else {
                Some(Stimulus::Tick(n))
            },
            None => None,
        };
    }
    None
}

// Whether the input is below the bound and no device's.
fn is_open(input: u32, inputs: u32) -> bool
    ensures { result ≡ is_open inputs input }
{
    input < inputs && (input < FIRST_DEVICE_INPUT || input >= FIRST_DEVICE_INPUT + MAX_LINES)
}

// A change of an input's line, by its name and its two numbers.
#[tactic(auto, unfolding(crate::specs::Lines::line_named))]
fn line_change(name: &[u8], first: &[u8], second: &[u8], inputs: u32) -> Option<What>
    ensures what { result ≡ line_named inputs name.now first.now second.now }
    ensures free { IfSome result (λ w. IsTrue (is_free inputs w)) }
{
    if name != b"line".as_slice() {
        return None;
    }
    match (number(first, inputs), number(second, 1)) {
        (Some(input), Some(value)) => {
            if is_open(input, inputs) {
                Some(What::Line {
                    input,
                    high: value == 1,
                })
            } else {
                None
            }
        }
        _ => None,
    }
}

// What follows an event's count.
fn what_in(text: &[u8], inputs: u32) -> Option<What>
    ensures what { result ≡ what_of inputs (cut 32 text.now) }
    ensures free { IfSome result (λ w. IsTrue (is_free inputs w)) }
{
    match cut_at(text, b' ') {
        (_, None) => None,
        (name, Some(numbers)) => match cut_at(numbers, b' ') {
            (first, None) => match stimulus(name, first) {
                Some(s) => Some(What::Device(s)),
                None => None,
            },
            (first, Some(second)) => line_change(name, first, second, inputs),
        },
    }
}

#[tactic(auto, unfolding(crate::specs::Lines::event_of))]
fn event_in(line: &[u8], inputs: u32) -> Option<Event>
    ensures event { result ≡ event_of inputs line.now }
    ensures free { IfSome result (λ e. IsTrue (is_free inputs e.what)) }
{
    match cut_at(line, b' ') {
        (_, None) => None,
        (count, Some(rest)) => match (number(count, MAX_COUNT), what_in(rest, inputs)) {
            (Some(at), Some(what)) => Some(Event {
                at: u64::from(at),
                what,
            }),
            _ => None,
        },
    }
}

// An empty line and a comment are passed over.
pub(crate) fn is_passed(line: &[u8]) -> bool
    ensures { result ≡ is_passed line.now }
{
    match line {
        [] => true,
        [first, ..] => *first == b'#',
    }
}

// What a line says, where inputs have numbers below a bound.
#[tactic(auto, unfolding(crate::specs::Lines::meaning_of))]
pub(crate) fn line_meaning(line: &[u8], inputs: u32) -> LineMeaning
    ensures meaning { result ≡ meaning_of inputs line.now }
    ensures free { IfTold result (λ e. IsTrue (is_free inputs e.what)) }
    ensures some { result ≢ Passed → 0 < length line.now }
{
    if is_passed(line) {
        return LineMeaning::Passed;
    }
    match event_in(line, inputs) {
        Some(event) => LineMeaning::Told(event),
        None => LineMeaning::Bad,
    }
}
