// Reads the commands of `monitor`.
ghost use Rattle.std.specs.Prelude.{◌≡◌};
ghost use Rattle.hart_words.specs.Cuts.{cut};
ghost use Rattle.lab_packets.specs.Commands.{alone_named, outside_named, until_named, one_named, two_named, command_after, command_of};

use crate::command::Command;
use crate::numbers::{written_in, written_number};
use hart_words::cut_at;

/// The greatest bound of a continue.
const MOST_BOUND: u32 = 1_000_000_000;

// A name alone.
#[tactic(auto, unfolding(crate::specs::Commands::alone_named))]
fn alone(name: &[u8]) -> Command
    ensures { result ≡ alone_named name.now }
{
    if name == b"help".as_slice() {
        Command::Help
    } else if name == b"steps".as_slice() {
        Command::Steps
    } else {
        Command::NoSuch
    }
}

// A change of what stands outside.
fn outside(name: &[u8], text: &[u8]) -> Command
    ensures { result ≡ outside_named name.now text.now }
{
    if name == b"rx".as_slice() {
        return match written_in(0, 255, text) {
            Some(byte) => Command::Receive(byte as u8),
            None => Command::NoSuch,
        };
    }
    if name == b"pins".as_slice() {
        return match written_number(text) {
            Some(pins) => Command::Pins(pins),
            None => Command::NoSuch,
        };
    }
    if name == b"tick".as_slice() {
        return match written_in(1, 65_535, text) {
            Some(count) => Command::Tick(count),
            None => Command::NoSuch,
        };
    }
    Command::NoSuch
}

// Where a continue stops.
fn until(text: &[u8]) -> Command
    ensures { result ≡ until_named text.now }
{
    if text == b"off".as_slice() {
        return Command::UntilOff;
    }
    match written_number(text) {
        Some(count) => Command::Until(count),
        None => Command::NoSuch,
    }
}

// A name with its number.
#[tactic(auto, unfolding(crate::specs::Commands::one_named))]
fn with_one(name: &[u8], text: &[u8]) -> Command
    ensures { result ≡ one_named name.now text.now }
{
    if name == b"bound".as_slice() {
        return match written_in(1, MOST_BOUND, text) {
            Some(count) => Command::Bound(count),
            None => Command::NoSuch,
        };
    }
    if name == b"until".as_slice() {
        return until(text);
    }
    if name == b"until-body".as_slice() {
        return match written_number(text) {
            Some(count) => Command::UntilBody(count),
            None => Command::NoSuch,
        };
    }
    if name == b"clic".as_slice() {
        return match written_number(text) {
            Some(input) => Command::Clic(input),
            None => Command::NoSuch,
        };
    }
    outside(name, text)
}

// A name with its two numbers.
#[tactic(auto, unfolding(crate::specs::Commands::two_named))]
fn with_two(name: &[u8], first: &[u8], second: &[u8]) -> Command
    ensures { result ≡ two_named name.now first.now second.now }
{
    if name != b"line".as_slice() {
        return Command::NoSuch;
    }
    match (written_number(first), written_in(0, 1, second)) {
        (Some(input), Some(value)) => Command::Line {
            input,
            high: value == 1,
        },
        _ => Command::NoSuch,
    }
}

// What follows a name.
fn after_name(name: &[u8], numbers: &[u8]) -> Command
    ensures { result ≡ command_after name.now (cut 32 numbers.now) }
{
    match cut_at(numbers, b' ') {
        (first, None) => with_one(name, first),
        (first, Some(second)) => with_two(name, first, second),
    }
}

/// The command that a text spells.
#[tactic(auto, unfolding(crate::specs::Commands::command_of))]
pub fn command_of(text: &[u8]) -> Command
    ensures { result ≡ command_of text.now }
{
    match cut_at(text, b' ') {
        (name, None) => alone(name),
        (name, Some(numbers)) => after_name(name, numbers),
    }
}
