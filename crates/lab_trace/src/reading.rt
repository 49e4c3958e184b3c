// Reads the lines of a trace.
ghost use Rattle.std.specs.Prelude.{◌≡◌, ◌≤◌, ◌<◌, ◌^◌, length};
ghost use Rattle.asm_text.specs.Numbers.{digits_after};
ghost use Rattle.lab_trace.specs.Named.{begins_with, address_in, bits_in, word_told, half_told, entry_told, address_of, told_by};

use crate::trace_line::TraceLine;

fn begins_with(line: &[u8], letter: u8) -> bool
    ensures { result ≡ begins_with letter line.now }
{
    match line {
        [a, b, ..] => *a == letter && *b == b' ',
        _ => false,
    }
}

// The number of eight hexadecimal digits.
fn number_of(digits: &[u8]) -> Option<u32>
    requires { length digits.now ≡ 8 }
    ensures { result ≡ digits_after 16 0 digits.now }
{
    let mut value = 0u64;
    for byte in digits {
        let Some(digit) = char::from(*byte).to_digit(16) else {
            return None;
        };
        value = value * 16 + u64::from(digit);
    }
    Some(value as u32)
}

// The number of four hexadecimal digits.
fn half_of(digits: &[u8]) -> Option<u16>
    requires { length digits.now ≡ 4 }
    ensures { result ≡ digits_after 16 0 digits.now }
{
    let mut value = 0u64;
    for byte in digits {
        let Some(digit) = char::from(*byte).to_digit(16) else {
            return None;
        };
        value = value * 16 + u64::from(digit);
    }
    Some(value as u16)
}

fn word_told(line: &[u8]) -> TraceLine
    requires { length line.now ≡ 19 }
    ensures { result ≡ word_told (address_in line.now) (bits_in line.now) }
{
    match number_of(&line[2..10]) {
        None => TraceLine::Other,
        Some(pc) => match number_of(&line[11..]) {
            None => TraceLine::Other,
            Some(bits) => TraceLine::Word { pc, bits },
        },
    }
}

fn half_told(line: &[u8]) -> TraceLine
    requires { length line.now ≡ 15 }
    ensures { result ≡ half_told (address_in line.now) (bits_in line.now) }
{
    match number_of(&line[2..10]) {
        None => TraceLine::Other,
        Some(pc) => match half_of(&line[11..]) {
            None => TraceLine::Other,
            Some(bits) => TraceLine::Half { pc, bits },
        },
    }
}

fn entry_told(line: &[u8]) -> TraceLine
    requires { 12 ≤ length line.now }
    ensures { result ≡ entry_told (address_in line.now) }
{
    match number_of(&line[2..10]) {
        None => TraceLine::Other,
        Some(pc) => TraceLine::Entry { pc },
    }
}

/// What a line tells, without its line feed.
#[tactic(auto, unfolding(crate::specs::Named::told_by))]
pub fn line_told(line: &[u8]) -> TraceLine
    ensures { result ≡ told_by line.now }
{
    if begins_with(line, b'i') && line.len() == 19 {
        word_told(line)
    } else if begins_with(line, b'c') && line.len() == 15 {
        half_told(line)
    } else if (begins_with(line, b'q') || begins_with(line, b'x')) && line.len() >= 12 {
        entry_told(line)
    } else if begins_with(line, b's') || begins_with(line, b'd') {
        TraceLine::Service
    } else {
        TraceLine::Other
    }
}

/// The address that a line tells.
pub fn address_of(told: TraceLine) -> Option<u32>
    ensures { result ≡ address_of told }
{
    match told {
        TraceLine::Word { pc, .. } | TraceLine::Half { pc, .. } | TraceLine::Entry { pc } => Some(
            pc,
        ),
        TraceLine::Service | TraceLine::Other => None,
    }
}
