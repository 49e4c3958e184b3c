// Reads packets.
ghost use Rattle.std.specs.Prelude.{◌≡◌, IfOk};
ghost use Rattle.lab_packets.specs.Packets.{register_read, memory_read, two_numbers, written_register, written_memory, memory_written, point_at, point_behind, point_packet, features, query, lettered, back_or, packet_of};
ghost use Rattle.lab_packets.specs.Numbers.{number_of};

use crate::digits::bytes_of;
use crate::numbers::{number_of, word_of};
use crate::packet::Packet;
use crate::point::Point;
use crate::texts::{behind, first_of};
use hart_words::{Text, WantOfMemory, cut_at};
use std::alloc::Global;

// Two numbers with a comma between them.
#[tactic(auto, unfolding(crate::specs::Packets::two_numbers))]
fn two_numbers(text: &[u8]) -> Option<(u32, u32)>
    ensures { result ≡ two_numbers text.now }
{
    match cut_at(text, b',') {
        (_, None) => None,
        (first, Some(second)) => match (number_of(first), number_of(second)) {
            (Some(a), Some(b)) => Some((a, b)),
            _ => None,
        },
    }
}

// What stands behind `P`.
#[tactic(auto, unfolding(crate::specs::Packets::written_register))]
fn written_register(text: &[u8]) -> Packet
    ensures { result ≡ written_register text.now }
{
    match cut_at(text, b'=') {
        (_, None) => Packet::Malformed,
        (first, Some(second)) => match (number_of(first), word_of(second)) {
            (Some(number), Some(value)) => Packet::WriteRegister { number, value },
            _ => Packet::Malformed,
        },
    }
}

// As many bytes as are announced.
fn memory_written(place: Option<(u32, u32)>, bytes: Option<Text>) -> Packet
    ensures { result ≡ memory_written place bytes }
{
    match (place, bytes) {
        (Some((at, length)), Some(bytes)) => {
            if bytes.bytes().len() == length as usize {
                Packet::WriteMemory { at, bytes }
            } else {
                Packet::Malformed
            }
        }
        _ => Packet::Malformed,
    }
}

// What stands behind `M`.
#[tactic(auto, unfolding(crate::specs::Packets::written_memory))]
fn written_memory(alloc: Global, text: &[u8]) -> Result<Packet, WantOfMemory>
    ensures { IfOk result (λ p. p ≡ written_memory text.now) }
{
    match cut_at(text, b':') {
        (_, None) => Ok(Packet::Malformed),
        (first, Some(second)) => Ok(memory_written(two_numbers(first), bytes_of(alloc, second)?)),
    }
}

fn point_at(inserts: bool, watches: bool, place: Option<(u32, u32)>) -> Packet
    ensures { result ≡ point_at inserts watches place }
{
    let Some((at, length)) = place else {
        return Packet::Malformed;
    };
    let point = if watches {
        Point::Watch { at, length }
    } else {
        Point::Break(at)
    };
    if inserts {
        Packet::Insert(point)
    } else {
        Packet::Remove(point)
    }
}

// What stands behind the kind.
fn point_behind(inserts: bool, watches: bool, text: &[u8]) -> Packet
    ensures { result ≡ point_behind inserts watches text.now }
{
    if first_of(text) == b',' {
        point_at(inserts, watches, two_numbers(behind(text, 1)))
    } else {
        Packet::Malformed
    }
}

// What stands behind `Z` or `z`.
#[tactic(auto, unfolding(crate::specs::Packets::point_packet))]
fn point_packet(inserts: bool, text: &[u8]) -> Packet
    ensures { result ≡ point_packet inserts text.now }
{
    match first_of(text) {
        b'0' | b'1' => point_behind(inserts, false, behind(text, 1)),
        b'2' => point_behind(inserts, true, behind(text, 1)),
        _ => Packet::Other,
    }
}

// What stands behind `qXfer:features:read:`.
#[tactic(auto, unfolding(crate::specs::Packets::features))]
fn features(text: &[u8]) -> Packet
    ensures { result ≡ features text.now }
{
    if !text.starts_with(b"target.xml:") {
        return Packet::NoFeatures;
    }
    match two_numbers(behind(text, 11)) {
        Some((offset, length)) => Packet::Features { offset, length },
        None => Packet::NoFeatures,
    }
}

#[tactic(auto, unfolding(crate::specs::Packets::query))]
fn query(alloc: Global, text: &[u8]) -> Result<Packet, WantOfMemory>
    ensures { IfOk result (λ p. p ≡ query text.now) }
{
    if text.starts_with(b"qSupported") {
        return Ok(Packet::Supported);
    }
    if text.starts_with(b"qXfer:features:read:") {
        return Ok(features(behind(text, 20)));
    }
    if text.starts_with(b"qRcmd,") {
        return match bytes_of(alloc, behind(text, 6))? {
            Some(command) => Ok(Packet::Monitor(command)),
            None => Ok(Packet::Malformed),
        };
    }
    Ok(Packet::Other)
}

fn register_read(text: &[u8]) -> Packet
    ensures { result ≡ register_read (number_of text.now) }
{
    match number_of(text) {
        Some(number) => Packet::ReadRegister(number),
        None => Packet::Malformed,
    }
}

fn memory_read(text: &[u8]) -> Packet
    ensures { result ≡ memory_read (two_numbers text.now) }
{
    match two_numbers(text) {
        Some((at, length)) => Packet::ReadMemory { at, length },
        None => Packet::Malformed,
    }
}

// By the first letter.
#[tactic(auto, unfolding(crate::specs::Packets::lettered))]
fn lettered(alloc: Global, text: &[u8]) -> Result<Packet, WantOfMemory>
    ensures { IfOk result (λ p. p ≡ lettered text.now) }
{
    match first_of(text) {
        b'p' => Ok(register_read(behind(text, 1))),
        b'P' => Ok(written_register(behind(text, 1))),
        b'm' => Ok(memory_read(behind(text, 1))),
        b'M' => written_memory(alloc, behind(text, 1)),
        b'Z' => Ok(point_packet(true, behind(text, 1))),
        b'z' => Ok(point_packet(false, behind(text, 1))),
        _ => query(alloc, text),
    }
}

// One that goes back, or by the first letter.
fn back_or_lettered(alloc: Global, text: &[u8]) -> Result<Packet, WantOfMemory>
    ensures { IfOk result (λ p. p ≡ back_or (lettered text.now) text.now) }
{
    if text == b"bs".as_slice() {
        return Ok(Packet::BackStep);
    }
    if text == b"bc".as_slice() {
        return Ok(Packet::BackContinue);
    }
    lettered(alloc, text)
}

/// The packet whose data these bytes are.
#[tactic(auto, unfolding(crate::specs::Packets::packet_of))]
pub fn packet_of(alloc: Global, text: &[u8]) -> Result<Packet, WantOfMemory>
    ensures { IfOk result (λ p. p ≡ packet_of text.now) }
{
    if text == b"?".as_slice() {
        return Ok(Packet::Why);
    }
    if text == b"g".as_slice() {
        return Ok(Packet::ReadRegisters);
    }
    if text == b"s".as_slice() {
        return Ok(Packet::Step);
    }
    if text == b"c".as_slice() {
        return Ok(Packet::Continue);
    }
    if text == b"D".as_slice() {
        return Ok(Packet::Detach);
    }
    if text == b"k".as_slice() {
        return Ok(Packet::Kill);
    }
    back_or_lettered(alloc, text)
}
