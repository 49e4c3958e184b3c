// Bytes of RAM that are dead, as one flag for each.
ghost use Rattle.std.specs.Prelude.{◌≡◌, ◌+◌, ◌≤◌, false, length, IfOk};
ghost use Rattle.hart_memory.specs.declared.address_map.TheConstants.{BANK_LEN};
ghost use Rattle.chain_moves.specs.Bytes.{some_byte, is_dead, is_hidden, is_dead_at, marked};
ghost use Rattle.chain_moves.specs.Start.{none_dead};

use crate::slot::{BASE, SLOT_END};
use hart_memory::{BANK_LEN, Place, RAM_BASE, place_of};
use hart_words::WantOfMemory;
use std::alloc::Global;

/// So many bytes, none of which is dead.
#[tactic(auto, unfolding(crate::specs::Start::none_dead))]
pub fn alive(alloc: Global, count: usize) -> Result<Vec<bool>, WantOfMemory>
    ensures { IfOk result (λ dead. (dead.items ≡ none_dead count) × (length dead.items ≡ count)) }
{
    Ok(vec![in alloc; false; count]?)
}

/// Whether the byte at an address is dead.
#[tactic(auto, using(crate::proofs::Loops::dead_past))]
pub fn is_dead(dead: &[bool], at: u64) -> bool
    requires { length dead.now ≡ BANK_LEN }
    ensures { result ≡ is_dead dead.now at }
{
    if at < u64::from(RAM_BASE) {
        return false;
    }
    let k = at - u64::from(RAM_BASE);
    if k < u64::from(BANK_LEN) {
        dead[k as usize]
    } else {
        false
    }
}

/// Whether the byte at an address is in the slot, or dead.
fn hides(dead: &[bool], at: u64) -> bool
    requires { length dead.now ≡ BANK_LEN }
    ensures { result ≡ is_hidden dead.now at }
{
    if at >= u64::from(BASE) && at < u64::from(SLOT_END) {
        return true;
    }
    is_dead(dead, at)
}

// The same of so many bytes from an address on, one after the other.
#[inline(never)]
fn hides_each(dead: &[bool], at: u32, count: u32) -> bool
    requires { length dead.now ≡ BANK_LEN }
    ensures { result ≡ some_byte (is_hidden dead.now) at count }
{
    for i in 0..count {
        if hides(dead, at as u64 + i as u64) {
            return true;
        }
    }
    false
}

// Whether one of so many bytes from place k of RAM on is dead.
#[inline(always)]
fn some_dead(dead: &[bool], k: usize, count: usize) -> bool
    requires { k + count ≤ length dead.now }
    ensures { result ≡ some_byte (is_dead_at dead.now) k count }
{
    for i in 0..count {
        if dead[k + i] {
            return true;
        }
    }
    false
}

// The same, with a loop of a known length for each width of an access.
#[inline(always)]
fn some_dead_of_access(dead: &[bool], k: usize, count: usize) -> bool
    requires { k + count ≤ length dead.now }
    ensures { result ≡ some_byte (is_dead_at dead.now) k count }
{
    match count {
        1 => some_dead(dead, k, 1),
        2 => some_dead(dead, k, 2),
        4 => some_dead(dead, k, 4),
        _ => some_dead(dead, k, count),
    }
}

/// Whether one of so many bytes from an address on is in the slot, or dead.
#[inline(always)]
#[tactic(auto, using(crate::proofs::Loops::hidden_in_ram))]
pub fn hides_some(dead: &[bool], at: u32, count: u32) -> bool
    requires { length dead.now ≡ BANK_LEN }
    ensures { result ≡ some_byte (is_hidden dead.now) at count }
{
    match place_of(at, count) {
        Place::InRam(k) => some_dead_of_access(dead, k as usize, count as usize),
        Place::InRom(_) | Place::Elsewhere => hides_each(dead, at, count),
    }
}

/// Makes so many bytes from place k on alive, with a loop of a known length for each width of an access.
#[inline(always)]
pub fn revive(dead: &mut [bool], k: usize, count: usize)
    requires { k + count ≤ length dead.old }
    ensures { dead.new ≡ marked dead.old k count false }
{
    match count {
        1 => mark(dead, k, 1, false),
        2 => mark(dead, k, 2, false),
        4 => mark(dead, k, 4, false),
        _ => mark(dead, k, count, false),
    }
}

/// Makes so many bytes from place k on dead, or alive.
#[inline(always)]
pub fn mark(dead: &mut [bool], k: usize, count: usize, is_dead: bool)
    requires { k + count ≤ length dead.old }
    ensures { dead.new ≡ marked dead.old k count is_dead }
{
    for i in 0..count {
        dead[k + i] = is_dead;
    }
}
