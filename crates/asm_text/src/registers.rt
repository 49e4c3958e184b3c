// The names of registers.
ghost use Rattle.std.specs.Prelude.{◌≡◌, ◌<◌, ◌≤◌, length, IfSome};
ghost use Rattle.asm_text.specs.Names.{register_of, register_name};

use crate::named::{Named, name_in, number_in};
use crate::row;

// Those that are printed, by number, and then the others.
const REGISTERS: [Named; 65] = [
    row!("zero", 0),
    row!("ra", 1),
    row!("sp", 2),
    row!("gp", 3),
    row!("tp", 4),
    row!("t0", 5),
    row!("t1", 6),
    row!("t2", 7),
    row!("s0", 8),
    row!("s1", 9),
    row!("a0", 10),
    row!("a1", 11),
    row!("a2", 12),
    row!("a3", 13),
    row!("a4", 14),
    row!("a5", 15),
    row!("a6", 16),
    row!("a7", 17),
    row!("s2", 18),
    row!("s3", 19),
    row!("s4", 20),
    row!("s5", 21),
    row!("s6", 22),
    row!("s7", 23),
    row!("s8", 24),
    row!("s9", 25),
    row!("s10", 26),
    row!("s11", 27),
    row!("t3", 28),
    row!("t4", 29),
    row!("t5", 30),
    row!("t6", 31),
    row!("fp", 8),
    row!("x0", 0),
    row!("x1", 1),
    row!("x2", 2),
    row!("x3", 3),
    row!("x4", 4),
    row!("x5", 5),
    row!("x6", 6),
    row!("x7", 7),
    row!("x8", 8),
    row!("x9", 9),
    row!("x10", 10),
    row!("x11", 11),
    row!("x12", 12),
    row!("x13", 13),
    row!("x14", 14),
    row!("x15", 15),
    row!("x16", 16),
    row!("x17", 17),
    row!("x18", 18),
    row!("x19", 19),
    row!("x20", 20),
    row!("x21", 21),
    row!("x22", 22),
    row!("x23", 23),
    row!("x24", 24),
    row!("x25", 25),
    row!("x26", 26),
    row!("x27", 27),
    row!("x28", 28),
    row!("x29", 29),
    row!("x30", 30),
    row!("x31", 31),
];

/// The number of a register by its name, as `x10` or `a0`; `fp` is `s0`.
#[tactic(auto, unfolding(crate::specs::Names::register_of))]
pub fn register_of(name: &[u8]) -> Option<u8>
    ensures number { result ≡ register_of name.now }
    ensures small { IfSome result (λ r. r < 32) }
{
    match number_in(&REGISTERS, name) {
        Some(number) => Some(number as u8),
        None => None,
    }
}

/// The name that a register is printed by.
#[tactic(auto, unfolding(crate::specs::Names::register_name))]
pub fn register_name(register: u8) -> &'static str
    requires { register < 32 }
    ensures name { result.now ≡ register_name register }
    ensures short { length result.now ≤ 4 }
{
    match name_in(&REGISTERS, u16::from(register)) {
        Some(name) => name,
        None => "",
    }
}
