// The names of control and status registers.
ghost use Rattle.std.specs.Prelude.{◌≡◌, ◌<◌, ◌≤◌, length, IfSome};
ghost use Rattle.std.specs.Option.{option_map};
ghost use Rattle.asm_text.specs.Names.{csr_of, csr_name};

use crate::named::{Named, name_in, number_in};
use crate::row;

const CSRS: [Named; 19] = [
    row!("mstatus", 0x300),
    row!("misa", 0x301),
    row!("mie", 0x304),
    row!("mtvec", 0x305),
    row!("mtvt", 0x307),
    row!("mscratch", 0x340),
    row!("mepc", 0x341),
    row!("mcause", 0x342),
    row!("mtval", 0x343),
    row!("mip", 0x344),
    row!("mnxti", 0x345),
    row!("mintthresh", 0x347),
    row!("mscratchcsw", 0x348),
    row!("mscratchcswl", 0x349),
    row!("mvendorid", 0xF11),
    row!("marchid", 0xF12),
    row!("mimpid", 0xF13),
    row!("mhartid", 0xF14),
    row!("mintstatus", 0xFB1),
];

/// The number of a control and status register by its name.
#[tactic(auto, unfolding(crate::specs::Names::csr_of))]
pub fn csr_of(name: &[u8]) -> Option<u16>
    ensures number { result ≡ csr_of name.now }
    ensures small { IfSome result (λ c. c < 4096) }
{
    number_in(&CSRS, name)
}

/// The name of a control and status register, where it has one.
#[tactic(auto, unfolding(crate::specs::Names::csr_name))]
pub fn csr_name(number: u16) -> Option<&'static str>
    ensures name { option_map (λ name. name.now) result ≡ csr_name number }
    ensures short { IfSome result (λ name. length name.now ≤ 12) }
{
    name_in(&CSRS, number)
}
