// The sets of a fence.
ghost use Rattle.std.specs.Prelude.{◌≡◌};
ghost use Rattle.asm_fields.specs.Fields.{set_of};

use asm_text::{Named, number_in, row};

// By the number of letters.
const SETS: [Named; 15] = [
    row!("i", 8),
    row!("o", 4),
    row!("r", 2),
    row!("w", 1),
    row!("io", 12),
    row!("ir", 10),
    row!("iw", 9),
    row!("or", 6),
    row!("ow", 5),
    row!("rw", 3),
    row!("ior", 14),
    row!("iow", 13),
    row!("irw", 11),
    row!("orw", 7),
    row!("iorw", 15),
];

/// The set that letters spell.
#[tactic(auto, unfolding(crate::specs::Fields::set_of), using(crate::proofs::Names::sets_below))]
pub(crate) fn set_of(name: &[u8]) -> Option<u8>
    ensures { result ≡ set_of name.now }
{
    match number_in(&SETS, name) {
        Some(set) => Some(set as u8),
        None => None,
    }
}
