// Words without a bit set that their row ignores.
ghost use Rattle.std.specs.Prelude.{◌≡◌, ◌↔◌, IsTrue};
ghost use Rattle.rv_encoding.specs.Parts.{ignored_of};
ghost use Rattle.rv_encoding.specs.Rows.{canonical, IsCanonical};

use crate::decode::decode32;
use crate::instruction::Ins;

fn ignored_bits(i: &Ins) -> u32
    ensures { result ≡ ignored_of i.now }
{
    match i {
        Ins::Fence { .. } => 0xF00F_8F80,
        _ => 0,
    }
}

/// Whether a row spells the word and the bits that the row ignores are 0.
pub fn is_canonical(w: u32) -> bool
    ensures value { result ≡ canonical w }
    ensures row { IsTrue result ↔ IsCanonical w }
{
    match decode32(w) {
        Some(i) => w & ignored_bits(&i) == 0,
        None => false,
    }
}
