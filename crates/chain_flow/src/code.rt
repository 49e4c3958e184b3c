// The code of a handler.
ghost use Rattle.std.specs.Prelude.{◌≡◌};
ghost use Rattle.chain_flow.specs.Rules.{is_bad_half};
ghost use Rattle.chain_flow.specs.Look.{IsCodeAt};

use crate::places::meets_slot;
use hart_memory::laws::banks_are_whole;
use hart_memory::{BANK_LEN, Banks};

// Whether a half-word isn't in ROM, or has a byte in the slot.
fn is_bad(at: u32) -> bool
    ensures { result ≡ is_bad_half at }
{
    u64::from(at) + 2 > u64::from(BANK_LEN) || meets_slot(at, 2)
}

/// The bits and the length of the instruction at an address. `None`: a half-word is none of the code.
pub fn code_at(code: &Banks, at: u32) -> Option<(u32, u32)>
    ensures { IsCodeAt code.now.present.rom at result }
{
    if is_bad(at) {
        return None;
    }
    banks_are_whole(code);
    let low = code.load(at, 2);
    if low % 4 != 3 {
        return Some((low, 2));
    }
    let next = at.wrapping_add(2);
    if is_bad(next) {
        return None;
    }
    Some((low + 0x1_0000 * code.load(next, 2), 4))
}
