// The registers that a handler has to bring back.
ghost use Rattle.std.specs.Prelude.{◌≡◌, ◌<◌, ◌||◌, ◌==◌, reverse};
ghost use Rattle.hart_words.specs.Registers.{register};
ghost use Rattle.chain_moves.specs.Slot.{back};
ghost use Rattle.chain_moves.specs.Tests.{is_free, are_kept, is_lost};

use crate::mark::Mark;
use crate::slot::BACK;
use hart_words::Regs;

// Whether a register is one that a handler may change, or is as it was.
fn is_same(kept: &[u32; 32], registers: &Regs, r: u8) -> bool
    requires { r < 32 }
    ensures { result ≡ (is_free r || register registers.now r == register kept.now r) }
{
    r == 1 || r == 10 || r == 11 || registers.get(r) == kept[usize::from(r)]
}

/// The registers as an array.
pub fn all(registers: &Regs) -> [u32; 32]
    ensures { result ≡ registers.now }
{
    registers.in_range();
    let mut words = [0; 32];
    for r in 0..32u8 {
        words[usize::from(r)] = registers.get(r);
    }
    words
}

/// Whether each register that a handler has to bring back is as it was.
#[inline(never)]
pub fn keeps(kept: &[u32; 32], registers: &Regs) -> bool
    ensures { result ≡ are_kept kept.now registers.now 32 }
{
    for r in 0..32u8 {
        if !is_same(kept, registers, r) {
            return false;
        }
    }
    true
}

// Whether the innermost handler, which stands last, leaves a register that isn't as it was when the handler
// began.
#[inline(never)]
#[tactic(auto, using(crate::proofs::Turned::lost_none, crate::proofs::Turned::lost_here))]
fn has_changed(marks: &[Mark], registers: &Regs) -> bool
    ensures { result ≡ is_lost (reverse marks.now) back registers.now }
{
    if marks.is_empty() {
        return false;
    }
    !keeps(&marks[marks.len() - 1].kept, registers)
}

/// Whether the innermost handler, which stands last, returns, and a register is not as it was when the
/// handler began.
#[inline(always)]
#[tactic(auto, using(crate::proofs::Turned::lost_elsewhere))]
pub fn is_lost(marks: &[Mark], pc: u32, registers: &Regs) -> bool
    ensures { result ≡ is_lost (reverse marks.now) pc registers.now }
{
    if pc != BACK {
        return false;
    }
    has_changed(marks, registers)
}
