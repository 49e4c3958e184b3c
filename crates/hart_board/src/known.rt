// What is kept of an instruction of ROM.
ghost use Rattle.std.specs.Prelude.{◌≡◌, IfOk, length, true};
ghost use Rattle.hart_board.specs.Known.{nothing_known, IsBlank};

use hart_exec::{Operation, unknown};
use hart_words::WantOfMemory;
use rvc_encoding::Encoding;
use std::alloc::Global;

/// Of how many half-words something is kept: those at which four bytes of ROM begin.
pub const KNOWN_LEN: u32 = 0x7FFF;

/// An instruction in its flat form, with its bits.
#[derive(Clone, Copy, Drop)]
pub struct Known {
    pub operation: Operation,
    pub encoding: Encoding,
}

/// Nothing is known.
pub fn nothing() -> Known
    ensures { result ≡ nothing_known }
{
    Known {
        operation: unknown(),
        encoding: Encoding { bits: 0, length: 2 },
    }
}

/// So many times nothing.
pub fn blank(len: usize, alloc: Global) -> Result<Vec<Known>, WantOfMemory>
    ensures { IfOk result (λ known. (length known.items ≡ len) × IsBlank known.items) }
{
    Ok(vec![in alloc; nothing(); len]?)
}

// Forgets all.
fn forget(known: &mut Vec<Known>)
    ensures len { length known.new.items ≡ length known.old.items }
    ensures blank { IsBlank known.new.items }
{
    for k in 0..known.len() {
        known[k] = nothing();
    }
}

/// Forgets all, where that wasn't done before.
pub fn forget_unless(is_blank: bool, known: &mut Vec<Known>)
    requires { is_blank ≡ true → IsBlank known.old.items }
    ensures len { length known.new.items ≡ length known.old.items }
    ensures blank { IsBlank known.new.items }
{
    if !is_blank {
        forget(known);
    }
}
