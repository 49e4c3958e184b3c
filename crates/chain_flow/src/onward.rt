// Where the instruction at an address goes on, whatever else is known there.
ghost use Rattle.std.specs.Prelude.{◌≡◌};
ghost use Rattle.chain_flow.specs.Look.{onward_of};
ghost use Rattle.chain_flow.specs.Onward.{onward};

use crate::code::code_at;
use crate::lint_why::LintWhy;
use crate::look::Look;
use crate::looking::next;
use hart_memory::Banks;
use rvc_encoding::decode_bits;

/// Where the instruction at an address of the code goes on. It is refused only where none stands there:
/// no other rule is asked.
pub fn targets_at(code: &Banks, at: u32) -> Look
    ensures { onward_of result ≡ onward code.now.present.rom at }
{
    let Some((bits, length)) = code_at(code, at) else {
        return Look::Refuses(LintWhy::CodeOutside);
    };
    match decode_bits(bits, length) {
        Some(ins) => next(at, length, &ins),
        None => Look::Refuses(LintWhy::NotSpelled),
    }
}
