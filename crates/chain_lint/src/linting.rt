// The verdict on a handler of an image.
ghost use Rattle.std.specs.Prelude.{◌≡◌, ◌%◌, ◌+◌, ◌≤◌, IfOk};
ghost use Rattle.hart_memory.specs.declared.address_map.TheConstants.{RAM_BASE, BANK_LEN};
ghost use Rattle.chain_flow.specs.Walk.{verdict, UsesLittle};
ghost use Rattle.chain_lint.specs.Code.{image_rom};

use crate::code::memory_of;
use chain_flow::{Region, Verdict, lint_code};
use hart_memory::Image;
use hart_words::WantOfMemory;
use std::alloc::Global;

/// Whether no scenario can make the handler at an address of the image break the convention in four
/// kinds, where its stack lies in the region.
pub fn lint(
    alloc: Global,
    image: &Image,
    handler: u32,
    region: Region,
) -> Result<Verdict, WantOfMemory>
    requires even { handler % 2 ≡ 0 }
    requires low { (RAM_BASE ≤ region.low) × (region.low ≤ RAM_BASE + BANK_LEN) }
    requires high { (RAM_BASE ≤ region.high) × (region.high ≤ RAM_BASE + BANK_LEN) }
    ensures exact { IfOk result (λ answer. answer ≡ verdict (image_rom image.now) handler region) }
    ensures small { IfOk result (λ answer. UsesLittle answer) }
{
    let code = memory_of(alloc, image)?;
    lint_code(alloc, &code, handler, &region)
}
