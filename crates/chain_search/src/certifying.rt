// The verdict on a handler by a certificate that is sought.
ghost use Rattle.std.specs.Prelude.{◌≡◌, ◌%◌, ◌+◌, ◌≤◌, IfOk};
ghost use Rattle.hart_memory.specs.declared.address_map.TheConstants.{RAM_BASE, BANK_LEN};
ghost use Rattle.chain_flow.specs.Walk.{UsesLittle};
ghost use Rattle.chain_lint.specs.Code.{image_rom};
ghost use Rattle.chain_search.specs.Answer.{IsAnswer};

use crate::search::search;
use chain_certify::checked;
use chain_flow::{LintWhy, Region, Verdict};
use chain_lint::memory_of;
use hart_memory::{Banks, Image};
use hart_words::WantOfMemory;
use std::alloc::Global;

// How many flows an address may have before they are joined, in one search after the other.
const LIMITS: [u32; 3] = [1, 64, 512];

// The verdict of one search.
fn certify_with(
    alloc: Global,
    code: &Banks,
    handler: u32,
    region: &Region,
    limit: u32,
) -> Result<Verdict, WantOfMemory>
    ensures exact { IfOk result (λ answer. IsAnswer code.now.present.rom handler region.now answer) }
    ensures small { IfOk result (λ answer. UsesLittle answer) }
{
    let mut nodes = Vec::new(alloc);
    if let Some(refusal) = search(alloc, code, handler, region, limit, &mut nodes)? {
        return Ok(Verdict::No {
            why: refusal.why,
            at: refusal.at,
        });
    }
    match checked(alloc, code, handler, region, &nodes)? {
        Some(uses) => Ok(Verdict::Yes { uses }),
        None => Ok(Verdict::No {
            why: LintWhy::TooLong,
            at: handler,
        }),
    }
}

/// The verdict on the handler at an address of code that is there.
pub fn certify_code(
    alloc: Global,
    code: &Banks,
    handler: u32,
    region: &Region,
) -> Result<Verdict, WantOfMemory>
    ensures exact { IfOk result (λ answer. IsAnswer code.now.present.rom handler region.now answer) }
    ensures small { IfOk result (λ answer. UsesLittle answer) }
{
    let mut answer = certify_with(alloc, code, handler, region, LIMITS[0])?;
    for i in 1..3 {
        if let Verdict::Yes { .. } = answer {
            return Ok(answer);
        }
        answer = certify_with(alloc, code, handler, region, LIMITS[i])?;
    }
    Ok(answer)
}

/// Whether a certificate is found for the handler at an address of the image, where its stack lies in the region. A no
/// tells the rule that refuses where the last search stopped; it is `TooLong` too where that had no end in time.
pub fn certify(
    alloc: Global,
    image: &Image,
    handler: u32,
    region: Region,
) -> Result<Verdict, WantOfMemory>
    requires even { handler % 2 ≡ 0 }
    requires low { (RAM_BASE ≤ region.low) × (region.low ≤ RAM_BASE + BANK_LEN) }
    requires high { (RAM_BASE ≤ region.high) × (region.high ≤ RAM_BASE + BANK_LEN) }
    ensures exact { IfOk result (λ answer. IsAnswer (image_rom image.now) handler region answer) }
    ensures small { IfOk result (λ answer. UsesLittle answer) }
{
    let code = memory_of(alloc, image)?;
    certify_code(alloc, &code, handler, &region)
}
