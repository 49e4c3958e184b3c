// The handlers that were accepted so far.
ghost use Rattle.std.specs.Prelude.{◌≡◌, ℕ, List, IfOk, IfSome, OnOk};
ghost use Rattle.std.specs.List.{All};
ghost use Rattle.chain_flow.specs.Walk.{verdict as verdict_on, UsesLittle};
ghost use Rattle.chain_flow.specs.declared.region.Region.{Region as RegionView};
ghost use Rattle.chain_flow.specs.declared.verdict.Verdict.TheVariants.{Yes};
ghost use Rattle.chain_lint.specs.Tables.{WasAccepted};

use chain_flow::{Region, Verdict, lint_code};
use hart_memory::Banks;
use hart_words::WantOfMemory;
use std::alloc::Global;

/// A handler that was accepted: its address, and the bytes that it uses below its frame.
#[derive(Clone, Copy, Drop)]
pub struct Accepted {
    pub at: u32,
    pub uses: u32,
}

// What the handler at an address uses, where it was accepted.
fn uses_of(accepted: &[Accepted], at: u32) -> Option<u32>
    ensures { (code : List ℕ) (region : RegionView) → All (WasAccepted code region) accepted.now → IfSome result (λ uses. WasAccepted code region (record { at = at; uses = uses })) }
{
    for handler in accepted {
        if handler.at == at {
            return Some(handler.uses);
        }
    }
    None
}

/// The verdict on the handler at an address, which is looked at unless it was accepted before.
pub fn judge(
    alloc: Global,
    code: &Banks,
    region: &Region,
    at: u32,
    accepted: &mut Vec<Accepted>,
) -> Result<Verdict, WantOfMemory>
    requires { All (WasAccepted code.now.present.rom region.now) accepted.old.items }
    ensures verdict { IfOk result (λ verdict. verdict ≡ verdict_on code.now.present.rom at region.now) }
    ensures small { IfOk result (λ verdict. UsesLittle verdict) }
    ensures accepted { OnOk result (All (WasAccepted code.now.present.rom region.now) accepted.new.items) }
{
    if let Some(uses) = uses_of(accepted, at) {
        return Ok(Verdict::Yes { uses });
    }
    let verdict = lint_code(alloc, code, at, region)?;
    if let Verdict::Yes { uses } = verdict {
        accepted.push(Accepted { at, uses })?;
    }
    Ok(verdict)
}
