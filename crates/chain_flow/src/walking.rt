// The walk over the addresses that are reached.
ghost use Rattle.std.specs.Prelude.{◌≡◌, IfOk, OnOk};
ghost use Rattle.chain_flow.specs.Flow.{value_of};
ghost use Rattle.chain_flow.specs.Look.{targets_of};
ghost use Rattle.chain_flow.specs.Walk.{walk as walked, ended, all_arrived, depth_of as depth_of_value, max_addresses, verdict, UsesLittle};

use crate::flow_state::Flow;
use crate::lint_why::LintWhy;
use crate::look::Look;
use crate::looking::look;
use crate::pending::{Reached, arrive};
use crate::region::Region;
use crate::value::{Value, depth_of};
use crate::verdict::Verdict;
use hart_memory::Banks;
use hart_words::WantOfMemory;
use std::alloc::{AllocError, Global};

// How many addresses a handler may have.
const MAX_ADDRESSES: u32 = 1024;

// How far the stack pointer is below the start.
fn depth(pointer: Value) -> u32
    ensures { result ≡ depth_of_value pointer }
{
    match pointer {
        Value::Stack(sp) => depth_of(sp),
        Value::Entry(_) | Value::Const(_) | Value::Unknown => 0,
    }
}

// What is known arrives where the instruction goes on.
#[tactic(auto, unfolding(crate::specs::Walk::all_arrived))]
fn go_on(
    alloc: Global,
    pending: &mut Vec<Reached>,
    look: Look,
    flow: Flow,
) -> Result<(), AllocError>
    ensures { OnOk result (pending.new.items ≡ all_arrived (targets_of look) flow pending.old.items) }
{
    match look {
        Look::Refuses(_) | Look::Returns => Ok(()),
        Look::GoesTo(target) => arrive(pending, target, flow),
        Look::Branches(far, near) => {
            arrive(pending, far, flow.copy(alloc)?)?;
            arrive(pending, near, flow)
        }
    }
}

// The verdict, from what is reached at first.
fn walk(
    alloc: Global,
    code: &Banks,
    region: &Region,
    pending: &mut Vec<Reached>,
) -> Result<Verdict, WantOfMemory>
    ensures { IfOk result (λ verdict. verdict ≡ walked code.now.present.rom region.now max_addresses pending.old.items 0) }
{
    let mut uses = 0;
    for _ in 0..MAX_ADDRESSES {
        if pending.is_empty() {
            return Ok(Verdict::Yes { uses });
        }
        let (at, mut flow) = pending.remove(0).parts();
        let look = look(code, region, at, &mut flow)?;
        if let Look::Refuses(why) = look {
            return Ok(Verdict::No { why, at });
        }
        uses = uses.max(depth(flow.value(2)));
        go_on(alloc, pending, look, flow)?;
    }
    Ok(end(pending, uses))
}

// Where no more addresses may be looked at.
fn end(pending: &[Reached], uses: u32) -> Verdict
    ensures { result ≡ ended pending.now uses }
{
    if pending.is_empty() {
        return Verdict::Yes { uses };
    }
    Verdict::No {
        why: LintWhy::TooLong,
        at: pending[0].place(),
    }
}

/// The verdict on the handler at an address of code that is there.
pub fn lint_code(
    alloc: Global,
    code: &Banks,
    handler: u32,
    region: &Region,
) -> Result<Verdict, WantOfMemory>
    ensures exact { IfOk result (λ answer. answer ≡ verdict code.now.present.rom handler region.now) }
    ensures small { IfOk result (λ answer. UsesLittle answer) }
{
    let mut pending = Vec::new(alloc);
    pending.push(Reached::first(handler, Flow::at_start(alloc)))?;
    walk(alloc, code, region, &mut pending)
}
