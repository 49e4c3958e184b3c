// What is found at one address.
ghost use Rattle.std.specs.Prelude.{◌≡◌, IfOk, IsTrue};
ghost use Rattle.rv_encoding.specs.Fits.{can_be_spelled};
ghost use Rattle.chain_flow.specs.Transfer.{flow_after, targets};
ghost use Rattle.chain_flow.specs.Rules.{broken_rule, looked_by, looked};
ghost use Rattle.chain_flow.specs.Look.{look_of, GoesOnAt};

use crate::code::code_at;
use crate::flow_state::Flow;
use crate::lint_why::LintWhy;
use crate::look::Look;
use crate::region::Region;
use crate::rules::{is_bad_pointer, is_changed, rule_before};
use crate::transfer::change;
use hart_memory::Banks;
use hart_words::WantOfMemory;
use rv_encoding::Ins;
use rvc_encoding::decode_bits;

/// Where an instruction of that length at an address goes on.
pub fn next(at: u32, length: u32, ins: &Ins) -> Look
    ensures { GoesOnAt result (targets at length ins.now) }
{
    match *ins {
        Ins::Jal { offset, .. } => Look::GoesTo(at.wrapping_add(offset)),
        Ins::Jalr { .. } => Look::Returns,
        Ins::Branch { offset, .. } => {
            Look::Branches(at.wrapping_add(offset), at.wrapping_add(length))
        }
        _ => Look::GoesTo(at.wrapping_add(length)),
    }
}

// An instruction of that length at an address, where so much is known.
fn look_at(
    region: &Region,
    at: u32,
    length: u32,
    ins: &Ins,
    flow: &mut Flow,
) -> Result<Look, WantOfMemory>
    requires { IsTrue (can_be_spelled ins.now) }
    ensures { IfOk result (λ look. looked_by (broken_rule region.now at flow.old (flow_after at length flow.old ins.now) ins.now) (flow_after at length flow.old ins.now) (targets at length ins.now) ≡ look_of look flow.new) }
{
    if let Some(why) = rule_before(region, at, flow, ins) {
        return Ok(Look::Refuses(why));
    }
    let changed = is_changed(flow, ins);
    change(flow, at, length, ins)?;
    if is_bad_pointer(flow.value(2)) {
        return Ok(Look::Refuses(LintWhy::StackPointer));
    }
    if changed {
        return Ok(Look::Refuses(LintWhy::RegisterChanged));
    }
    Ok(next(at, length, ins))
}

/// The first rule that holds at an address of the code, where so much is known; or what is known after
/// the instruction, and where it goes on.
pub fn look(code: &Banks, region: &Region, at: u32, flow: &mut Flow) -> Result<Look, WantOfMemory>
    ensures { IfOk result (λ look. looked code.now.present.rom region.now at flow.old ≡ look_of look flow.new) }
{
    let Some((bits, length)) = code_at(code, at) else {
        return Ok(Look::Refuses(LintWhy::CodeOutside));
    };
    match decode_bits(bits, length) {
        Some(ins) => look_at(region, at, length, &ins, flow),
        None => Ok(Look::Refuses(LintWhy::NotSpelled)),
    }
}
