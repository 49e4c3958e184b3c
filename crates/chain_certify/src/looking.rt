// What is found at one node.
ghost use Rattle.std.specs.Prelude.{◌≡◌, ◌<◌, [], ◌++◌, IfOk, IsTrue, OnOk, true, false};
ghost use Rattle.rv_encoding.specs.Fits.{can_be_spelled};
ghost use Rattle.chain_certify.specs.Flow.{value_of, set_value};
ghost use Rattle.chain_certify.specs.Transfer.{flow_after};
ghost use Rattle.chain_certify.specs.Sides.{side as side_of};
ghost use Rattle.chain_certify.specs.Rules.{to as to_one, sided, jumped as jumped_to, goes_to, broken_rule, looked_by, looked};

use crate::flow_state::Flow;
use crate::looked::{Look, Next};
use crate::rules::{is_bad_pointer, is_changed, is_return, rule_before};
use crate::sides::side;
use crate::transfer::change;
use crate::value::Value;
use chain_flow::{LintWhy, Region, code_at};
use hart_memory::Banks;
use hart_words::{WantOfMemory, even};
use rv_encoding::{BranchOp, Ins};
use rvc_encoding::decode_bits;
use std::alloc::Global;

// Where an instruction stands, and how long it is.
#[derive(Clone, Copy, Drop)]
struct Site {
    at: u32,
    length: u32,
}

// One place.
fn to(alloc: Global, at: u32, flow: Flow) -> Result<Vec<Next>, WantOfMemory>
    ensures { IfOk result (λ next. next.items ≡ to_one at flow) }
{
    let mut next = Vec::new(alloc);
    next.push(Next { at, flow })?;
    Ok(next)
}

// A jump by a register goes to a number.
fn jumped(alloc: Global, target: Value, imm: u32, flow: Flow) -> Result<Vec<Next>, WantOfMemory>
    ensures { IfOk result (λ next. next.items ≡ jumped_to target imm flow) }
{
    match target {
        Value::Const(c) => to(alloc, even(c.wrapping_add(imm)), flow),
        Value::Entry(_) | Value::Stack(_) | Value::Range(_, _) | Value::Unknown => {
            Ok(Vec::new(alloc))
        }
    }
}

// What is known on a side of a branch, with both operands as that side tells.
fn refined(
    alloc: Global,
    flow: &Flow,
    operands: (u8, u8),
    both: (Value, Value),
) -> Result<Flow, WantOfMemory>
    requires { (operands.0 < 32) × (operands.1 < 32) }
    ensures { IfOk result (λ f. f ≡ record flow.now { values = set_value (set_value flow.now.values operands.0 both.0) operands.1 both.1 }) }
{
    let mut copy = flow.copy(alloc)?;
    copy.set(operands.0, both.0);
    copy.set(operands.1, both.1);
    Ok(copy)
}

// Adds a side of a branch, where it may go that way.
fn add_side(
    alloc: Global,
    next: &mut Vec<Next>,
    at: u32,
    flow: &Flow,
    operands: (u8, u8),
    both: Option<(Value, Value)>,
) -> Result<(), WantOfMemory>
    requires { (operands.0 < 32) × (operands.1 < 32) }
    ensures { OnOk result (next.new.items ≡ next.old.items ++ sided both at flow.now operands.0 operands.1 []) }
{
    let Some(both) = both else {
        return Ok(());
    };
    let flow = refined(alloc, flow, operands, both)?;
    next.push(Next { at, flow })?;
    Ok(())
}

// The sides of a branch that it may go, first where it is taken.
fn branched(
    alloc: Global,
    op: BranchOp,
    operands: (u8, u8),
    places: (u32, u32),
    flow: &Flow,
    after: &Flow,
) -> Result<Vec<Next>, WantOfMemory>
    requires { (operands.0 < 32) × (operands.1 < 32) }
    ensures { let v = value_of flow.now.values operands.0 in let u = value_of flow.now.values operands.1 in IfOk result (λ next. next.items ≡ sided (side_of op true v u) places.0 after.now operands.0 operands.1 (sided (side_of op false v u) places.1 after.now operands.0 operands.1 [])) }
{
    let v = flow.value(operands.0);
    let u = flow.value(operands.1);
    let mut next = Vec::new(alloc);
    let taken = side(op, true, v, u);
    add_side(alloc, &mut next, places.0, after, operands, taken)?;
    let other = side(op, false, v, u);
    add_side(alloc, &mut next, places.1, after, operands, other)?;
    Ok(next)
}

// Where an instruction goes on.
#[tactic(auto, unfolding(crate::specs::Rules::goes_to))]
fn go_on(
    alloc: Global,
    site: Site,
    flow: &Flow,
    after: Flow,
    ins: &Ins,
) -> Result<Vec<Next>, WantOfMemory>
    requires { IsTrue (can_be_spelled ins.now) }
    ensures { IfOk result (λ next. next.items ≡ goes_to site.at site.length flow.now after ins.now) }
{
    let near = site.at.wrapping_add(site.length);
    match *ins {
        Ins::Jal { offset, .. } => to(alloc, site.at.wrapping_add(offset), after),
        Ins::Jalr { rs1, imm, .. } => {
            if is_return(flow, ins) {
                Ok(Vec::new(alloc))
            } else {
                jumped(alloc, flow.value(rs1), imm, after)
            }
        }
        Ins::Branch {
            op,
            rs1,
            rs2,
            offset,
        } => {
            let places = (site.at.wrapping_add(offset), near);
            branched(alloc, op, (rs1, rs2), places, flow, &after)
        }
        _ => to(alloc, near, after),
    }
}

// An instruction, where so much is known.
fn look_at(
    alloc: Global,
    code: &Banks,
    region: &Region,
    site: Site,
    ins: &Ins,
    flow: &Flow,
) -> Result<Look, WantOfMemory>
    requires { IsTrue (can_be_spelled ins.now) }
    ensures { let after = flow_after code.now.present.rom site.at site.length flow.now ins.now in IfOk result (λ look. look ≡ looked_by (broken_rule region.now flow.now after ins.now) (goes_to site.at site.length flow.now after ins.now)) }
{
    if let Some(why) = rule_before(region, flow, ins) {
        return Ok(Look::refused(alloc, why));
    }
    let mut after = flow.copy(alloc)?;
    change(code, &mut after, site.at, site.length, ins)?;
    if is_bad_pointer(after.value(2)) {
        return Ok(Look::refused(alloc, LintWhy::StackPointer));
    }
    if is_changed(flow, ins) {
        return Ok(Look::refused(alloc, LintWhy::RegisterChanged));
    }
    let next = go_on(alloc, site, flow, after, ins)?;
    Ok(Look::passed(next))
}

/// The first rule that holds at an address of the code, where so much is known; or where it goes on, and
/// what is known there.
pub fn look(
    alloc: Global,
    code: &Banks,
    region: &Region,
    at: u32,
    flow: &Flow,
) -> Result<Look, WantOfMemory>
    ensures { IfOk result (λ look. look ≡ looked code.now.present.rom region.now at flow.now) }
{
    let Some((bits, length)) = code_at(code, at) else {
        return Ok(Look::refused(alloc, LintWhy::CodeOutside));
    };
    match decode_bits(bits, length) {
        Some(ins) => look_at(alloc, code, region, Site { at, length }, &ins, flow),
        None => Ok(Look::refused(alloc, LintWhy::NotSpelled)),
    }
}
