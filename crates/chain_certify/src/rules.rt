// The rules at one node.
ghost use Rattle.std.specs.Prelude.{◌≡◌, ◌<◌, ◌||◌, IsTrue};
ghost use Rattle.rv_encoding.specs.Fits.{can_be_spelled};
ghost use Rattle.chain_certify.specs.Flow.{value_of};
ghost use Rattle.chain_certify.specs.Rules.{is_return as is_return_of, is_return_address as is_return_address_of, is_number as is_number_of, is_unknown_target as is_unknown_target_of, is_unknown_address as is_unknown_address_of, is_own_word as is_own_word_of, is_bad_stack as is_bad_stack_of, meets as meets_of, is_bad_far as is_bad_far_of, is_bad_number as is_bad_number_of, access_rules_at, access_rules, is_bad_pointer as is_bad_pointer_of, is_entry as is_entry_of, are_entries as are_entries_of, is_changed as is_changed_of, rules_before, first_why};
ghost use Rattle.chain_flow.specs.Rules.{is_free as is_free_of};

use crate::flow_state::Flow;
use crate::transfer::address;
use crate::value::Value;
use chain_flow::{LintWhy, Region, depth_of, is_free, is_other_system, load_width, store_width};
use chain_moves::slot::{BASE, SLOT_END};
use rv_encoding::Ins;

fn is_return_address(value: Value) -> bool
    ensures { result ≡ is_return_address_of value }
{
    match value {
        Value::Entry(r) => r == 1,
        Value::Const(_) | Value::Stack(_) | Value::Range(_, _) | Value::Unknown => false,
    }
}

/// A jump to what ra began with.
pub fn is_return(flow: &Flow, ins: &Ins) -> bool
    requires { IsTrue (can_be_spelled ins.now) }
    ensures { result ≡ is_return_of flow.now ins.now }
{
    match *ins {
        Ins::Jalr { rd, rs1, imm } => {
            rd == 0 && (imm == 0 && is_return_address(flow.value(rs1)))
        }
        _ => false,
    }
}

fn is_number(value: Value) -> bool
    ensures { result ≡ is_number_of value }
{
    match value {
        Value::Const(_) => true,
        Value::Entry(_) | Value::Stack(_) | Value::Range(_, _) | Value::Unknown => false,
    }
}

// A jump by a register that is neither the return nor to a number.
fn is_unknown_target(flow: &Flow, ins: &Ins) -> bool
    requires { IsTrue (can_be_spelled ins.now) }
    ensures { result ≡ is_unknown_target_of flow.now ins.now }
{
    match *ins {
        Ins::Jalr { rs1, .. } => !(is_return(flow, ins) || is_number(flow.value(rs1))),
        _ => false,
    }
}

fn is_unknown_address(place: Value) -> bool
    ensures { result ≡ is_unknown_address_of place }
{
    match place {
        Value::Const(_) | Value::Range(_, _) | Value::Stack(_) => false,
        Value::Entry(_) | Value::Unknown => true,
    }
}

// A word that is aligned, below the start and not below the stack pointer.
fn is_own_word(pointer: Value, width: u32, offset: u32) -> bool
    ensures { result ≡ is_own_word_of pointer width offset }
{
    match pointer {
        Value::Stack(sp) => {
            let depth = depth_of(offset);
            width == 4 && (depth % 4 == 0 && (depth >= 4 && depth <= depth_of(sp)))
        }
        Value::Entry(_) | Value::Const(_) | Value::Range(_, _) | Value::Unknown => false,
    }
}

// An access to the stack that isn't to a word of its own, or a load of one that wasn't stored.
fn is_bad_stack(flow: &Flow, loads: bool, width: u32, place: Value) -> bool
    ensures { result ≡ is_bad_stack_of flow.now loads width place }
{
    match place {
        Value::Stack(offset) => {
            !is_own_word(flow.value(2), width, offset) || (loads && flow.find(offset).is_none())
        }
        Value::Entry(_) | Value::Const(_) | Value::Range(_, _) | Value::Unknown => false,
    }
}

// The addresses from a to b - 1 have one in common with those from c to d - 1.
fn meets(a: u32, b: u64, c: u32, d: u32) -> bool
    ensures { result ≡ meets_of a b c d }
{
    a < d && u64::from(c) < b
}

// An access from one address to another that may meet the region, or a load that may meet the slot.
fn is_bad_far(region: &Region, loads: bool, width: u32, least: u32, greatest: u32) -> bool
    ensures { result ≡ is_bad_far_of region.now loads width least greatest }
{
    let end = u64::from(greatest) + u64::from(width);
    meets(least, end, region.low, region.high) || (loads && meets(least, end, BASE, SLOT_END))
}

fn is_bad_number(region: &Region, loads: bool, width: u32, place: Value) -> bool
    ensures { result ≡ is_bad_number_of region.now loads width place }
{
    match place {
        Value::Const(at) => is_bad_far(region, loads, width, at, at),
        Value::Range(least, greatest) => is_bad_far(region, loads, width, least, greatest),
        Value::Entry(_) | Value::Stack(_) | Value::Unknown => false,
    }
}

#[tactic(auto, unfolding(chain_flow::specs::Rules::first_why))]
fn access_rule_at(
    region: &Region,
    flow: &Flow,
    loads: bool,
    width: u32,
    place: Value,
) -> Option<LintWhy>
    ensures { result ≡ first_why (access_rules_at region.now flow.now loads width place) }
{
    if is_unknown_address(place) {
        return Some(LintWhy::UnknownAddress);
    }
    if is_bad_stack(flow, loads, width, place) {
        return Some(LintWhy::StackAccess);
    }
    if is_bad_number(region, loads, width, place) {
        return Some(LintWhy::RegionAccess);
    }
    None
}

// The first rule that an access breaks.
#[tactic(auto, unfolding(chain_flow::specs::Rules::first_why))]
fn access_rule(region: &Region, flow: &Flow, ins: &Ins) -> Option<LintWhy>
    requires { IsTrue (can_be_spelled ins.now) }
    ensures { result ≡ first_why (access_rules region.now flow.now ins.now) }
{
    match *ins {
        Ins::Load { op, rs1, imm, .. } => access_rule_at(
            region,
            flow,
            true,
            load_width(op),
            address(flow, rs1, imm),
        ),
        Ins::Store { op, rs1, imm, .. } => access_rule_at(
            region,
            flow,
            false,
            store_width(op),
            address(flow, rs1, imm),
        ),
        _ => None,
    }
}

/// The first rule that holds before the instruction changes what is known.
#[tactic(auto, unfolding(chain_flow::specs::Rules::first_why))]
pub fn rule_before(region: &Region, flow: &Flow, ins: &Ins) -> Option<LintWhy>
    requires { IsTrue (can_be_spelled ins.now) }
    ensures { result ≡ first_why (rules_before region.now flow.now ins.now) }
{
    if is_other_system(ins) {
        return Some(LintWhy::System);
    }
    if is_unknown_target(flow, ins) {
        return Some(LintWhy::UnknownTarget);
    }
    access_rule(region, flow, ins)
}

/// The stack pointer isn't a multiple of 4 at most 4,096 bytes below the start.
pub fn is_bad_pointer(pointer: Value) -> bool
    ensures { result ≡ is_bad_pointer_of pointer }
{
    match pointer {
        Value::Stack(sp) => {
            let depth = depth_of(sp);
            !(depth % 4 == 0 && depth <= 4096)
        }
        Value::Entry(_) | Value::Const(_) | Value::Range(_, _) | Value::Unknown => true,
    }
}

fn is_entry(r: u8, value: Value) -> bool
    ensures { result ≡ is_entry_of r value }
{
    match value {
        Value::Entry(q) => r == q,
        Value::Stack(offset) => r == 2 && offset == 0,
        Value::Const(_) | Value::Range(_, _) | Value::Unknown => false,
    }
}

// A register is free, or it is as it was.
fn is_kept(flow: &Flow, r: u8) -> bool
    requires { r < 32 }
    ensures { result ≡ (is_free_of r || is_entry_of r (value_of flow.now.values r)) }
{
    is_free(r) || is_entry(r, flow.value(r))
}

// Each register that isn't free is as it was.
fn are_entries(flow: &Flow) -> bool
    ensures { result ≡ are_entries_of flow.now.values 32 }
{
    for r in 0..32 {
        if !is_kept(flow, r) {
            return false;
        }
    }
    true
}

/// A return, and a register isn't as it was.
pub fn is_changed(flow: &Flow, ins: &Ins) -> bool
    requires { IsTrue (can_be_spelled ins.now) }
    ensures { result ≡ is_changed_of flow.now ins.now }
{
    match *ins {
        Ins::Jalr { .. } => is_return(flow, ins) && !are_entries(flow),
        _ => false,
    }
}
