// The rules at one address.
ghost use Rattle.std.specs.Prelude.{◌≡◌, ◌<◌, ◌||◌, ◌&&◌, ◌==◌, nat_le, IsTrue};
ghost use Rattle.rv_encoding.specs.Fits.{can_be_spelled};
ghost use Rattle.chain_moves.specs.Bytes.{some_byte};
ghost use Rattle.chain_flow.specs.Flow.{value_of, found, depth};
ghost use Rattle.chain_flow.specs.Rules.{is_other_system as is_other_system_of, goes_back as goes_back_of, is_return as is_return_of, is_return_address as is_return_address_of, is_unknown_target as is_unknown_target_of, is_unknown_address as is_unknown_address_of, is_own_word as is_own_word_of, is_absent, is_bad_stack as is_bad_stack_of, is_bad_const as is_bad_const_of, access_rules_at, access_rules, is_bad_pointer as is_bad_pointer_of, is_free as is_free_of, is_entry as is_entry_of, are_entries as are_entries_of, is_changed as is_changed_of, rules_before, first_why};

use crate::flow_state::Flow;
use crate::lint_why::LintWhy;
use crate::places::{meets, meets_slot};
use crate::region::Region;
use crate::transfer::{address, load_width, store_width};
use crate::value::{Value, depth_of};
use rv_encoding::Ins;

/// A system instruction that isn't WFI.
pub fn is_other_system(ins: &Ins) -> bool
    ensures { result ≡ is_other_system_of ins.now }
{
    match *ins {
        Ins::Ecall | Ins::Ebreak | Ins::Mret | Ins::Csr { .. } => true,
        _ => false,
    }
}

// A jump or a branch may go to its own address or a lower one.
fn goes_back(at: u32, ins: &Ins) -> bool
    ensures { result ≡ goes_back_of at ins.now }
{
    match *ins {
        Ins::Jal { offset, .. } | Ins::Branch { offset, .. } => at.wrapping_add(offset) <= at,
        _ => false,
    }
}

fn is_return_address(value: Value) -> bool
    ensures { result ≡ is_return_address_of value }
{
    match value {
        Value::Entry(r) => r == 1,
        Value::Const(_) | Value::Stack(_) | Value::Unknown => false,
    }
}

// A jump by a register that isn't the return.
fn is_unknown_target(flow: &Flow, ins: &Ins) -> bool
    requires { IsTrue (can_be_spelled ins.now) }
    ensures { result ≡ is_unknown_target_of flow.now ins.now }
{
    match *ins {
        Ins::Jalr { rd, rs1, imm } => {
            !(rd == 0 && (imm == 0 && is_return_address(flow.value(rs1))))
        }
        _ => false,
    }
}

fn is_unknown_address(place: Value) -> bool
    ensures { result ≡ is_unknown_address_of place }
{
    match place {
        Value::Const(_) | Value::Stack(_) => false,
        Value::Entry(_) | Value::Unknown => true,
    }
}

// A word that is aligned, below the start and not below the stack pointer.
fn is_own_word(pointer: Value, width: u32, offset: u32) -> bool
    ensures { result ≡ is_own_word_of pointer width offset }
{
    match pointer {
        Value::Stack(sp) => {
            let depth = depth_of(offset);
            width == 4 && (depth % 4 == 0 && (depth >= 4 && depth <= depth_of(sp)))
        }
        Value::Entry(_) | Value::Const(_) | Value::Unknown => false,
    }
}

// An access to the stack that isn't to a word of its own, or a load of one that wasn't stored.
fn is_bad_stack(flow: &Flow, loads: bool, width: u32, place: Value) -> bool
    ensures { result ≡ is_bad_stack_of flow.now loads width place }
{
    match place {
        Value::Stack(offset) => {
            !is_own_word(flow.value(2), width, offset) || (loads && flow.find(offset).is_none())
        }
        Value::Entry(_) | Value::Const(_) | Value::Unknown => false,
    }
}

// An access by a number that meets the region, or a load from the slot.
fn is_bad_const(region: &Region, loads: bool, width: u32, place: Value) -> bool
    ensures { result ≡ is_bad_const_of region.now loads width place }
{
    match place {
        Value::Const(at) => meets(region, at, width) || (loads && meets_slot(at, width)),
        Value::Entry(_) | Value::Stack(_) | Value::Unknown => false,
    }
}

#[tactic(auto, unfolding(crate::specs::Rules::first_why))]
fn access_rule_at(
    region: &Region,
    flow: &Flow,
    loads: bool,
    width: u32,
    place: Value,
) -> Option<LintWhy>
    ensures { result ≡ first_why (access_rules_at region.now flow.now loads width place) }
{
    if is_unknown_address(place) {
        return Some(LintWhy::UnknownAddress);
    }
    if is_bad_stack(flow, loads, width, place) {
        return Some(LintWhy::StackAccess);
    }
    if is_bad_const(region, loads, width, place) {
        return Some(LintWhy::RegionAccess);
    }
    None
}

// The first rule that an access breaks.
#[tactic(auto, unfolding(crate::specs::Rules::first_why))]
fn access_rule(region: &Region, flow: &Flow, ins: &Ins) -> Option<LintWhy>
    requires { IsTrue (can_be_spelled ins.now) }
    ensures { result ≡ first_why (access_rules region.now flow.now ins.now) }
{
    match *ins {
        Ins::Load { op, rs1, imm, .. } => access_rule_at(
            region,
            flow,
            true,
            load_width(op),
            address(flow, rs1, imm),
        ),
        Ins::Store { op, rs1, imm, .. } => access_rule_at(
            region,
            flow,
            false,
            store_width(op),
            address(flow, rs1, imm),
        ),
        _ => None,
    }
}

/// The first rule that holds before the instruction changes what is known.
#[tactic(auto, unfolding(crate::specs::Rules::first_why))]
pub fn rule_before(region: &Region, at: u32, flow: &Flow, ins: &Ins) -> Option<LintWhy>
    requires { IsTrue (can_be_spelled ins.now) }
    ensures { result ≡ first_why (rules_before region.now at flow.now ins.now) }
{
    if is_other_system(ins) {
        return Some(LintWhy::System);
    }
    if goes_back(at, ins) {
        return Some(LintWhy::Backwards);
    }
    if is_unknown_target(flow, ins) {
        return Some(LintWhy::UnknownTarget);
    }
    access_rule(region, flow, ins)
}

/// The stack pointer isn't a multiple of 4 at most 4,096 bytes below the start.
pub fn is_bad_pointer(pointer: Value) -> bool
    ensures { result ≡ is_bad_pointer_of pointer }
{
    match pointer {
        Value::Stack(sp) => {
            let depth = depth_of(sp);
            !(depth % 4 == 0 && depth <= 4096)
        }
        Value::Entry(_) | Value::Const(_) | Value::Unknown => true,
    }
}

/// The registers that a handler may change.
pub fn is_free(r: u8) -> bool
    ensures { result ≡ is_free_of r }
{
    r == 0 || (r == 1 || (r == 10 || r == 11))
}

fn is_entry(r: u8, value: Value) -> bool
    ensures { result ≡ is_entry_of r value }
{
    match value {
        Value::Entry(q) => r == q,
        Value::Stack(offset) => r == 2 && offset == 0,
        Value::Const(_) | Value::Unknown => false,
    }
}

// A register is free, or it is as it was.
fn is_kept(flow: &Flow, r: u8) -> bool
    requires { r < 32 }
    ensures { result ≡ (is_free_of r || is_entry_of r (value_of flow.now.values r)) }
{
    is_free(r) || is_entry(r, flow.value(r))
}

// Each register that isn't free is as it was.
fn are_entries(flow: &Flow) -> bool
    ensures { result ≡ are_entries_of flow.now.values 32 }
{
    for r in 0..32 {
        if !is_kept(flow, r) {
            return false;
        }
    }
    true
}

/// A return, and a register isn't as it was.
pub fn is_changed(flow: &Flow, ins: &Ins) -> bool
    ensures { result ≡ is_changed_of flow.now ins.now }
{
    match *ins {
        Ins::Jalr { .. } => !are_entries(flow),
        _ => false,
    }
}
