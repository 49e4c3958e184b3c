// What each instruction makes of what is known.
ghost use Rattle.std.specs.Prelude.{◌≡◌, ◌<◌, [], IsTrue, OnOk};
ghost use Rattle.rv_encoding.specs.Fits.{can_be_spelled};
ghost use Rattle.hart_exec.specs.Access.{extends_sign as extends_sign_of};
ghost use Rattle.hart_memory.specs.Place.{is_in_rom};
ghost use Rattle.chain_certify.specs.Transfer.{by_width as by_width_of, is_memory as is_memory_of, loaded_value, stored_words, address_of, values_after, words_after, words_kept, flow_after};
ghost use Rattle.chain_certify.specs.Flow.{value_of};
ghost use Rattle.chain_certify.specs.declared.value.Value.TheVariants.{Const as ConstValue};

use crate::flow_state::Flow;
use crate::operations::{with_immediate, with_register};
use crate::value::Value;
use chain_flow::{depth_of, load_width, store_width};
use hart_exec::extend;
use hart_memory::laws::banks_are_whole;
use hart_memory::{BANK_LEN, Banks, RAM_BASE};
use rv_encoding::{Ins, LoadOp};
use std::alloc::AllocError;

fn extends_sign(op: LoadOp) -> bool
    ensures { result ≡ extends_sign_of op }
{
    match op {
        LoadOp::Lb | LoadOp::Lh => true,
        LoadOp::Lw | LoadOp::Lbu | LoadOp::Lhu => false,
    }
}

/// The address of a load or a store.
pub fn address(flow: &Flow, rs1: u8, imm: u32) -> Value
    requires { rs1 < 32 }
    ensures { result ≡ address_of flow.now rs1 imm }
{
    flow.value(rs1).plus(imm)
}

// What a load from ROM or RAM gives by its width alone.
fn by_width(op: LoadOp) -> Value
    ensures { result ≡ by_width_of op }
{
    match op {
        LoadOp::Lbu => Value::Range(0, 0xFF),
        LoadOp::Lhu => Value::Range(0, 0xFFFF),
        LoadOp::Lb | LoadOp::Lh | LoadOp::Lw => Value::Unknown,
    }
}

// So many bytes at each place from the least to the greatest are in ROM or in RAM.
fn is_memory(least: u32, greatest: u32, width: u32) -> bool
    ensures { result ≡ is_memory_of least greatest width }
{
    let end = u64::from(greatest) + u64::from(width);
    end <= u64::from(BANK_LEN)
        || (RAM_BASE <= least && end <= u64::from(RAM_BASE) + u64::from(BANK_LEN))
}

// What a load from a range of addresses gives.
fn loaded_between(op: LoadOp, least: u32, greatest: u32) -> Value
    ensures { result ≡ loaded_value [] [] op (Value.Range least greatest) }
{
    if is_memory(least, greatest, load_width(op)) {
        by_width(op)
    } else {
        Value::Unknown
    }
}

fn is_rom(at: u32, width: u32) -> bool
    ensures { result ≡ is_in_rom at width }
{
    u64::from(at) + u64::from(width) <= u64::from(BANK_LEN)
}

// What a load from an address gives: what stands there in ROM.
fn loaded_at(code: &Banks, op: LoadOp, at: u32) -> Value
    ensures { result ≡ loaded_value code.now.present.rom [] op (ConstValue at) }
{
    let width = load_width(op);
    if is_rom(at, width) {
        banks_are_whole(code);
        return Value::Const(extend(code.load(at, width), width, extends_sign(op)));
    }
    if is_memory(at, at, width) {
        by_width(op)
    } else {
        Value::Unknown
    }
}

// What a load of a stack word gives.
fn loaded_word(flow: &Flow, op: LoadOp, offset: u32) -> Value
    ensures { result ≡ loaded_value [] flow.now.words op (Value.Stack offset) }
{
    if load_width(op) == 4 {
        flow.find(offset).unwrap_or(Value::Unknown)
    } else {
        Value::Unknown
    }
}

// What a load at a place gives.
fn loaded(code: &Banks, flow: &Flow, op: LoadOp, place: Value) -> Value
    ensures { result ≡ loaded_value code.now.present.rom flow.now.words op place }
{
    match place {
        Value::Stack(offset) => loaded_word(flow, op, offset),
        Value::Const(at) => loaded_at(code, op, at),
        Value::Range(least, greatest) => loaded_between(op, least, greatest),
        Value::Entry(_) | Value::Unknown => Value::Unknown,
    }
}

// A store of that width at a place.
fn store(flow: &mut Flow, width: u32, place: Value, value: Value) -> Result<(), AllocError>
    ensures ok { OnOk result (flow.new ≡ record flow.old { words = stored_words flow.old.words width place value }) }
{
    match place {
        Value::Stack(offset) => {
            if width == 4 {
                flow.put(offset, value)
            } else {
                Ok(())
            }
        }
        Value::Entry(_) | Value::Const(_) | Value::Range(_, _) | Value::Unknown => Ok(()),
    }
}

// The stack words after an instruction.
fn change_words(flow: &mut Flow, ins: &Ins) -> Result<(), AllocError>
    requires { IsTrue (can_be_spelled ins.now) }
    ensures ok { OnOk result (flow.new ≡ record flow.old { words = words_after flow.old ins.now }) }
{
    match *ins {
        Ins::Store { op, rs1, rs2, imm } => {
            let place = address(flow, rs1, imm);
            let value = flow.value(rs2);
            store(flow, store_width(op), place, value)
        }
        _ => Ok(()),
    }
}

// The registers after an instruction of that length at an address.
fn change_values(code: &Banks, flow: &mut Flow, at: u32, length: u32, ins: &Ins)
    requires { IsTrue (can_be_spelled ins.now) }
    ensures { flow.new ≡ record flow.old { values = values_after code.now.present.rom at length flow.old ins.now } }
{
    match *ins {
        Ins::Lui { rd, imm } => flow.set(rd, Value::Const(imm)),
        Ins::Auipc { rd, imm } => flow.set(rd, Value::Const(at.wrapping_add(imm))),
        Ins::Jal { rd, .. } | Ins::Jalr { rd, .. } => {
            flow.set(rd, Value::Const(at.wrapping_add(length)))
        }
        Ins::Csr { rd, .. } => flow.set(rd, Value::Unknown),
        Ins::Load { op, rd, rs1, imm } => {
            let value = loaded(code, flow, op, address(flow, rs1, imm));
            flow.set(rd, value);
        }
        Ins::Imm { op, rd, rs1, imm } => {
            let value = with_immediate(op, flow.value(rs1), imm);
            flow.set(rd, value);
        }
        Ins::Reg { op, rd, rs1, rs2 } => {
            let value = with_register(op, rs1, flow.value(rs1), flow.value(rs2));
            flow.set(rd, value);
        }
        Ins::Branch { .. }
        | Ins::Store { .. }
        | Ins::Fence { .. }
        | Ins::Ecall
        | Ins::Ebreak
        | Ins::Mret
        | Ins::Wfi => {}
    }
}

// Forgets the stack words below the stack pointer.
fn forget_words(flow: &mut Flow)
    ensures { flow.new ≡ record flow.old { words = words_kept (value_of flow.old.values 2) flow.old.words } }
{
    match flow.value(2) {
        Value::Stack(sp) => flow.keep_above(depth_of(sp)),
        Value::Entry(_) | Value::Const(_) | Value::Range(_, _) | Value::Unknown => {}
    }
}

/// What is known after an instruction of that length at an address.
pub fn change(
    code: &Banks,
    flow: &mut Flow,
    at: u32,
    length: u32,
    ins: &Ins,
) -> Result<(), AllocError>
    requires { IsTrue (can_be_spelled ins.now) }
    ensures { OnOk result (flow.new ≡ flow_after code.now.present.rom at length flow.old ins.now) }
{
    change_words(flow, ins)?;
    change_values(code, flow, at, length, ins);
    forget_words(flow);
    Ok(())
}
