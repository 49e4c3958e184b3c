// What each instruction makes of what is known.
ghost use Rattle.std.specs.Prelude.{◌≡◌, ◌<◌, IsTrue, OnOk};
ghost use Rattle.rv_encoding.specs.Fits.{can_be_spelled};
ghost use Rattle.hart_exec.specs.Access.{load_width as load_width_of, store_width as store_width_of};
ghost use Rattle.chain_flow.specs.Transfer.{immediate_value, sum_value, loaded_value, stored_words, address_of, values_after, words_after, words_kept, flow_after};
ghost use Rattle.chain_flow.specs.Flow.{value_of};

use crate::flow_state::Flow;
use crate::value::{Value, depth_of};
use rv_encoding::{ImmOp, Ins, LoadOp, RegOp, StoreOp};
use std::alloc::AllocError;

/// How many bytes a load reads.
pub fn load_width(op: LoadOp) -> u32
    ensures { result ≡ load_width_of op }
{
    match op {
        LoadOp::Lb | LoadOp::Lbu => 1,
        LoadOp::Lh | LoadOp::Lhu => 2,
        LoadOp::Lw => 4,
    }
}

/// How many bytes a store writes.
pub fn store_width(op: StoreOp) -> u32
    ensures { result ≡ store_width_of op }
{
    match op {
        StoreOp::Sb => 1,
        StoreOp::Sh => 2,
        StoreOp::Sw => 4,
    }
}

fn immediate(op: ImmOp, value: Value, imm: u32) -> Value
    ensures { result ≡ immediate_value op value imm }
{
    match op {
        ImmOp::Addi => value.plus(imm),
        ImmOp::Slti
        | ImmOp::Sltiu
        | ImmOp::Xori
        | ImmOp::Ori
        | ImmOp::Andi
        | ImmOp::Slli
        | ImmOp::Srli
        | ImmOp::Srai => Value::Unknown,
    }
}

fn sum(op: RegOp, rs1: u8, value: Value) -> Value
    ensures { result ≡ sum_value op rs1 value }
{
    match op {
        RegOp::Add => { if rs1 == 0 { value } else { Value::Unknown } }
        RegOp::Sub
        | RegOp::Sll
        | RegOp::Slt
        | RegOp::Sltu
        | RegOp::Xor
        | RegOp::Srl
        | RegOp::Sra
        | RegOp::Or
        | RegOp::And
        | RegOp::Mul
        | RegOp::Mulh
        | RegOp::Mulhsu
        | RegOp::Mulhu
        | RegOp::Div
        | RegOp::Divu
        | RegOp::Rem
        | RegOp::Remu => Value::Unknown,
    }
}

/// The address of a load or a store.
pub fn address(flow: &Flow, rs1: u8, imm: u32) -> Value
    requires { rs1 < 32 }
    ensures { result ≡ address_of flow.now rs1 imm }
{
    flow.value(rs1).plus(imm)
}

// What a load of that width at a place gives.
fn loaded(flow: &Flow, width: u32, place: Value) -> Value
    ensures { result ≡ loaded_value flow.now.words width place }
{
    match place {
        Value::Stack(offset) => {
            if width == 4 {
                flow.find(offset).unwrap_or(Value::Unknown)
            } else {
                Value::Unknown
            }
        }
        Value::Entry(_) | Value::Const(_) | Value::Unknown => Value::Unknown,
    }
}

// A store of that width at a place.
fn store(flow: &mut Flow, width: u32, place: Value, value: Value) -> Result<(), AllocError>
    ensures ok { OnOk result (flow.new ≡ record flow.old { words = stored_words flow.old.words width place value }) }
{
    match place {
        Value::Stack(offset) => {
            if width == 4 {
                flow.put(offset, value)
            } else {
                Ok(())
            }
        }
        Value::Entry(_) | Value::Const(_) | Value::Unknown => Ok(()),
    }
}

// The stack words after an instruction.
fn change_words(flow: &mut Flow, ins: &Ins) -> Result<(), AllocError>
    requires { IsTrue (can_be_spelled ins.now) }
    ensures ok { OnOk result (flow.new ≡ record flow.old { words = words_after flow.old ins.now }) }
{
    match *ins {
        Ins::Store { op, rs1, rs2, imm } => {
            let place = address(flow, rs1, imm);
            let value = flow.value(rs2);
            store(flow, store_width(op), place, value)
        }
        _ => Ok(()),
    }
}

// The registers after an instruction of that length at an address.
fn change_values(flow: &mut Flow, at: u32, length: u32, ins: &Ins)
    requires { IsTrue (can_be_spelled ins.now) }
    ensures { flow.new ≡ record flow.old { values = values_after at length flow.old ins.now } }
{
    match *ins {
        Ins::Lui { rd, imm } => flow.set(rd, Value::Const(imm)),
        Ins::Auipc { rd, imm } => flow.set(rd, Value::Const(at.wrapping_add(imm))),
        Ins::Jal { rd, .. } => flow.set(rd, Value::Const(at.wrapping_add(length))),
        Ins::Jalr { rd, .. } | Ins::Csr { rd, .. } => flow.set(rd, Value::Unknown),
        Ins::Load { op, rd, rs1, imm } => {
            let value = loaded(flow, load_width(op), address(flow, rs1, imm));
            flow.set(rd, value);
        }
        Ins::Imm { op, rd, rs1, imm } => {
            let value = immediate(op, flow.value(rs1), imm);
            flow.set(rd, value);
        }
        Ins::Reg { op, rd, rs1, rs2 } => {
            let value = sum(op, rs1, flow.value(rs2));
            flow.set(rd, value);
        }
        Ins::Branch { .. }
        | Ins::Store { .. }
        | Ins::Fence { .. }
        | Ins::Ecall
        | Ins::Ebreak
        | Ins::Mret
        | Ins::Wfi => {}
    }
}

// Forgets the stack words below the stack pointer.
fn forget_words(flow: &mut Flow)
    ensures { flow.new ≡ record flow.old { words = words_kept (value_of flow.old.values 2) flow.old.words } }
{
    match flow.value(2) {
        Value::Stack(sp) => flow.keep_above(depth_of(sp)),
        Value::Entry(_) | Value::Const(_) | Value::Unknown => {}
    }
}

/// What is known after an instruction of that length at an address.
pub fn change(flow: &mut Flow, at: u32, length: u32, ins: &Ins) -> Result<(), AllocError>
    requires { IsTrue (can_be_spelled ins.now) }
    ensures { OnOk result (flow.new ≡ flow_after at length flow.old ins.now) }
{
    change_words(flow, ins)?;
    change_values(flow, at, length, ins);
    forget_words(flow);
    Ok(())
}
