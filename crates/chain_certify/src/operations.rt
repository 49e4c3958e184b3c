// What operations on two values give.
ghost use Rattle.std.specs.Prelude.{◌≡◌, ◌^◌, ◌%◌};
ghost use Rattle.hart_exec.specs.Arithmetic.{register_result};
ghost use Rattle.chain_certify.specs.Transfer.{by_bounds as by_bounds_of, computed as computed_of, added as added_of, sum_value as sum_of, immediate_value};
ghost use Rattle.hart_exec.specs.Arithmetic.{on_registers as on_registers_of};
ghost use Rattle.rv_encoding.specs.declared.operations.RegOp.TheVariants.{Remu, Sll, Srl};

use crate::value::{Value, ranged, wrapped_range};
use hart_exec::{Effect, execute, operation_of};
use hart_words::Regs;
use rv_encoding::{ImmOp, Ins, RegOp};

// What the operation gives for two words.
#[tactic(auto, unfolding(hart_exec::specs::Effect::effect))]
fn result_of(op: RegOp, x: u32, y: u32) -> u32
    ensures { result ≡ register_result op x y }
{
    let mut regs = Regs::new();
    regs.set(1, x);
    regs.set(2, y);
    let ins = Ins::Reg {
        op,
        rd: 1,
        rs1: 1,
        rs2: 2,
    };
    match execute(&operation_of(&ins), 4, &regs, 0) {
        Some(Effect::Go { value, .. }) => value,
        _ => unreachable!(),
    }
}

// The word of a remainder.
fn remainder(u: Value) -> Value
    ensures { result ≡ by_bounds_of Remu Value.Unknown u }
{
    if u.low() >= 1 {
        ranged(0, u.high().saturating_sub(1))
    } else {
        Value::Unknown
    }
}

// What a shift to the left by so many bits multiplies by.
fn power(bits: u32) -> u32
    ensures { result ≡ 2 ^ (bits % 32) }
{
    1u32.wrapping_shl(bits)
}

// A shift to the left.
fn shifted_left(v: Value, u: Value) -> Value
    ensures { result ≡ by_bounds_of Sll v u }
{
    match u {
        Value::Const(c) => wrapped_range(
            u64::from(v.low()) * u64::from(power(c)),
            u64::from(v.high()) * u64::from(power(c)),
        ),
        Value::Entry(_) | Value::Stack(_) | Value::Range(_, _) | Value::Unknown => Value::Unknown,
    }
}

// A shift to the right.
fn shifted_right(v: Value, u: Value) -> Value
    ensures { result ≡ by_bounds_of Srl v u }
{
    match u {
        Value::Const(c) => ranged(v.low() >> (c % 32), v.high() >> (c % 32)),
        Value::Entry(_) | Value::Stack(_) | Value::Range(_, _) | Value::Unknown => Value::Unknown,
    }
}

// By the least and the greatest of both operands.
fn by_bounds(op: RegOp, v: Value, u: Value) -> Value
    ensures { result ≡ by_bounds_of op v u }
{
    let (a, b) = (u64::from(v.low()), u64::from(v.high()));
    let (c, d) = (u64::from(u.low()), u64::from(u.high()));
    match op {
        RegOp::Add => wrapped_range(a + c, b + d),
        RegOp::Sub => wrapped_range(a + 0x1_0000_0000 - d, b + 0x1_0000_0000 - c),
        RegOp::Mul => wrapped_range(a * c, b * d),
        RegOp::And => ranged(0, v.high().min(u.high())),
        RegOp::Slt | RegOp::Sltu => Value::Range(0, 1),
        RegOp::Remu => remainder(u),
        RegOp::Sll => shifted_left(v, u),
        RegOp::Srl => shifted_right(v, u),
        RegOp::Xor
        | RegOp::Sra
        | RegOp::Or
        | RegOp::Mulh
        | RegOp::Mulhsu
        | RegOp::Mulhu
        | RegOp::Div
        | RegOp::Divu
        | RegOp::Rem => Value::Unknown,
    }
}

// Of a number and a value.
fn computed_with(op: RegOp, c: u32, u: Value) -> Value
    ensures { result ≡ computed_of op (Value.Const c) u }
{
    match u {
        Value::Const(d) => Value::Const(result_of(op, c, d)),
        Value::Entry(_) | Value::Stack(_) | Value::Range(_, _) | Value::Unknown => {
            by_bounds(op, Value::Const(c), u)
        }
    }
}

// Of two numbers it is the operation's own result.
fn computed(op: RegOp, v: Value, u: Value) -> Value
    ensures { result ≡ computed_of op v u }
{
    match v {
        Value::Const(c) => computed_with(op, c, u),
        Value::Entry(_) | Value::Stack(_) | Value::Range(_, _) | Value::Unknown => {
            by_bounds(op, v, u)
        }
    }
}

fn on_registers(op: ImmOp) -> RegOp
    ensures { result ≡ on_registers_of op }
{
    match op {
        ImmOp::Addi => RegOp::Add,
        ImmOp::Slti => RegOp::Slt,
        ImmOp::Sltiu => RegOp::Sltu,
        ImmOp::Xori => RegOp::Xor,
        ImmOp::Ori => RegOp::Or,
        ImmOp::Andi => RegOp::And,
        ImmOp::Slli => RegOp::Sll,
        ImmOp::Srli => RegOp::Srl,
        ImmOp::Srai => RegOp::Sra,
    }
}

/// What an operation on a value and an immediate gives.
pub fn with_immediate(op: ImmOp, v: Value, imm: u32) -> Value
    ensures { result ≡ immediate_value op v imm }
{
    match op {
        ImmOp::Addi => v.plus(imm),
        _ => computed(on_registers(op), v, Value::Const(imm)),
    }
}

// A sum whose second operand is a number adds it to the stack pointer too, and one of x0 copies.
fn added(rs1: u8, v: Value, u: Value) -> Value
    ensures { result ≡ added_of rs1 v u }
{
    match u {
        Value::Const(c) => { if rs1 == 0 { Value::Const(c) } else { v.plus(c) } }
        Value::Entry(_) | Value::Stack(_) | Value::Range(_, _) | Value::Unknown => {
            if rs1 == 0 {
                u
            } else {
                by_bounds(RegOp::Add, v, u)
            }
        }
    }
}

/// What an operation on two values gives, of which the first is that of a register.
pub fn with_register(op: RegOp, rs1: u8, v: Value, u: Value) -> Value
    ensures { result ≡ sum_of op rs1 v u }
{
    match op {
        RegOp::Add => added(rs1, v, u),
        _ => computed(op, v, u),
    }
}
