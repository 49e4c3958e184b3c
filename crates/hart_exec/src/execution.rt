// From an operation to its effect.
ghost use Rattle.std.specs.Prelude.{◌≡◌, if◌then◌else◌};
ghost use Rattle.std.specs.Option.{option_map};
ghost use Rattle.hart_exec.specs.Effect.{effect, even, go_to};
ghost use Rattle.hart_exec.specs.Operation.{instruction, NamesRegisters};
ghost use Rattle.hart_exec.specs.declared.effect.Effect.TheVariants.{Go, Load, Store};

use crate::arithmetic::{
    divided, divided_unsigned, left_over, left_over_unsigned, less, shifted, upper_mixed,
    upper_signed, upper_unsigned,
};
use crate::effect::Effect;
use crate::operation::{Kind, Operation};
use hart_words::{Regs, signed};

#[inline]
fn go(rd: u8, value: u32, next: u32) -> Effect
    ensures { result ≡ Go rd value next }
{
    Effect::Go { rd, value, next }
}

#[inline]
fn without_bit_0(address: u32) -> u32
    ensures { result ≡ even address }
{
    address & !1
}

// A branch to a target where its condition holds, or to the next instruction.
#[inline]
fn branch(is_taken: bool, target: u32, next: u32) -> Effect
    ensures { result ≡ go_to (if is_taken then target else next) }
{
    go(0, 0, if is_taken { target } else { next })
}

#[inline]
fn load(rd: u8, at: u32, width: u32, signed: bool) -> Effect
    ensures { result ≡ Load rd at width signed }
{
    Effect::Load {
        rd,
        at,
        width,
        signed,
    }
}

#[inline]
fn store(at: u32, width: u32, value: u32) -> Effect
    ensures { result ≡ Store at width value }
{
    Effect::Store { at, width, value }
}

/// What the operation at pc asks for, where it is known. Its length is 2 where a half-word stands for it.
#[inline(always)]
#[tactic(auto, unfolding(crate::specs::Effect::effect))]
pub fn execute(op: &Operation, length: u32, regs: &Regs, pc: u32) -> Option<Effect>
    requires { NamesRegisters op.now }
    ensures { result ≡ option_map (λ i. effect i length regs.now pc) (instruction op.now) }
{
    let next = pc.wrapping_add(length);
    let x = regs.get(op.rs1);
    let y = regs.get(op.rs2);
    match op.kind {
        Kind::Unknown => None,
        Kind::Lui => Some(go(op.rd, op.imm, next)),
        Kind::Auipc => Some(go(op.rd, pc.wrapping_add(op.imm), next)),
        Kind::Jal => Some(go(op.rd, next, pc.wrapping_add(op.imm))),
        Kind::Jalr => Some(go(op.rd, next, without_bit_0(x.wrapping_add(op.imm)))),
        Kind::Beq => Some(branch(x == y, pc.wrapping_add(op.imm), next)),
        Kind::Bne => Some(branch(x != y, pc.wrapping_add(op.imm), next)),
        Kind::Blt => Some(branch(signed(x) < signed(y), pc.wrapping_add(op.imm), next)),
        Kind::Bge => Some(branch(signed(x) >= signed(y), pc.wrapping_add(op.imm), next)),
        Kind::Bltu => Some(branch(x < y, pc.wrapping_add(op.imm), next)),
        Kind::Bgeu => Some(branch(x >= y, pc.wrapping_add(op.imm), next)),
        Kind::Lb => Some(load(op.rd, x.wrapping_add(op.imm), 1, true)),
        Kind::Lh => Some(load(op.rd, x.wrapping_add(op.imm), 2, true)),
        Kind::Lw => Some(load(op.rd, x.wrapping_add(op.imm), 4, false)),
        Kind::Lbu => Some(load(op.rd, x.wrapping_add(op.imm), 1, false)),
        Kind::Lhu => Some(load(op.rd, x.wrapping_add(op.imm), 2, false)),
        Kind::Sb => Some(store(x.wrapping_add(op.imm), 1, y % 0x100)),
        Kind::Sh => Some(store(x.wrapping_add(op.imm), 2, y % 0x1_0000)),
        Kind::Sw => Some(store(x.wrapping_add(op.imm), 4, y)),
        Kind::Addi => Some(go(op.rd, x.wrapping_add(op.imm), next)),
        Kind::Slti => Some(go(op.rd, less(x, op.imm), next)),
        Kind::Sltiu => Some(go(op.rd, u32::from(x < op.imm), next)),
        Kind::Xori => Some(go(op.rd, x ^ op.imm, next)),
        Kind::Ori => Some(go(op.rd, x | op.imm, next)),
        Kind::Andi => Some(go(op.rd, x & op.imm, next)),
        Kind::Slli => Some(go(op.rd, x.wrapping_shl(op.imm), next)),
        Kind::Srli => Some(go(op.rd, x.wrapping_shr(op.imm), next)),
        Kind::Srai => Some(go(op.rd, shifted(x, op.imm), next)),
        Kind::Add => Some(go(op.rd, x.wrapping_add(y), next)),
        Kind::Sub => Some(go(op.rd, x.wrapping_sub(y), next)),
        Kind::Sll => Some(go(op.rd, x.wrapping_shl(y), next)),
        Kind::Slt => Some(go(op.rd, less(x, y), next)),
        Kind::Sltu => Some(go(op.rd, u32::from(x < y), next)),
        Kind::Xor => Some(go(op.rd, x ^ y, next)),
        Kind::Srl => Some(go(op.rd, x.wrapping_shr(y), next)),
        Kind::Sra => Some(go(op.rd, shifted(x, y), next)),
        Kind::Or => Some(go(op.rd, x | y, next)),
        Kind::And => Some(go(op.rd, x & y, next)),
        Kind::Mul => Some(go(op.rd, x.wrapping_mul(y), next)),
        Kind::Mulh => Some(go(op.rd, upper_signed(x, y), next)),
        Kind::Mulhsu => Some(go(op.rd, upper_mixed(x, y), next)),
        Kind::Mulhu => Some(go(op.rd, upper_unsigned(x, y), next)),
        Kind::Div => Some(go(op.rd, divided(x, y), next)),
        Kind::Divu => Some(go(op.rd, divided_unsigned(x, y), next)),
        Kind::Rem => Some(go(op.rd, left_over(x, y), next)),
        Kind::Remu => Some(go(op.rd, left_over_unsigned(x, y), next)),
        Kind::Fence => Some(go(0, 0, next)),
        Kind::Ecall | Kind::Ebreak | Kind::Mret | Kind::Wfi => Some(Effect::System),
        Kind::Csrrw | Kind::Csrrs | Kind::Csrrc => Some(Effect::System),
        Kind::Csrrwi | Kind::Csrrsi | Kind::Csrrci => Some(Effect::System),
    }
}
