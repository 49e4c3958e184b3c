// From words to instructions.
ghost use Rattle.std.specs.Prelude.{◌≡◌, ◌<◌, Some, ◌↔◌, IsTrue, IsNone, IfSome};
ghost use Rattle.hart_words.specs.Bits.{bits};
ghost use Rattle.rv_encoding.specs.Fields.{rd_of, rs1_of};
ghost use Rattle.rv_encoding.specs.Fits.{can_be_spelled};
ghost use Rattle.rv_encoding.specs.Parts.{part, imm_type};
ghost use Rattle.rv_encoding.specs.Rows.{spelled, Spells};
ghost use Rattle.rv_encoding.specs.declared.instruction.Ins.{Ins};
ghost use Rattle.rv_encoding.specs.declared.instruction.Ins.TheVariants.{Imm};

use crate::fields::{
    immediate_b, immediate_i, immediate_j, immediate_s, immediate_u, rd, rs1, rs2,
};
use crate::function_fields::{branch_op, csr_op, imm_op, load_op, reg_op, store_op};
use crate::instruction::Ins;
use crate::operations::ImmOp;
use hart_words::field;

#[inline]
fn branch(w: u32) -> Option<Ins>
    requires { bits w 0 7 ≡ 0x63 }
    ensures { result ≡ part 0x63 w }
{
    Some(Ins::Branch {
        op: branch_op(w)?,
        rs1: rs1(w),
        rs2: rs2(w),
        offset: immediate_b(w),
    })
}

#[inline]
fn load(w: u32) -> Option<Ins>
    requires { bits w 0 7 ≡ 0x03 }
    ensures { result ≡ part 0x03 w }
{
    Some(Ins::Load {
        op: load_op(w)?,
        rd: rd(w),
        rs1: rs1(w),
        imm: immediate_i(w),
    })
}

#[inline]
fn store(w: u32) -> Option<Ins>
    requires { bits w 0 7 ≡ 0x23 }
    ensures { result ≡ part 0x23 w }
{
    Some(Ins::Store {
        op: store_op(w)?,
        rs1: rs1(w),
        rs2: rs2(w),
        imm: immediate_s(w),
    })
}

// The immediate of the operation: the amount of a shift stands where rs2 does.
#[inline]
fn operand(op: ImmOp, w: u32) -> u32
    ensures { imm_type op w ≡ Imm op (rd_of w) (rs1_of w) result }
{
    match op {
        ImmOp::Slli | ImmOp::Srli | ImmOp::Srai => u32::from(rs2(w)),
        _ => immediate_i(w),
    }
}

#[inline]
fn operation_on_immediate(w: u32) -> Option<Ins>
    requires { bits w 0 7 ≡ 0x13 }
    ensures { result ≡ part 0x13 w }
{
    let op = imm_op(w)?;
    Some(Ins::Imm {
        op,
        rd: rd(w),
        rs1: rs1(w),
        imm: operand(op, w),
    })
}

#[inline]
fn operation_on_registers(w: u32) -> Option<Ins>
    requires { bits w 0 7 ≡ 0x33 }
    ensures { result ≡ part 0x33 w }
{
    Some(Ins::Reg {
        op: reg_op(w)?,
        rd: rd(w),
        rs1: rs1(w),
        rs2: rs2(w),
    })
}

#[inline]
fn csr(w: u32) -> Option<Ins>
    requires opcode { bits w 0 7 ≡ 0x73 }
    requires function { 0 < bits w 12 3 }
    ensures { result ≡ part 0x73 w }
{
    Some(Ins::Csr {
        op: csr_op(w)?,
        rd: rd(w),
        source: rs1(w),
        csr: field(w, 20, 12) as u16,
    })
}

#[tactic(auto, using(crate::proofs::Masks::masks), unfolding(crate::specs::Parts::part, crate::specs::Rows::rows))]
#[inline]
fn system(w: u32) -> Option<Ins>
    requires opcode { bits w 0 7 ≡ 0x73 }
    requires function { bits w 12 3 ≡ 0 }
    ensures { result ≡ part 0x73 w }
{
    match w {
        0x0000_0073 => Some(Ins::Ecall),
        0x0010_0073 => Some(Ins::Ebreak),
        0x3020_0073 => Some(Ins::Mret),
        0x1050_0073 => Some(Ins::Wfi),
        _ => None,
    }
}

#[tactic(auto, using(crate::proofs::Masks::masks), unfolding(crate::specs::Parts::part, crate::specs::Rows::rows))]
#[inline]
fn jump_by_register(w: u32) -> Option<Ins>
    requires { bits w 0 7 ≡ 0x67 }
    ensures { result ≡ part 0x67 w }
{
    match field(w, 12, 3) {
        0 => Some(Ins::Jalr {
            rd: rd(w),
            rs1: rs1(w),
            imm: immediate_i(w),
        }),
        _ => None,
    }
}

#[tactic(auto, using(crate::proofs::Masks::masks), unfolding(crate::specs::Parts::part, crate::specs::Rows::rows))]
#[inline]
fn fence(w: u32) -> Option<Ins>
    requires { bits w 0 7 ≡ 0x0F }
    ensures { result ≡ part 0x0F w }
{
    match field(w, 12, 3) {
        0 => Some(Ins::Fence {
            pred: field(w, 24, 4) as u8,
            succ: field(w, 20, 4) as u8,
        }),
        _ => None,
    }
}

// The instruction of the row that the word is of.
#[tactic(auto, using(crate::proofs::Tops::tops))]
#[inline(always)]
fn row_of(w: u32) -> Option<Ins>
    ensures { result ≡ spelled w }
{
    match field(w, 0, 7) {
        0x37 => Some(Ins::Lui {
            rd: rd(w),
            imm: immediate_u(w),
        }),
        0x17 => Some(Ins::Auipc {
            rd: rd(w),
            imm: immediate_u(w),
        }),
        0x6F => Some(Ins::Jal {
            rd: rd(w),
            offset: immediate_j(w),
        }),
        0x67 => jump_by_register(w),
        0x63 => branch(w),
        0x03 => load(w),
        0x23 => store(w),
        0x13 => operation_on_immediate(w),
        0x33 => operation_on_registers(w),
        0x0F => fence(w),
        0x73 => {
            if field(w, 12, 3) == 0 {
                system(w)
            } else {
                csr(w)
            }
        }
        _ => None,
    }
}

/// The instruction that the word spells.
#[inline(always)]
pub fn decode32(w: u32) -> Option<Ins>
    ensures table { result ≡ spelled w }
    ensures found { (i : Ins) → result ≡ Some i → Spells w i }
    ensures only { (i : Ins) → Spells w i → result ≡ Some i }
    ensures none { IsNone result ↔ ((i : Ins) → ¬ Spells w i) }
    ensures fits { IfSome result (λ i. IsTrue (can_be_spelled i)) }
{
    row_of(w)
}
