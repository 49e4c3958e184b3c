// The operation of a word whose opcode has several: by its function fields, it is of one row of the opcode's part of the table, or of none.
#![tactic(auto, using(crate::proofs::Masks::masks), unfolding(crate::specs::Parts::part, crate::specs::Rows::rows))]

ghost use Rattle.std.specs.Prelude.{◌≡◌, ◌<◌, Some, option_map};
ghost use Rattle.hart_words.specs.Bits.{bits};
ghost use Rattle.rv_encoding.specs.Formats.{r_type, i_type, s_type, b_type, csr_type};
ghost use Rattle.rv_encoding.specs.Parts.{part, imm_type};
ghost use Rattle.rv_encoding.specs.declared.instruction.Ins.TheVariants.{Branch, Load, Store, Reg, Csr};

use crate::operations::{BranchOp, CsrOp, ImmOp, LoadOp, RegOp, StoreOp};
use hart_words::field;

#[inline]
pub(crate) fn branch_op(w: u32) -> Option<BranchOp>
    requires { bits w 0 7 ≡ 0x63 }
    ensures { part 0x63 w ≡ option_map (λ op. b_type (Branch op) w) result }
{
    match field(w, 12, 3) {
        0 => Some(BranchOp::Beq),
        1 => Some(BranchOp::Bne),
        4 => Some(BranchOp::Blt),
        5 => Some(BranchOp::Bge),
        6 => Some(BranchOp::Bltu),
        7 => Some(BranchOp::Bgeu),
        _ => None,
    }
}

#[inline]
pub(crate) fn load_op(w: u32) -> Option<LoadOp>
    requires { bits w 0 7 ≡ 0x03 }
    ensures { part 0x03 w ≡ option_map (λ op. i_type (Load op) w) result }
{
    match field(w, 12, 3) {
        0 => Some(LoadOp::Lb),
        1 => Some(LoadOp::Lh),
        2 => Some(LoadOp::Lw),
        4 => Some(LoadOp::Lbu),
        5 => Some(LoadOp::Lhu),
        _ => None,
    }
}

#[inline]
pub(crate) fn store_op(w: u32) -> Option<StoreOp>
    requires { bits w 0 7 ≡ 0x23 }
    ensures { part 0x23 w ≡ option_map (λ op. s_type (Store op) w) result }
{
    match field(w, 12, 3) {
        0 => Some(StoreOp::Sb),
        1 => Some(StoreOp::Sh),
        2 => Some(StoreOp::Sw),
        _ => None,
    }
}

#[inline]
pub(crate) fn csr_op(w: u32) -> Option<CsrOp>
    requires opcode { bits w 0 7 ≡ 0x73 }
    requires function { 0 < bits w 12 3 }
    ensures { part 0x73 w ≡ option_map (λ op. csr_type (Csr op) w) result }
{
    match field(w, 12, 3) {
        1 => Some(CsrOp::Csrrw),
        2 => Some(CsrOp::Csrrs),
        3 => Some(CsrOp::Csrrc),
        5 => Some(CsrOp::Csrrwi),
        6 => Some(CsrOp::Csrrsi),
        7 => Some(CsrOp::Csrrci),
        _ => None,
    }
}

// The operation of a shift or another operation on an immediate.
#[inline]
pub(crate) fn imm_op(w: u32) -> Option<ImmOp>
    requires { bits w 0 7 ≡ 0x13 }
    ensures { part 0x13 w ≡ option_map (λ op. imm_type op w) result }
{
    match field(w, 12, 3) {
        0 => Some(ImmOp::Addi),
        1 => (field(w, 25, 7) == 0).then_some(ImmOp::Slli),
        2 => Some(ImmOp::Slti),
        3 => Some(ImmOp::Sltiu),
        4 => Some(ImmOp::Xori),
        5 => match field(w, 25, 7) {
            0 => Some(ImmOp::Srli),
            0x20 => Some(ImmOp::Srai),
            _ => None,
        },
        6 => Some(ImmOp::Ori),
        _ => Some(ImmOp::Andi),
    }
}

// The operation on two registers of RV32I.
#[inline]
pub(crate) fn base_op(w: u32) -> RegOp
    requires opcode { bits w 0 7 ≡ 0x33 }
    requires function { bits w 25 7 ≡ 0 }
    ensures { part 0x33 w ≡ Some (r_type (Reg result) w) }
{
    match field(w, 12, 3) {
        0 => RegOp::Add,
        1 => RegOp::Sll,
        2 => RegOp::Slt,
        3 => RegOp::Sltu,
        4 => RegOp::Xor,
        5 => RegOp::Srl,
        6 => RegOp::Or,
        _ => RegOp::And,
    }
}

// The operation on two registers of the M extension.
#[inline]
pub(crate) fn multiply_op(w: u32) -> RegOp
    requires opcode { bits w 0 7 ≡ 0x33 }
    requires function { bits w 25 7 ≡ 1 }
    ensures { part 0x33 w ≡ Some (r_type (Reg result) w) }
{
    match field(w, 12, 3) {
        0 => RegOp::Mul,
        1 => RegOp::Mulh,
        2 => RegOp::Mulhsu,
        3 => RegOp::Mulhu,
        4 => RegOp::Div,
        5 => RegOp::Divu,
        6 => RegOp::Rem,
        _ => RegOp::Remu,
    }
}

#[inline]
pub(crate) fn reg_op(w: u32) -> Option<RegOp>
    requires { bits w 0 7 ≡ 0x33 }
    ensures { part 0x33 w ≡ option_map (λ op. r_type (Reg op) w) result }
{
    match field(w, 25, 7) {
        0 => Some(base_op(w)),
        1 => Some(multiply_op(w)),
        0x20 => match field(w, 12, 3) {
            0 => Some(RegOp::Sub),
            5 => Some(RegOp::Sra),
            _ => None,
        },
        _ => None,
    }
}
