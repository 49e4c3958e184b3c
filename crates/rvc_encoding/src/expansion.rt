// What compressed instructions stand for.
ghost use Rattle.std.specs.Prelude.{◌≡◌, IsTrue};
ghost use Rattle.rv_encoding.specs.Fits.{can_be_spelled};
ghost use Rattle.rv_encoding.specs.declared.instruction.Ins.TheVariants.{Imm, Reg, Load, Store, Branch, Jalr};
ghost use Rattle.rv_encoding.specs.declared.operations.LoadOp.TheVariants.{Lw};
ghost use Rattle.rv_encoding.specs.declared.operations.StoreOp.TheVariants.{Sw};
ghost use Rattle.rvc_encoding.specs.Fits.{fits_row};
ghost use Rattle.rvc_encoding.specs.Expansion.{expansion};

use crate::compressed::Cins;
use crate::row::CRow;
use rv_encoding::{BranchOp, ImmOp, Ins, LoadOp, RegOp, StoreOp};

fn imm_ins(op: ImmOp, rd: u8, rs1: u8, imm: u32) -> Ins
    ensures { result ≡ Imm op rd rs1 imm }
{
    Ins::Imm { op, rd, rs1, imm }
}

fn reg_ins(op: RegOp, rd: u8, rs1: u8, rs2: u8) -> Ins
    ensures { result ≡ Reg op rd rs1 rs2 }
{
    Ins::Reg { op, rd, rs1, rs2 }
}

fn load_word(rd: u8, rs1: u8, imm: u32) -> Ins
    ensures { result ≡ Load Lw rd rs1 imm }
{
    Ins::Load {
        op: LoadOp::Lw,
        rd,
        rs1,
        imm,
    }
}

fn store_word(rs1: u8, rs2: u8, imm: u32) -> Ins
    ensures { result ≡ Store Sw rs1 rs2 imm }
{
    Ins::Store {
        op: StoreOp::Sw,
        rs1,
        rs2,
        imm,
    }
}

fn branch_on(op: BranchOp, rs1: u8, offset: u32) -> Ins
    ensures { result ≡ Branch op rs1 0 offset }
{
    Ins::Branch {
        op,
        rs1,
        rs2: 0,
        offset,
    }
}

fn jump_by_register(rd: u8, rs1: u8) -> Ins
    ensures { result ≡ Jalr rd rs1 0 }
{
    Ins::Jalr { rd, rs1, imm: 0 }
}

#[tactic(auto, unfolding(crate::specs::Expansion::expansion))]
fn expanded(c: &Cins) -> Ins
    ensures { result ≡ expansion c.now }
{
    let Cins { row, a, b, imm } = *c;
    match row {
        CRow::Addi4spn => imm_ins(ImmOp::Addi, a, b, imm),
        CRow::Lw => load_word(a, b, imm),
        CRow::Sw => store_word(a, b, imm),
        CRow::Nop => imm_ins(ImmOp::Addi, 0, 0, imm),
        CRow::Addi => imm_ins(ImmOp::Addi, a, a, imm),
        CRow::Jal => Ins::Jal { rd: 1, offset: imm },
        CRow::Li => imm_ins(ImmOp::Addi, a, 0, imm),
        CRow::Addi16sp => imm_ins(ImmOp::Addi, a, a, imm),
        CRow::Lui => Ins::Lui { rd: a, imm },
        CRow::Srli => imm_ins(ImmOp::Srli, a, a, imm),
        CRow::Srai => imm_ins(ImmOp::Srai, a, a, imm),
        CRow::Andi => imm_ins(ImmOp::Andi, a, a, imm),
        CRow::Sub => reg_ins(RegOp::Sub, a, a, b),
        CRow::Xor => reg_ins(RegOp::Xor, a, a, b),
        CRow::Or => reg_ins(RegOp::Or, a, a, b),
        CRow::And => reg_ins(RegOp::And, a, a, b),
        CRow::J => Ins::Jal { rd: 0, offset: imm },
        CRow::Beqz => branch_on(BranchOp::Beq, a, imm),
        CRow::Bnez => branch_on(BranchOp::Bne, a, imm),
        CRow::Slli => imm_ins(ImmOp::Slli, a, a, imm),
        CRow::Lwsp => load_word(a, b, imm),
        CRow::Jr => jump_by_register(0, a),
        CRow::Mv => reg_ins(RegOp::Add, a, 0, b),
        CRow::Ebreak => Ins::Ebreak,
        CRow::Jalr => jump_by_register(1, a),
        CRow::Add => reg_ins(RegOp::Add, a, a, b),
        CRow::Swsp => store_word(a, b, imm),
    }
}

/// The 32-bit instruction that does the same.
pub fn expand(c: &Cins) -> Ins
    requires { IsTrue (fits_row c.now) }
    ensures value { result ≡ expansion c.now }
    ensures fits { IsTrue (can_be_spelled result) }
{
    expanded(c)
}
