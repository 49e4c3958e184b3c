// Which instructions some word spells.
ghost use Rattle.std.specs.Prelude.{◌≡◌, ℕ, ◌<◌, ◌≤◌, ◌^◌, ◌↔◌, IsTrue};
ghost use Rattle.rv_encoding.specs.Fits.{can_be_spelled, is_signed, is_offset, is_operand};
ghost use Rattle.rv_encoding.specs.Rows.{Spells};

use crate::instruction::Ins;
use crate::operations::ImmOp;
use hart_words::sign;

fn is_signed_number(imm: u32, bits: u32) -> bool
    requires some { 1 ≤ bits }
    requires inside { bits < 32 }
    ensures { result ≡ is_signed imm bits }
{
    sign(imm % (1 << bits), bits) == imm
}

fn is_jump_offset(offset: u32, bits: u32) -> bool
    requires some { 1 ≤ bits }
    requires inside { bits < 32 }
    ensures { result ≡ is_offset offset bits }
{
    is_signed_number(offset, bits) && offset % 2 == 0
}

fn is_operand_of(op: ImmOp, imm: u32) -> bool
    ensures { result ≡ is_operand op imm }
{
    match op {
        ImmOp::Slli | ImmOp::Srli | ImmOp::Srai => imm < 32,
        _ => is_signed_number(imm, 12),
    }
}

/// Whether some word spells the instruction.
pub fn fits(i: &Ins) -> bool
    ensures value { result ≡ can_be_spelled i.now }
    ensures spelled { IsTrue result ↔ ((w : ℕ) × (w < 2 ^ 32) × Spells w i.now) }
{
    hold_their_values(i)
}

// Whether each field holds its value.
fn hold_their_values(i: &Ins) -> bool
    ensures { result ≡ can_be_spelled i.now }
{
    match *i {
        Ins::Lui { rd, imm } | Ins::Auipc { rd, imm } => rd < 32 && imm % 0x1000 == 0,
        Ins::Jal { rd, offset } => rd < 32 && is_jump_offset(offset, 21),
        Ins::Jalr { rd, rs1, imm } | Ins::Load { rd, rs1, imm, .. } => {
            rd < 32 && rs1 < 32 && is_signed_number(imm, 12)
        }
        Ins::Branch {
            rs1,
            rs2,
            offset,
            ..
        } => rs1 < 32 && rs2 < 32 && is_jump_offset(offset, 13),
        Ins::Store { rs1, rs2, imm, .. } => rs1 < 32 && rs2 < 32 && is_signed_number(imm, 12),
        Ins::Imm { op, rd, rs1, imm } => rd < 32 && rs1 < 32 && is_operand_of(op, imm),
        Ins::Reg { rd, rs1, rs2, .. } => rd < 32 && rs1 < 32 && rs2 < 32,
        Ins::Fence { pred, succ } => pred < 16 && succ < 16,
        Ins::Ecall | Ins::Ebreak | Ins::Mret | Ins::Wfi => true,
        Ins::Csr {
            rd,
            source,
            csr,
            ..
        } => rd < 32 && source < 32 && csr < 0x1000,
    }
}
