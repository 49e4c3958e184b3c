// From instructions to words.
ghost use Rattle.std.specs.Prelude.{◌≡◌, ℕ, ◌<◌, ◌^◌, IsTrue};
ghost use Rattle.rv_encoding.specs.Fits.{can_be_spelled};
ghost use Rattle.rv_encoding.specs.Rows.{Spells, IsCanonical};
ghost use Rattle.rv_encoding.specs.Words.{word_of};

use crate::instruction::Ins;
use crate::matches::{branch_match, csr_match, load_match, reg_match, store_match};
use crate::words::{word_b, word_csr, word_i, word_imm, word_j, word_r, word_s, word_u};

#[tactic(auto, unfolding(crate::specs::Words::word_of))]
#[inline]
fn encoded(i: &Ins) -> u32
    requires { IsTrue (can_be_spelled i.now) }
    ensures { result ≡ word_of i.now }
{
    match *i {
        Ins::Lui { rd, imm } => word_u(0x0000_0037, rd, imm),
        Ins::Auipc { rd, imm } => word_u(0x0000_0017, rd, imm),
        Ins::Jal { rd, offset } => word_j(0x0000_006F, rd, offset),
        Ins::Jalr { rd, rs1, imm } => word_i(0x0000_0067, rd, rs1, imm),
        Ins::Branch {
            op,
            rs1,
            rs2,
            offset,
        } => word_b(branch_match(op), rs1, rs2, offset),
        Ins::Load { op, rd, rs1, imm } => word_i(load_match(op), rd, rs1, imm),
        Ins::Store { op, rs1, rs2, imm } => word_s(store_match(op), rs1, rs2, imm),
        Ins::Imm { op, rd, rs1, imm } => word_imm(op, rd, rs1, imm),
        Ins::Reg { op, rd, rs1, rs2 } => word_r(reg_match(op), rd, rs1, rs2),
        Ins::Fence { pred, succ } => {
            0x0000_000F + u32::from(pred) * 0x100_0000 + u32::from(succ) * 0x10_0000
        }
        Ins::Ecall => 0x0000_0073,
        Ins::Ebreak => 0x0010_0073,
        Ins::Mret => 0x3020_0073,
        Ins::Wfi => 0x1050_0073,
        Ins::Csr {
            op,
            rd,
            source,
            csr,
        } => word_csr(csr_match(op), rd, source, csr),
    }
}

/// The word that spells the instruction, with 0 in each ignored field.
pub fn encode32(i: &Ins) -> u32
    requires { IsTrue (can_be_spelled i.now) }
    ensures word { result ≡ word_of i.now }
    ensures spells { Spells result i.now }
    ensures canonical { IsCanonical result }
    ensures only { (w : ℕ) → w < 2 ^ 32 → Spells w i.now → IsCanonical w → w ≡ result }
{
    encoded(i)
}
