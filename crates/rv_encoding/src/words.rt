// The word of each format, from its row's match and its fields.
ghost use Rattle.std.specs.Prelude.{◌≡◌, ◌<◌, ◌≤◌, IsTrue};
ghost use Rattle.rv_encoding.specs.Fits.{is_operand};
ghost use Rattle.rv_encoding.specs.Words.{imm_match, r_word, i_word, s_word, b_word, u_word, j_word, csr_word};

use crate::matches::imm_match;
use crate::operations::ImmOp;
use hart_words::field;

#[inline]
pub(crate) fn word_r(matched: u32, rd: u8, rs1: u8, rs2: u8) -> u32
    requires matched { matched ≤ 0x4000707F }
    requires rd { rd < 32 }
    requires rs1 { rs1 < 32 }
    requires rs2 { rs2 < 32 }
    ensures { result ≡ r_word matched rd rs1 rs2 }
{
    matched + u32::from(rd) * 0x80 + u32::from(rs1) * 0x8000 + u32::from(rs2) * 0x10_0000
}

#[inline]
pub(crate) fn word_i(matched: u32, rd: u8, rs1: u8, imm: u32) -> u32
    requires matched { matched ≤ 0x0000707F }
    requires rd { rd < 32 }
    requires rs1 { rs1 < 32 }
    ensures { result ≡ i_word matched rd rs1 imm }
{
    matched + u32::from(rd) * 0x80 + u32::from(rs1) * 0x8000 + field(imm, 0, 12) * 0x10_0000
}

#[inline]
pub(crate) fn word_s(matched: u32, rs1: u8, rs2: u8, imm: u32) -> u32
    requires matched { matched ≤ 0x0000707F }
    requires rs1 { rs1 < 32 }
    requires rs2 { rs2 < 32 }
    ensures { result ≡ s_word matched rs1 rs2 imm }
{
    let high = field(imm, 5, 7) * 0x200_0000;
    let low = field(imm, 0, 5) * 0x80;
    matched + u32::from(rs1) * 0x8000 + u32::from(rs2) * 0x10_0000 + high + low
}

#[inline]
pub(crate) fn word_b(matched: u32, rs1: u8, rs2: u8, offset: u32) -> u32
    requires matched { matched ≤ 0x0000707F }
    requires rs1 { rs1 < 32 }
    requires rs2 { rs2 < 32 }
    ensures { result ≡ b_word matched rs1 rs2 offset }
{
    let high = field(offset, 12, 1) * 0x8000_0000 + field(offset, 5, 6) * 0x200_0000;
    let low = field(offset, 11, 1) * 0x80 + field(offset, 1, 4) * 0x100;
    matched + u32::from(rs1) * 0x8000 + u32::from(rs2) * 0x10_0000 + high + low
}

#[inline]
pub(crate) fn word_u(matched: u32, rd: u8, imm: u32) -> u32
    requires matched { matched ≤ 0x0000007F }
    requires rd { rd < 32 }
    ensures { result ≡ u_word matched rd imm }
{
    matched + u32::from(rd) * 0x80 + imm / 0x1000 * 0x1000
}

#[inline]
pub(crate) fn word_j(matched: u32, rd: u8, offset: u32) -> u32
    requires matched { matched ≤ 0x0000007F }
    requires rd { rd < 32 }
    ensures { result ≡ j_word matched rd offset }
{
    let high = field(offset, 20, 1) * 0x8000_0000 + field(offset, 1, 10) * 0x20_0000;
    let low = field(offset, 12, 8) * 0x1000 + field(offset, 11, 1) * 0x10_0000;
    matched + u32::from(rd) * 0x80 + high + low
}

#[inline]
pub(crate) fn word_csr(matched: u32, rd: u8, source: u8, csr: u16) -> u32
    requires matched { matched ≤ 0x0000707F }
    requires rd { rd < 32 }
    requires source { source < 32 }
    requires csr { csr < 0x1000 }
    ensures { result ≡ csr_word matched rd source csr }
{
    matched + u32::from(rd) * 0x80 + u32::from(source) * 0x8000 + u32::from(csr) * 0x10_0000
}

// The word of an operation on an immediate. The amount of a shift is below 32, so that its place is rs2's.
#[inline]
pub(crate) fn word_imm(op: ImmOp, rd: u8, rs1: u8, imm: u32) -> u32
    requires rd { rd < 32 }
    requires rs1 { rs1 < 32 }
    requires imm { IsTrue (is_operand op imm) }
    ensures { result ≡ i_word (imm_match op) rd rs1 imm }
{
    imm_match(op) + u32::from(rd) * 0x80 + u32::from(rs1) * 0x8000 + field(imm, 0, 12) * 0x10_0000
}
