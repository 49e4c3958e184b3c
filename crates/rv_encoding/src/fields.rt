// The fields of an instruction word, and its immediate in each format.
ghost use Rattle.std.specs.Prelude.{◌≡◌};
ghost use Rattle.rv_encoding.specs.Fields.{rd_of, rs1_of, rs2_of, i_immediate, s_immediate, b_immediate, u_immediate, j_immediate};

use hart_words::{field, sign};

#[inline]
pub(crate) fn rd(w: u32) -> u8
    ensures { result ≡ rd_of w }
{
    field(w, 7, 5) as u8
}

#[inline]
pub(crate) fn rs1(w: u32) -> u8
    ensures { result ≡ rs1_of w }
{
    field(w, 15, 5) as u8
}

#[inline]
pub(crate) fn rs2(w: u32) -> u8
    ensures { result ≡ rs2_of w }
{
    field(w, 20, 5) as u8
}

#[inline]
pub(crate) fn immediate_i(w: u32) -> u32
    ensures { result ≡ i_immediate w }
{
    sign(field(w, 20, 12), 12)
}

#[inline]
pub(crate) fn immediate_s(w: u32) -> u32
    ensures { result ≡ s_immediate w }
{
    sign(field(w, 25, 7) * 32 + field(w, 7, 5), 12)
}

#[inline]
pub(crate) fn immediate_b(w: u32) -> u32
    ensures { result ≡ b_immediate w }
{
    let high = field(w, 31, 1) * 4096 + field(w, 7, 1) * 2048;
    sign(high + field(w, 25, 6) * 32 + field(w, 8, 4) * 2, 13)
}

#[inline]
pub(crate) fn immediate_u(w: u32) -> u32
    ensures { result ≡ u_immediate w }
{
    w & 0xFFFF_F000
}

#[inline]
pub(crate) fn immediate_j(w: u32) -> u32
    ensures { result ≡ j_immediate w }
{
    let high = field(w, 31, 1) * 0x10_0000 + field(w, 12, 8) * 4096;
    sign(high + field(w, 20, 1) * 2048 + field(w, 21, 10) * 2, 21)
}
