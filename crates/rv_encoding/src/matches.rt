// The match of each operation's row: its opcode and its function fields.
ghost use Rattle.std.specs.Prelude.{◌≡◌, ◌≤◌};
ghost use Rattle.rv_encoding.specs.Words.{branch_match, load_match, store_match, imm_match, reg_match, csr_match};

use crate::operations::{BranchOp, CsrOp, ImmOp, LoadOp, RegOp, StoreOp};

#[inline]
pub(crate) fn branch_match(op: BranchOp) -> u32
    ensures value { result ≡ branch_match op }
    ensures low { result ≤ 0x0000707F }
{
    match op {
        BranchOp::Beq => 0x0000_0063,
        BranchOp::Bne => 0x0000_1063,
        BranchOp::Blt => 0x0000_4063,
        BranchOp::Bge => 0x0000_5063,
        BranchOp::Bltu => 0x0000_6063,
        BranchOp::Bgeu => 0x0000_7063,
    }
}

#[inline]
pub(crate) fn load_match(op: LoadOp) -> u32
    ensures value { result ≡ load_match op }
    ensures low { result ≤ 0x0000707F }
{
    match op {
        LoadOp::Lb => 0x0000_0003,
        LoadOp::Lh => 0x0000_1003,
        LoadOp::Lw => 0x0000_2003,
        LoadOp::Lbu => 0x0000_4003,
        LoadOp::Lhu => 0x0000_5003,
    }
}

#[inline]
pub(crate) fn store_match(op: StoreOp) -> u32
    ensures value { result ≡ store_match op }
    ensures low { result ≤ 0x0000707F }
{
    match op {
        StoreOp::Sb => 0x0000_0023,
        StoreOp::Sh => 0x0000_1023,
        StoreOp::Sw => 0x0000_2023,
    }
}

#[inline]
pub(crate) fn imm_match(op: ImmOp) -> u32
    ensures value { result ≡ imm_match op }
{
    match op {
        ImmOp::Addi => 0x0000_0013,
        ImmOp::Slti => 0x0000_2013,
        ImmOp::Sltiu => 0x0000_3013,
        ImmOp::Xori => 0x0000_4013,
        ImmOp::Ori => 0x0000_6013,
        ImmOp::Andi => 0x0000_7013,
        ImmOp::Slli => 0x0000_1013,
        ImmOp::Srli => 0x0000_5013,
        ImmOp::Srai => 0x4000_5013,
    }
}

#[inline]
pub(crate) fn reg_match(op: RegOp) -> u32
    ensures value { result ≡ reg_match op }
    ensures low { result ≤ 0x4000707F }
{
    match op {
        RegOp::Add => 0x0000_0033,
        RegOp::Sub => 0x4000_0033,
        RegOp::Sll => 0x0000_1033,
        RegOp::Slt => 0x0000_2033,
        RegOp::Sltu => 0x0000_3033,
        RegOp::Xor => 0x0000_4033,
        RegOp::Srl => 0x0000_5033,
        RegOp::Sra => 0x4000_5033,
        RegOp::Or => 0x0000_6033,
        RegOp::And => 0x0000_7033,
        RegOp::Mul => 0x0200_0033,
        RegOp::Mulh => 0x0200_1033,
        RegOp::Mulhsu => 0x0200_2033,
        RegOp::Mulhu => 0x0200_3033,
        RegOp::Div => 0x0200_4033,
        RegOp::Divu => 0x0200_5033,
        RegOp::Rem => 0x0200_6033,
        RegOp::Remu => 0x0200_7033,
    }
}

#[inline]
pub(crate) fn csr_match(op: CsrOp) -> u32
    ensures value { result ≡ csr_match op }
    ensures low { result ≤ 0x0000707F }
{
    match op {
        CsrOp::Csrrw => 0x0000_1073,
        CsrOp::Csrrs => 0x0000_2073,
        CsrOp::Csrrc => 0x0000_3073,
        CsrOp::Csrrwi => 0x0000_5073,
        CsrOp::Csrrsi => 0x0000_6073,
        CsrOp::Csrrci => 0x0000_7073,
    }
}
