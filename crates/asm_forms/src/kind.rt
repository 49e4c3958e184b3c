// What a line does with its operands.
use rv_encoding::{BranchOp, CsrOp, ImmOp, Ins, LoadOp, RegOp, StoreOp};
use rvc_encoding::CRow;

/// A directive, or an instruction whose fields are operands.
#[derive(Clone, Copy, Debug, PartialEq, Eq, Drop)]
pub enum Kind {
    Org,
    Entry,
    Byte,
    Half,
    Word,
    Zero,
    Lui,
    Auipc,
    Jal,
    Jalr,
    Branch(BranchOp),
    Load(LoadOp),
    Store(StoreOp),
    Imm(ImmOp),
    Reg(RegOp),
    Fence,
    Csr(CsrOp),
    /// An instruction without operands.
    Fixed(Ins),
    /// A compressed instruction.
    Short(CRow),
    /// LUI and ADDI, which load a number together.
    Pair,
}
