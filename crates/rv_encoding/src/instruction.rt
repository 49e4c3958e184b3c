// Instructions, as their fields.
use crate::operations::{BranchOp, CsrOp, ImmOp, LoadOp, RegOp, StoreOp};

/// An instruction of RV32I, M or Zicsr, MRET or WFI.
///
/// Immediates and offsets are sign-extended to 32 bits. That of `Lui` and `Auipc` is the value itself,
/// whose low 12 bits are 0, and that of a shift is its amount. The `source` of a `Csr` is a register
/// or a 5-bit immediate, as its operation says.
#[derive(Clone, Copy, Debug, PartialEq, Eq, Drop)]
pub enum Ins {
    Lui {
        rd: u8,
        imm: u32,
    },
    Auipc {
        rd: u8,
        imm: u32,
    },
    Jal {
        rd: u8,
        offset: u32,
    },
    Jalr {
        rd: u8,
        rs1: u8,
        imm: u32,
    },
    Branch {
        op: BranchOp,
        rs1: u8,
        rs2: u8,
        offset: u32,
    },
    Load {
        op: LoadOp,
        rd: u8,
        rs1: u8,
        imm: u32,
    },
    Store {
        op: StoreOp,
        rs1: u8,
        rs2: u8,
        imm: u32,
    },
    Imm {
        op: ImmOp,
        rd: u8,
        rs1: u8,
        imm: u32,
    },
    Reg {
        op: RegOp,
        rd: u8,
        rs1: u8,
        rs2: u8,
    },
    Fence {
        pred: u8,
        succ: u8,
    },
    Ecall,
    Ebreak,
    Mret,
    Wfi,
    Csr {
        op: CsrOp,
        rd: u8,
        source: u8,
        csr: u16,
    },
}
