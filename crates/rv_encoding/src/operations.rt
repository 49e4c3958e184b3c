// The operations that share a format, by the names of the instruction listing.

/// The condition of a branch.
#[derive(Clone, Copy, Debug, PartialEq, Eq, Drop)]
pub enum BranchOp {
    Beq,
    Bne,
    Blt,
    Bge,
    Bltu,
    Bgeu,
}

/// The width of a load and how it is extended.
#[derive(Clone, Copy, Debug, PartialEq, Eq, Drop)]
pub enum LoadOp {
    Lb,
    Lh,
    Lw,
    Lbu,
    Lhu,
}

/// The width of a store.
#[derive(Clone, Copy, Debug, PartialEq, Eq, Drop)]
pub enum StoreOp {
    Sb,
    Sh,
    Sw,
}

/// An operation on a register and an immediate.
#[derive(Clone, Copy, Debug, PartialEq, Eq, Drop)]
pub enum ImmOp {
    Addi,
    Slti,
    Sltiu,
    Xori,
    Ori,
    Andi,
    Slli,
    Srli,
    Srai,
}

/// An operation on two registers: those of RV32I, then those of the M extension.
#[derive(Clone, Copy, Debug, PartialEq, Eq, Drop)]
pub enum RegOp {
    Add,
    Sub,
    Sll,
    Slt,
    Sltu,
    Xor,
    Srl,
    Sra,
    Or,
    And,
    Mul,
    Mulh,
    Mulhsu,
    Mulhu,
    Div,
    Divu,
    Rem,
    Remu,
}

/// A change of a control and status register; the last three have an immediate as their source.
#[derive(Clone, Copy, Debug, PartialEq, Eq, Drop)]
pub enum CsrOp {
    Csrrw,
    Csrrs,
    Csrrc,
    Csrrwi,
    Csrrsi,
    Csrrci,
}
