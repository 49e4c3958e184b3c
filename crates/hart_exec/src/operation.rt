// An instruction in one flat form, as it is kept to be executed again.
ghost use Rattle.std.specs.Prelude.{◌≡◌, ◌%◌, ◌^◌, Some, IsTrue};
ghost use Rattle.rv_encoding.specs.Fits.{can_be_spelled};
ghost use Rattle.rv_encoding.specs.declared.instruction.Ins.TheVariants.{Branch, Load, Store, Imm, Reg, Csr};
ghost use Rattle.hart_exec.specs.Operation.{instruction, unknown_operation, kind_of_branch, kind_of_load, kind_of_store, kind_of_immediate, kind_of_register, kind_of_csr, operation, NamesRegisters};

use rv_encoding::{BranchOp, CsrOp, ImmOp, Ins, LoadOp, RegOp, StoreOp};

/// What an operation does: one name for each instruction, and one for what isn't known.
#[derive(Clone, Copy, Drop)]
pub enum Kind {
    Unknown,
    Lui,
    Auipc,
    Jal,
    Jalr,
    Beq,
    Bne,
    Blt,
    Bge,
    Bltu,
    Bgeu,
    Lb,
    Lh,
    Lw,
    Lbu,
    Lhu,
    Sb,
    Sh,
    Sw,
    Addi,
    Slti,
    Sltiu,
    Xori,
    Ori,
    Andi,
    Slli,
    Srli,
    Srai,
    Add,
    Sub,
    Sll,
    Slt,
    Sltu,
    Xor,
    Srl,
    Sra,
    Or,
    And,
    Mul,
    Mulh,
    Mulhsu,
    Mulhu,
    Div,
    Divu,
    Rem,
    Remu,
    Fence,
    Ecall,
    Ebreak,
    Mret,
    Wfi,
    Csrrw,
    Csrrs,
    Csrrc,
    Csrrwi,
    Csrrsi,
    Csrrci,
}

/// An operation with its operands; those that it doesn't have are 0. A fence has its two sets as `rs1` and
/// `rs2`, and an instruction on a control register its source as `rs1` and the register's number as `imm`.
#[derive(Clone, Copy, Drop)]
pub struct Operation {
    pub kind: Kind,
    pub rd: u8,
    pub rs1: u8,
    pub rs2: u8,
    pub imm: u32,
}

/// What isn't known.
pub fn unknown() -> Operation
    ensures { result ≡ unknown_operation }
{
    Operation {
        kind: Kind::Unknown,
        rd: 0,
        rs1: 0,
        rs2: 0,
        imm: 0,
    }
}

fn kind_of_branch(op: BranchOp) -> Kind
    ensures { result ≡ kind_of_branch op }
{
    match op {
        BranchOp::Beq => Kind::Beq,
        BranchOp::Bne => Kind::Bne,
        BranchOp::Blt => Kind::Blt,
        BranchOp::Bge => Kind::Bge,
        BranchOp::Bltu => Kind::Bltu,
        BranchOp::Bgeu => Kind::Bgeu,
    }
}

fn kind_of_load(op: LoadOp) -> Kind
    ensures { result ≡ kind_of_load op }
{
    match op {
        LoadOp::Lb => Kind::Lb,
        LoadOp::Lh => Kind::Lh,
        LoadOp::Lw => Kind::Lw,
        LoadOp::Lbu => Kind::Lbu,
        LoadOp::Lhu => Kind::Lhu,
    }
}

fn kind_of_store(op: StoreOp) -> Kind
    ensures { result ≡ kind_of_store op }
{
    match op {
        StoreOp::Sb => Kind::Sb,
        StoreOp::Sh => Kind::Sh,
        StoreOp::Sw => Kind::Sw,
    }
}

fn kind_of_immediate(op: ImmOp) -> Kind
    ensures { result ≡ kind_of_immediate op }
{
    match op {
        ImmOp::Addi => Kind::Addi,
        ImmOp::Slti => Kind::Slti,
        ImmOp::Sltiu => Kind::Sltiu,
        ImmOp::Xori => Kind::Xori,
        ImmOp::Ori => Kind::Ori,
        ImmOp::Andi => Kind::Andi,
        ImmOp::Slli => Kind::Slli,
        ImmOp::Srli => Kind::Srli,
        ImmOp::Srai => Kind::Srai,
    }
}

fn kind_of_register(op: RegOp) -> Kind
    ensures { result ≡ kind_of_register op }
{
    match op {
        RegOp::Add => Kind::Add,
        RegOp::Sub => Kind::Sub,
        RegOp::Sll => Kind::Sll,
        RegOp::Slt => Kind::Slt,
        RegOp::Sltu => Kind::Sltu,
        RegOp::Xor => Kind::Xor,
        RegOp::Srl => Kind::Srl,
        RegOp::Sra => Kind::Sra,
        RegOp::Or => Kind::Or,
        RegOp::And => Kind::And,
        RegOp::Mul => Kind::Mul,
        RegOp::Mulh => Kind::Mulh,
        RegOp::Mulhsu => Kind::Mulhsu,
        RegOp::Mulhu => Kind::Mulhu,
        RegOp::Div => Kind::Div,
        RegOp::Divu => Kind::Divu,
        RegOp::Rem => Kind::Rem,
        RegOp::Remu => Kind::Remu,
    }
}

fn kind_of_csr(op: CsrOp) -> Kind
    ensures { result ≡ kind_of_csr op }
{
    match op {
        CsrOp::Csrrw => Kind::Csrrw,
        CsrOp::Csrrs => Kind::Csrrs,
        CsrOp::Csrrc => Kind::Csrrc,
        CsrOp::Csrrwi => Kind::Csrrwi,
        CsrOp::Csrrsi => Kind::Csrrsi,
        CsrOp::Csrrci => Kind::Csrrci,
    }
}

fn with(kind: Kind, rd: u8, rs1: u8, rs2: u8, imm: u32) -> Operation
    ensures { result ≡ record { kind = kind; rd = rd; rs1 = rs1; rs2 = rs2; imm = imm } }
{
    Operation {
        kind,
        rd,
        rs1,
        rs2,
        imm,
    }
}

// An instruction in the flat form.
fn flat(ins: &Ins) -> Operation
    ensures { result ≡ operation ins.now }
{
    match *ins {
        Ins::Lui { rd, imm } => with(Kind::Lui, rd, 0, 0, imm),
        Ins::Auipc { rd, imm } => with(Kind::Auipc, rd, 0, 0, imm),
        Ins::Jal { rd, offset } => with(Kind::Jal, rd, 0, 0, offset),
        Ins::Jalr { rd, rs1, imm } => with(Kind::Jalr, rd, rs1, 0, imm),
        Ins::Branch {
            op,
            rs1,
            rs2,
            offset,
        } => with(kind_of_branch(op), 0, rs1, rs2, offset),
        Ins::Load { op, rd, rs1, imm } => with(kind_of_load(op), rd, rs1, 0, imm),
        Ins::Store { op, rs1, rs2, imm } => with(kind_of_store(op), 0, rs1, rs2, imm),
        Ins::Imm { op, rd, rs1, imm } => with(kind_of_immediate(op), rd, rs1, 0, imm),
        Ins::Reg { op, rd, rs1, rs2 } => with(kind_of_register(op), rd, rs1, rs2, 0),
        Ins::Fence { pred, succ } => with(Kind::Fence, 0, pred, succ, 0),
        Ins::Ecall => with(Kind::Ecall, 0, 0, 0, 0),
        Ins::Ebreak => with(Kind::Ebreak, 0, 0, 0, 0),
        Ins::Mret => with(Kind::Mret, 0, 0, 0, 0),
        Ins::Wfi => with(Kind::Wfi, 0, 0, 0, 0),
        Ins::Csr {
            op,
            rd,
            source,
            csr,
        } => with(kind_of_csr(op), rd, source, 0, u32::from(csr)),
    }
}

/// An instruction as an operation.
#[tactic(auto, using(crate::proofs::Operations::same_instruction, crate::proofs::Operations::names))]
pub fn operation_of(ins: &Ins) -> Operation
    ensures operation { result ≡ operation ins.now }
    ensures stands { IsTrue (can_be_spelled ins.now) → instruction result ≡ Some ins.now }
    ensures names { IsTrue (can_be_spelled ins.now) → NamesRegisters result }
{
    flat(ins)
}

fn branch_of(op: BranchOp, operation: &Operation) -> Option<Ins>
    ensures { let o = operation.now in result ≡ Some (Branch op o.rs1 o.rs2 o.imm) }
{
    Some(Ins::Branch {
        op,
        rs1: operation.rs1,
        rs2: operation.rs2,
        offset: operation.imm,
    })
}

fn load_of(op: LoadOp, operation: &Operation) -> Option<Ins>
    ensures { let o = operation.now in result ≡ Some (Load op o.rd o.rs1 o.imm) }
{
    Some(Ins::Load {
        op,
        rd: operation.rd,
        rs1: operation.rs1,
        imm: operation.imm,
    })
}

fn store_of(op: StoreOp, operation: &Operation) -> Option<Ins>
    ensures { let o = operation.now in result ≡ Some (Store op o.rs1 o.rs2 o.imm) }
{
    Some(Ins::Store {
        op,
        rs1: operation.rs1,
        rs2: operation.rs2,
        imm: operation.imm,
    })
}

fn immediate_of(op: ImmOp, operation: &Operation) -> Option<Ins>
    ensures { let o = operation.now in result ≡ Some (Imm op o.rd o.rs1 o.imm) }
{
    Some(Ins::Imm {
        op,
        rd: operation.rd,
        rs1: operation.rs1,
        imm: operation.imm,
    })
}

fn register_of(op: RegOp, operation: &Operation) -> Option<Ins>
    ensures { let o = operation.now in result ≡ Some (Reg op o.rd o.rs1 o.rs2) }
{
    Some(Ins::Reg {
        op,
        rd: operation.rd,
        rs1: operation.rs1,
        rs2: operation.rs2,
    })
}

fn csr_of(op: CsrOp, operation: &Operation) -> Option<Ins>
    ensures { let o = operation.now in result ≡ Some (Csr op o.rd o.rs1 (o.imm % 2 ^ 16)) }
{
    Some(Ins::Csr {
        op,
        rd: operation.rd,
        source: operation.rs1,
        csr: (operation.imm % 0x1_0000) as u16,
    })
}

/// The instruction that an operation stands for: none where it isn't known.
pub fn instruction_of(operation: &Operation) -> Option<Ins>
    ensures { result ≡ instruction operation.now }
{
    let rd = operation.rd;
    let rs1 = operation.rs1;
    let imm = operation.imm;
    match operation.kind {
        Kind::Unknown => None,
        Kind::Lui => Some(Ins::Lui { rd, imm }),
        Kind::Auipc => Some(Ins::Auipc { rd, imm }),
        Kind::Jal => Some(Ins::Jal { rd, offset: imm }),
        Kind::Jalr => Some(Ins::Jalr { rd, rs1, imm }),
        Kind::Beq => branch_of(BranchOp::Beq, operation),
        Kind::Bne => branch_of(BranchOp::Bne, operation),
        Kind::Blt => branch_of(BranchOp::Blt, operation),
        Kind::Bge => branch_of(BranchOp::Bge, operation),
        Kind::Bltu => branch_of(BranchOp::Bltu, operation),
        Kind::Bgeu => branch_of(BranchOp::Bgeu, operation),
        Kind::Lb => load_of(LoadOp::Lb, operation),
        Kind::Lh => load_of(LoadOp::Lh, operation),
        Kind::Lw => load_of(LoadOp::Lw, operation),
        Kind::Lbu => load_of(LoadOp::Lbu, operation),
        Kind::Lhu => load_of(LoadOp::Lhu, operation),
        Kind::Sb => store_of(StoreOp::Sb, operation),
        Kind::Sh => store_of(StoreOp::Sh, operation),
        Kind::Sw => store_of(StoreOp::Sw, operation),
        Kind::Addi => immediate_of(ImmOp::Addi, operation),
        Kind::Slti => immediate_of(ImmOp::Slti, operation),
        Kind::Sltiu => immediate_of(ImmOp::Sltiu, operation),
        Kind::Xori => immediate_of(ImmOp::Xori, operation),
        Kind::Ori => immediate_of(ImmOp::Ori, operation),
        Kind::Andi => immediate_of(ImmOp::Andi, operation),
        Kind::Slli => immediate_of(ImmOp::Slli, operation),
        Kind::Srli => immediate_of(ImmOp::Srli, operation),
        Kind::Srai => immediate_of(ImmOp::Srai, operation),
        Kind::Add => register_of(RegOp::Add, operation),
        Kind::Sub => register_of(RegOp::Sub, operation),
        Kind::Sll => register_of(RegOp::Sll, operation),
        Kind::Slt => register_of(RegOp::Slt, operation),
        Kind::Sltu => register_of(RegOp::Sltu, operation),
        Kind::Xor => register_of(RegOp::Xor, operation),
        Kind::Srl => register_of(RegOp::Srl, operation),
        Kind::Sra => register_of(RegOp::Sra, operation),
        Kind::Or => register_of(RegOp::Or, operation),
        Kind::And => register_of(RegOp::And, operation),
        Kind::Mul => register_of(RegOp::Mul, operation),
        Kind::Mulh => register_of(RegOp::Mulh, operation),
        Kind::Mulhsu => register_of(RegOp::Mulhsu, operation),
        Kind::Mulhu => register_of(RegOp::Mulhu, operation),
        Kind::Div => register_of(RegOp::Div, operation),
        Kind::Divu => register_of(RegOp::Divu, operation),
        Kind::Rem => register_of(RegOp::Rem, operation),
        Kind::Remu => register_of(RegOp::Remu, operation),
        Kind::Fence => Some(Ins::Fence {
            pred: rs1,
            succ: operation.rs2,
        }),
        Kind::Ecall => Some(Ins::Ecall),
        Kind::Ebreak => Some(Ins::Ebreak),
        Kind::Mret => Some(Ins::Mret),
        Kind::Wfi => Some(Ins::Wfi),
        Kind::Csrrw => csr_of(CsrOp::Csrrw, operation),
        Kind::Csrrs => csr_of(CsrOp::Csrrs, operation),
        Kind::Csrrc => csr_of(CsrOp::Csrrc, operation),
        Kind::Csrrwi => csr_of(CsrOp::Csrrwi, operation),
        Kind::Csrrsi => csr_of(CsrOp::Csrrsi, operation),
        Kind::Csrrci => csr_of(CsrOp::Csrrci, operation),
    }
}
