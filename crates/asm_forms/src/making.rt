// From operands to operations.
ghost use Rattle.std.specs.Prelude.{◌≡◌};
ghost use Rattle.asm_forms.specs.Operations.{made, operation_fits, extent_of, first_value, upper_part, lower_part};
ghost use Rattle.asm_fields.specs.Seen.{seen, seen_number};

use crate::extent::Extent;
use crate::kind::Kind;
use crate::operation::Operation;
use asm_fields::{Number, Operands};
use hart_words::sign;
use rv_encoding::{BranchOp, CsrOp, ImmOp, Ins, fits};
use rvc_encoding::{CRow, Cins, fits16};

fn upper_part(number: u32) -> u32
    ensures { result ≡ upper_part number }
{
    ((u64::from(number) + 2048) / 4096 % 0x10_0000 * 4096) as u32
}

fn pair(rd: u8, number: u32) -> Operation
    ensures { result ≡ Operation.Twice (Ins.Lui rd (upper_part number)) (Ins.Imm ImmOp.Addi rd rd (lower_part number)) }
{
    let lower = sign(number % 4096, 12);
    Operation::Twice(
        Ins::Lui {
            rd,
            imm: upper_part(number),
        },
        Ins::Imm {
            op: ImmOp::Addi,
            rd,
            rs1: rd,
            imm: lower,
        },
    )
}

fn compressed(row: CRow, a: u8, b: u8, imm: u32) -> Operation
    ensures { result ≡ Operation.Compressed (record { row = row; a = a; b = b; imm = imm }) }
{
    Operation::Compressed(Cins { row, a, b, imm })
}

fn branch(op: BranchOp, rs1: u8, rs2: u8, offset: u32) -> Operation
    ensures { result ≡ Operation.Long (Ins.Branch op rs1 rs2 offset) }
{
    Operation::Long(Ins::Branch {
        op,
        rs1,
        rs2,
        offset,
    })
}

fn fence(pred: u8, succ: u8) -> Operation
    ensures { result ≡ Operation.Long (Ins.Fence pred succ) }
{
    Operation::Long(Ins::Fence { pred, succ })
}

fn csr_access(op: CsrOp, rd: u8, source: u8, csr: u16) -> Operation
    ensures { result ≡ Operation.Long (Ins.Csr op rd source csr) }
{
    Operation::Long(Ins::Csr {
        op,
        rd,
        source,
        csr,
    })
}

/// What a line does with its operands, once its number is known.
#[tactic(auto, unfolding(crate::specs::Operations::made))]
pub fn operation_of<'a>(kind: Kind, operands: Operands<'a>, number: u32) -> Operation
    ensures { result ≡ made kind (seen operands.entry) number }
{
    let rd = operands.rd;
    let rs1 = operands.rs1;
    let rs2 = operands.rs2;
    let imm = number;
    let offset = number;
    match kind {
        Kind::Org => Operation::Org(operands.amount),
        Kind::Entry => Operation::Entry(number),
        Kind::Byte => Operation::PutsByte((number % 0x100) as u8),
        Kind::Half => Operation::PutsHalf((number % 0x1_0000) as u16),
        Kind::Word => Operation::PutsWord(number),
        Kind::Zero => Operation::PutsZeros(operands.amount),
        Kind::Lui => Operation::Long(Ins::Lui { rd, imm }),
        Kind::Auipc => Operation::Long(Ins::Auipc { rd, imm }),
        Kind::Jal => Operation::Long(Ins::Jal { rd, offset }),
        Kind::Jalr => Operation::Long(Ins::Jalr { rd, rs1, imm }),
        Kind::Branch(op) => branch(op, rs1, rs2, number),
        Kind::Load(op) => Operation::Long(Ins::Load { op, rd, rs1, imm }),
        Kind::Store(op) => Operation::Long(Ins::Store { op, rs1, rs2, imm }),
        Kind::Imm(op) => Operation::Long(Ins::Imm { op, rd, rs1, imm }),
        Kind::Reg(op) => Operation::Long(Ins::Reg { op, rd, rs1, rs2 }),
        Kind::Fence => fence(rs1, rs2),
        Kind::Csr(op) => csr_access(op, rd, rs1, operands.csr),
        Kind::Fixed(instruction) => Operation::Long(instruction),
        Kind::Short(row) => compressed(row, rd, rs1, number),
        Kind::Pair => pair(rd, number),
    }
}

/// Whether each field holds its value.
#[tactic(auto, unfolding(crate::specs::Operations::operation_fits))]
pub fn is_fit(operation: &Operation) -> bool
    ensures { result ≡ operation_fits operation.now }
{
    match operation {
        Operation::PutsZeros(count) => 1 <= *count && *count <= 0x1_0000,
        Operation::Long(instruction) => fits(instruction),
        Operation::Twice(first, second) => fits(first) && fits(second),
        Operation::Compressed(instruction) => fits16(instruction),
        Operation::Org(_) | Operation::Entry(_) | Operation::PutsByte(_) => true,
        Operation::PutsHalf(_) | Operation::PutsWord(_) => true,
    }
}

/// What a line does to the place.
#[tactic(auto, unfolding(crate::specs::Operations::extent_of))]
pub fn extent_of(kind: Kind, amount: u32) -> Extent
    ensures { result ≡ extent_of kind amount }
{
    match kind {
        Kind::Org => Extent::Org(amount),
        Kind::Entry => Extent::Entry,
        Kind::Byte => Extent::Takes(1),
        Kind::Half | Kind::Short(_) => Extent::Takes(2),
        Kind::Zero => Extent::Takes(amount),
        Kind::Pair => Extent::Takes(8),
        Kind::Word | Kind::Lui | Kind::Auipc | Kind::Jal | Kind::Jalr => Extent::Takes(4),
        Kind::Branch(_) | Kind::Load(_) | Kind::Store(_) | Kind::Imm(_) => Extent::Takes(4),
        Kind::Reg(_) | Kind::Fence | Kind::Csr(_) | Kind::Fixed(_) => Extent::Takes(4),
    }
}

/// The number of a line before the labels are known.
pub fn first_value(number: Number) -> u32
    ensures { result ≡ first_value (seen_number number.entry) }
{
    match number {
        Number::Given(n) => n,
        Number::Absolute(_) | Number::Near(_) | Number::NearLabel(_) => 0,
    }
}
