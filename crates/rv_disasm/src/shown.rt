// What a line of a listing shows.
ghost use Rattle.std.specs.Prelude.{◌≡◌};
ghost use Rattle.asm_forms.specs.Seen.{row_of, form_rows};
ghost use Rattle.rv_disasm.specs.Shown.{long_kind, kind_of, values, long_values, values_of, has_place, prints, row_in, row_for};
ghost use Rattle.rv_disasm.specs.Tables.{row_option};

use crate::statement::Statement;
use crate::values::Values;
use asm_fields::Item;
use asm_forms::{Form, Kind, all_forms};
use rv_encoding::Ins;

fn long_kind(instruction: &Ins) -> Kind
    ensures { result ≡ long_kind instruction.now }
{
    match *instruction {
        Ins::Lui { .. } => Kind::Lui,
        Ins::Auipc { .. } => Kind::Auipc,
        Ins::Jal { .. } => Kind::Jal,
        Ins::Jalr { .. } => Kind::Jalr,
        Ins::Branch { op, .. } => Kind::Branch(op),
        Ins::Load { op, .. } => Kind::Load(op),
        Ins::Store { op, .. } => Kind::Store(op),
        Ins::Imm { op, .. } => Kind::Imm(op),
        Ins::Reg { op, .. } => Kind::Reg(op),
        Ins::Fence { .. } => Kind::Fence,
        Ins::Csr { op, .. } => Kind::Csr(op),
        Ins::Ecall => Kind::Fixed(Ins::Ecall),
        Ins::Ebreak => Kind::Fixed(Ins::Ebreak),
        Ins::Mret => Kind::Fixed(Ins::Mret),
        Ins::Wfi => Kind::Fixed(Ins::Wfi),
    }
}

/// What the assembler calls what the line does.
pub(crate) fn kind_of(statement: &Statement) -> Kind
    ensures { result ≡ kind_of statement.now }
{
    match statement {
        Statement::Entry(_) => Kind::Entry,
        Statement::Org(_) => Kind::Org,
        Statement::Byte(_) => Kind::Byte,
        Statement::Half(_) => Kind::Half,
        Statement::Word(_) => Kind::Word,
        Statement::Long(instruction) => long_kind(instruction),
        Statement::Short(instruction) => Kind::Short(instruction.row),
    }
}

fn values(rd: u8, rs1: u8, rs2: u8, csr: u16, number: u32) -> Values
    ensures { result ≡ values rd rs1 rs2 csr number }
{
    Values {
        rd,
        rs1,
        rs2,
        csr,
        number,
    }
}

fn long_values(instruction: &Ins) -> Values
    ensures { result ≡ long_values instruction.now }
{
    match *instruction {
        Ins::Lui { rd, imm } | Ins::Auipc { rd, imm } => values(rd, 0, 0, 0, imm),
        Ins::Jal { rd, offset } => values(rd, 0, 0, 0, offset),
        Ins::Jalr { rd, rs1, imm } => values(rd, rs1, 0, 0, imm),
        Ins::Branch {
            rs1,
            rs2,
            offset,
            ..
        } => values(0, rs1, rs2, 0, offset),
        Ins::Load { rd, rs1, imm, .. } => values(rd, rs1, 0, 0, imm),
        Ins::Store { rs1, rs2, imm, .. } => values(0, rs1, rs2, 0, imm),
        Ins::Imm { rd, rs1, imm, .. } => values(rd, rs1, 0, 0, imm),
        Ins::Reg { rd, rs1, rs2, .. } => values(rd, rs1, rs2, 0, 0),
        Ins::Fence { pred, succ } => values(0, pred, succ, 0, 0),
        Ins::Csr {
            rd,
            source,
            csr,
            ..
        } => values(rd, source, 0, csr, 0),
        Ins::Ecall | Ins::Ebreak | Ins::Mret | Ins::Wfi => values(0, 0, 0, 0, 0),
    }
}

/// The values of a line's operands.
pub(crate) fn values_of(statement: &Statement) -> Values
    ensures { result ≡ values_of statement.now }
{
    match statement {
        Statement::Entry(number) | Statement::Org(number) => values(0, 0, 0, 0, *number),
        Statement::Byte(byte) => values(0, 0, 0, 0, u32::from(*byte)),
        Statement::Half(half) => values(0, 0, 0, 0, u32::from(*half)),
        Statement::Word(word) => values(0, 0, 0, 0, *word),
        Statement::Long(instruction) => long_values(instruction),
        Statement::Short(c) => values(c.a, c.b, 0, 0, c.imm),
    }
}

// Whether operands have a place for the number: where there are none, there is one for 0 alone.
fn has_place(items: &[Item], number: u32) -> bool
    ensures { result ≡ has_place items.now number }
{
    match items {
        [] => number == 0,
        _ => true,
    }
}

// Whether the row is of the kind, and has a place for the number.
#[tactic(auto, using(asm_forms::proofs::SameKinds::same_kind))]
fn prints(form: &Form, kind: Kind, number: u32) -> bool
    ensures { result ≡ prints (row_of form.now) kind number }
{
    form.kind == kind && has_place(form.items, number)
}

fn form_in(table: &[Form], kind: Kind, number: u32) -> Option<Form>
    ensures { row_option result ≡ row_in (form_rows table.now) kind number }
{
    for form in table {
        if prints(form, kind, number) {
            return Some(*form);
        }
    }
    None
}

/// The row that a kind is printed by, with this number among its operands.
#[tactic(auto, unfolding(crate::specs::Shown::row_for))]
pub(crate) fn form_for(kind: Kind, number: u32) -> Form
    ensures { row_of result ≡ row_for kind number }
{
    match form_in(all_forms(), kind, number) {
        Some(form) => form,
        None => Form {
            name: "",
            items: &[],
            kind: Kind::Org,
        },
    }
}
