// The table of forms.
ghost use Rattle.std.specs.Prelude.{◌≡◌};
ghost use Rattle.asm_forms.specs.Forms.{forms};
ghost use Rattle.asm_forms.specs.Seen.{form_rows};

use crate::form::Form;
use crate::kind::Kind;
use asm_fields::{Field, Item};
use asm_text::TokenKind;
use rv_encoding::{BranchOp, CsrOp, ImmOp, Ins, LoadOp, RegOp, StoreOp};
use rvc_encoding::CRow;

const AMOUNT: [Item; 1] = [Item::Operand(Field::Amount)];

const ADDRESS: [Item; 1] = [Item::Operand(Field::Address)];

const HALF_WORD: [Item; 1] = [Item::Operand(Field::Digits(65536, 4))];

const BYTE: [Item; 1] = [Item::Operand(Field::Digits(256, 2))];

const UPPER: [Item; 3] = [
    Item::Operand(Field::Rd),
    Item::Mark(TokenKind::Comma),
    Item::Operand(Field::Upper),
];

const RD_TARGET: [Item; 3] = [
    Item::Operand(Field::Rd),
    Item::Mark(TokenKind::Comma),
    Item::Operand(Field::Target),
];

const RD_MEMORY: [Item; 6] = [
    Item::Operand(Field::Rd),
    Item::Mark(TokenKind::Comma),
    Item::Operand(Field::Signed(2048)),
    Item::Mark(TokenKind::Open),
    Item::Operand(Field::Rs1),
    Item::Mark(TokenKind::Close),
];

const BRANCH: [Item; 5] = [
    Item::Operand(Field::Rs1),
    Item::Mark(TokenKind::Comma),
    Item::Operand(Field::Rs2),
    Item::Mark(TokenKind::Comma),
    Item::Operand(Field::Target),
];

const RS2_MEMORY: [Item; 6] = [
    Item::Operand(Field::Rs2),
    Item::Mark(TokenKind::Comma),
    Item::Operand(Field::Signed(2048)),
    Item::Mark(TokenKind::Open),
    Item::Operand(Field::Rs1),
    Item::Mark(TokenKind::Close),
];

const RD_RS1_SIGNED: [Item; 5] = [
    Item::Operand(Field::Rd),
    Item::Mark(TokenKind::Comma),
    Item::Operand(Field::Rs1),
    Item::Mark(TokenKind::Comma),
    Item::Operand(Field::Signed(2048)),
];

const SHIFT: [Item; 5] = [
    Item::Operand(Field::Rd),
    Item::Mark(TokenKind::Comma),
    Item::Operand(Field::Rs1),
    Item::Mark(TokenKind::Comma),
    Item::Operand(Field::Below(32)),
];

const RD_RS1_RS2: [Item; 5] = [
    Item::Operand(Field::Rd),
    Item::Mark(TokenKind::Comma),
    Item::Operand(Field::Rs1),
    Item::Mark(TokenKind::Comma),
    Item::Operand(Field::Rs2),
];

const NOTHING: [Item; 0] = [];

const SETS: [Item; 3] = [
    Item::Operand(Field::Pred),
    Item::Mark(TokenKind::Comma),
    Item::Operand(Field::Succ),
];

const RD_CSR_RS1: [Item; 5] = [
    Item::Operand(Field::Rd),
    Item::Mark(TokenKind::Comma),
    Item::Operand(Field::Csr),
    Item::Mark(TokenKind::Comma),
    Item::Operand(Field::Rs1),
];

const RD_CSR_SOURCE: [Item; 5] = [
    Item::Operand(Field::Rd),
    Item::Mark(TokenKind::Comma),
    Item::Operand(Field::Csr),
    Item::Mark(TokenKind::Comma),
    Item::Operand(Field::Source),
];

const STACK_SUM: [Item; 5] = [
    Item::Operand(Field::Rd),
    Item::Mark(TokenKind::Comma),
    Item::Operand(Field::Rs1),
    Item::Mark(TokenKind::Comma),
    Item::Operand(Field::Below(1024)),
];

const SHORT_LOAD: [Item; 6] = [
    Item::Operand(Field::Rd),
    Item::Mark(TokenKind::Comma),
    Item::Operand(Field::Below(128)),
    Item::Mark(TokenKind::Open),
    Item::Operand(Field::Rs1),
    Item::Mark(TokenKind::Close),
];

const SHORT_STORE: [Item; 6] = [
    Item::Operand(Field::Rs1),
    Item::Mark(TokenKind::Comma),
    Item::Operand(Field::Below(128)),
    Item::Mark(TokenKind::Open),
    Item::Operand(Field::Rd),
    Item::Mark(TokenKind::Close),
];

const SHORT_SIGNED: [Item; 1] = [Item::Operand(Field::Signed(32))];

const RD_SHORT_SIGNED: [Item; 3] = [
    Item::Operand(Field::Rd),
    Item::Mark(TokenKind::Comma),
    Item::Operand(Field::Signed(32)),
];

const TARGET: [Item; 1] = [Item::Operand(Field::Target)];

const STACK_CHANGE: [Item; 3] = [
    Item::Operand(Field::Rd),
    Item::Mark(TokenKind::Comma),
    Item::Operand(Field::Signed(512)),
];

const SHORT_SHIFT: [Item; 3] = [
    Item::Operand(Field::Rd),
    Item::Mark(TokenKind::Comma),
    Item::Operand(Field::Below(32)),
];

const RD_RS1: [Item; 3] = [
    Item::Operand(Field::Rd),
    Item::Mark(TokenKind::Comma),
    Item::Operand(Field::Rs1),
];

const STACK_LOAD: [Item; 6] = [
    Item::Operand(Field::Rd),
    Item::Mark(TokenKind::Comma),
    Item::Operand(Field::Below(256)),
    Item::Mark(TokenKind::Open),
    Item::Operand(Field::Rs1),
    Item::Mark(TokenKind::Close),
];

const RD: [Item; 1] = [Item::Operand(Field::Rd)];

const STACK_STORE: [Item; 6] = [
    Item::Operand(Field::Rs1),
    Item::Mark(TokenKind::Comma),
    Item::Operand(Field::Below(256)),
    Item::Mark(TokenKind::Open),
    Item::Operand(Field::Rd),
    Item::Mark(TokenKind::Close),
];

const RD_SIGNED: [Item; 3] = [
    Item::Operand(Field::Rd),
    Item::Mark(TokenKind::Comma),
    Item::Operand(Field::Signed(2048)),
];

const RD_WORD: [Item; 3] = [
    Item::Operand(Field::Rd),
    Item::Mark(TokenKind::Comma),
    Item::Operand(Field::Word),
];

const RD_LABEL: [Item; 3] = [
    Item::Operand(Field::Rd),
    Item::Mark(TokenKind::Comma),
    Item::Operand(Field::Label),
];

const RS1: [Item; 1] = [Item::Operand(Field::Rs1)];

const RS1_TARGET: [Item; 3] = [
    Item::Operand(Field::Rs1),
    Item::Mark(TokenKind::Comma),
    Item::Operand(Field::Target),
];

const RD_CSR: [Item; 3] = [
    Item::Operand(Field::Rd),
    Item::Mark(TokenKind::Comma),
    Item::Operand(Field::Csr),
];

const CSR_RS1: [Item; 3] = [
    Item::Operand(Field::Csr),
    Item::Mark(TokenKind::Comma),
    Item::Operand(Field::Rs1),
];

const CSR_SOURCE: [Item; 3] = [
    Item::Operand(Field::Csr),
    Item::Mark(TokenKind::Comma),
    Item::Operand(Field::Source),
];

// A row: the name, the operands and what the line does.
macro_rules! form {
    ($name:literal, $items:ident, $kind:expr) => {
        Form {
            name: $name,
            items: &$items,
            kind: $kind,
        }
    };
}

/// Every directive, instruction and pseudo-instruction. Of the rows of one name the first that a line fits counts.
pub(crate) const FORMS: [Form; 105] = [
    // directives
    form!(".org", AMOUNT, Kind::Org),
    form!(".entry", ADDRESS, Kind::Entry),
    form!(".word", ADDRESS, Kind::Word),
    form!(".half", HALF_WORD, Kind::Half),
    form!(".byte", BYTE, Kind::Byte),
    form!(".zero", AMOUNT, Kind::Zero),
    // RV32I
    form!("lui", UPPER, Kind::Lui),
    form!("auipc", UPPER, Kind::Auipc),
    form!("jal", RD_TARGET, Kind::Jal),
    form!("jalr", RD_MEMORY, Kind::Jalr),
    form!("beq", BRANCH, Kind::Branch(BranchOp::Beq)),
    form!("bne", BRANCH, Kind::Branch(BranchOp::Bne)),
    form!("blt", BRANCH, Kind::Branch(BranchOp::Blt)),
    form!("bge", BRANCH, Kind::Branch(BranchOp::Bge)),
    form!("bltu", BRANCH, Kind::Branch(BranchOp::Bltu)),
    form!("bgeu", BRANCH, Kind::Branch(BranchOp::Bgeu)),
    form!("lb", RD_MEMORY, Kind::Load(LoadOp::Lb)),
    form!("lh", RD_MEMORY, Kind::Load(LoadOp::Lh)),
    form!("lw", RD_MEMORY, Kind::Load(LoadOp::Lw)),
    form!("lbu", RD_MEMORY, Kind::Load(LoadOp::Lbu)),
    form!("lhu", RD_MEMORY, Kind::Load(LoadOp::Lhu)),
    form!("sb", RS2_MEMORY, Kind::Store(StoreOp::Sb)),
    form!("sh", RS2_MEMORY, Kind::Store(StoreOp::Sh)),
    form!("sw", RS2_MEMORY, Kind::Store(StoreOp::Sw)),
    form!("addi", RD_RS1_SIGNED, Kind::Imm(ImmOp::Addi)),
    form!("slti", RD_RS1_SIGNED, Kind::Imm(ImmOp::Slti)),
    form!("sltiu", RD_RS1_SIGNED, Kind::Imm(ImmOp::Sltiu)),
    form!("xori", RD_RS1_SIGNED, Kind::Imm(ImmOp::Xori)),
    form!("ori", RD_RS1_SIGNED, Kind::Imm(ImmOp::Ori)),
    form!("andi", RD_RS1_SIGNED, Kind::Imm(ImmOp::Andi)),
    form!("slli", SHIFT, Kind::Imm(ImmOp::Slli)),
    form!("srli", SHIFT, Kind::Imm(ImmOp::Srli)),
    form!("srai", SHIFT, Kind::Imm(ImmOp::Srai)),
    form!("add", RD_RS1_RS2, Kind::Reg(RegOp::Add)),
    form!("sub", RD_RS1_RS2, Kind::Reg(RegOp::Sub)),
    form!("sll", RD_RS1_RS2, Kind::Reg(RegOp::Sll)),
    form!("slt", RD_RS1_RS2, Kind::Reg(RegOp::Slt)),
    form!("sltu", RD_RS1_RS2, Kind::Reg(RegOp::Sltu)),
    form!("xor", RD_RS1_RS2, Kind::Reg(RegOp::Xor)),
    form!("srl", RD_RS1_RS2, Kind::Reg(RegOp::Srl)),
    form!("sra", RD_RS1_RS2, Kind::Reg(RegOp::Sra)),
    form!("or", RD_RS1_RS2, Kind::Reg(RegOp::Or)),
    form!("and", RD_RS1_RS2, Kind::Reg(RegOp::And)),
    form!(
        "fence",
        NOTHING,
        Kind::Fixed(Ins::Fence { pred: 15, succ: 15 })
    ),
    form!("fence", SETS, Kind::Fence),
    form!("ecall", NOTHING, Kind::Fixed(Ins::Ecall)),
    form!("ebreak", NOTHING, Kind::Fixed(Ins::Ebreak)),
    // M
    form!("mul", RD_RS1_RS2, Kind::Reg(RegOp::Mul)),
    form!("mulh", RD_RS1_RS2, Kind::Reg(RegOp::Mulh)),
    form!("mulhsu", RD_RS1_RS2, Kind::Reg(RegOp::Mulhsu)),
    form!("mulhu", RD_RS1_RS2, Kind::Reg(RegOp::Mulhu)),
    form!("div", RD_RS1_RS2, Kind::Reg(RegOp::Div)),
    form!("divu", RD_RS1_RS2, Kind::Reg(RegOp::Divu)),
    form!("rem", RD_RS1_RS2, Kind::Reg(RegOp::Rem)),
    form!("remu", RD_RS1_RS2, Kind::Reg(RegOp::Remu)),
    // the privileged instructions and Zicsr
    form!("mret", NOTHING, Kind::Fixed(Ins::Mret)),
    form!("wfi", NOTHING, Kind::Fixed(Ins::Wfi)),
    form!("csrrw", RD_CSR_RS1, Kind::Csr(CsrOp::Csrrw)),
    form!("csrrs", RD_CSR_RS1, Kind::Csr(CsrOp::Csrrs)),
    form!("csrrc", RD_CSR_RS1, Kind::Csr(CsrOp::Csrrc)),
    form!("csrrwi", RD_CSR_SOURCE, Kind::Csr(CsrOp::Csrrwi)),
    form!("csrrsi", RD_CSR_SOURCE, Kind::Csr(CsrOp::Csrrsi)),
    form!("csrrci", RD_CSR_SOURCE, Kind::Csr(CsrOp::Csrrci)),
    // C
    form!("c.addi4spn", STACK_SUM, Kind::Short(CRow::Addi4spn)),
    form!("c.lw", SHORT_LOAD, Kind::Short(CRow::Lw)),
    form!("c.sw", SHORT_STORE, Kind::Short(CRow::Sw)),
    form!("c.nop", NOTHING, Kind::Short(CRow::Nop)),
    form!("c.nop", SHORT_SIGNED, Kind::Short(CRow::Nop)),
    form!("c.addi", RD_SHORT_SIGNED, Kind::Short(CRow::Addi)),
    form!("c.jal", TARGET, Kind::Short(CRow::Jal)),
    form!("c.li", RD_SHORT_SIGNED, Kind::Short(CRow::Li)),
    form!("c.addi16sp", STACK_CHANGE, Kind::Short(CRow::Addi16sp)),
    form!("c.lui", UPPER, Kind::Short(CRow::Lui)),
    form!("c.srli", SHORT_SHIFT, Kind::Short(CRow::Srli)),
    form!("c.srai", SHORT_SHIFT, Kind::Short(CRow::Srai)),
    form!("c.andi", RD_SHORT_SIGNED, Kind::Short(CRow::Andi)),
    form!("c.sub", RD_RS1, Kind::Short(CRow::Sub)),
    form!("c.xor", RD_RS1, Kind::Short(CRow::Xor)),
    form!("c.or", RD_RS1, Kind::Short(CRow::Or)),
    form!("c.and", RD_RS1, Kind::Short(CRow::And)),
    form!("c.j", TARGET, Kind::Short(CRow::J)),
    form!("c.beqz", RD_TARGET, Kind::Short(CRow::Beqz)),
    form!("c.bnez", RD_TARGET, Kind::Short(CRow::Bnez)),
    form!("c.slli", SHORT_SHIFT, Kind::Short(CRow::Slli)),
    form!("c.lwsp", STACK_LOAD, Kind::Short(CRow::Lwsp)),
    form!("c.jr", RD, Kind::Short(CRow::Jr)),
    form!("c.mv", RD_RS1, Kind::Short(CRow::Mv)),
    form!("c.ebreak", NOTHING, Kind::Short(CRow::Ebreak)),
    form!("c.jalr", RD, Kind::Short(CRow::Jalr)),
    form!("c.add", RD_RS1, Kind::Short(CRow::Add)),
    form!("c.swsp", STACK_STORE, Kind::Short(CRow::Swsp)),
    // pseudo-instructions
    form!("nop", NOTHING, Kind::Imm(ImmOp::Addi)),
    form!("mv", RD_RS1, Kind::Imm(ImmOp::Addi)),
    form!("li", RD_SIGNED, Kind::Imm(ImmOp::Addi)),
    form!("li", RD_WORD, Kind::Pair),
    form!("la", RD_LABEL, Kind::Pair),
    form!("j", TARGET, Kind::Jal),
    form!("jr", RS1, Kind::Jalr),
    form!(
        "ret",
        NOTHING,
        Kind::Fixed(Ins::Jalr {
            rd: 0,
            rs1: 1,
            imm: 0
        })
    ),
    form!("beqz", RS1_TARGET, Kind::Branch(BranchOp::Beq)),
    form!("bnez", RS1_TARGET, Kind::Branch(BranchOp::Bne)),
    form!("csrr", RD_CSR, Kind::Csr(CsrOp::Csrrs)),
    form!("csrw", CSR_RS1, Kind::Csr(CsrOp::Csrrw)),
    form!("csrsi", CSR_SOURCE, Kind::Csr(CsrOp::Csrrsi)),
    form!("csrci", CSR_SOURCE, Kind::Csr(CsrOp::Csrrci)),
];

/// The table itself.
pub fn all_forms() -> &'static [Form]
    ensures { form_rows result.now ≡ forms }
{
    &FORMS
}
