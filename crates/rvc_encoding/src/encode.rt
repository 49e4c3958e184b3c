// From compressed instructions to half-words.
ghost use Rattle.std.specs.Prelude.{◌≡◌, ℕ, ◌<◌, ◌^◌, IsTrue, true};
ghost use Rattle.rvc_encoding.specs.Fields.{names, register_bits, immediate_bits};
ghost use Rattle.rvc_encoding.specs.Rows.{row_of, Spells16};
ghost use Rattle.rvc_encoding.specs.Fits.{fits_row};
ghost use Rattle.rvc_encoding.specs.Halves.{half_of};

use crate::compressed::Cins;
use crate::row::CRow;
use crate::spread::{
    amount_bits, branch_bits, full_bits, jump_bits, number_bits, short_bits, stack_change_bits,
    stack_load_bits, stack_store_bits, stack_sum_bits, upper_bits, word_offset_bits,
};

// The bits that are the row's own.
fn matched(row: CRow) -> u32
    ensures value { result ≡ (row_of row).match }
    ensures small { result < 2 ^ 16 }
{
    match row {
        CRow::Addi4spn => 0x0000,
        CRow::Lw => 0x4000,
        CRow::Sw => 0xC000,
        CRow::Nop => 0x0001,
        CRow::Addi => 0x0001,
        CRow::Jal => 0x2001,
        CRow::Li => 0x4001,
        CRow::Addi16sp => 0x6101,
        CRow::Lui => 0x6001,
        CRow::Srli => 0x8001,
        CRow::Srai => 0x8401,
        CRow::Andi => 0x8801,
        CRow::Sub => 0x8C01,
        CRow::Xor => 0x8C21,
        CRow::Or => 0x8C41,
        CRow::And => 0x8C61,
        CRow::J => 0xA001,
        CRow::Beqz => 0xC001,
        CRow::Bnez => 0xE001,
        CRow::Slli => 0x0002,
        CRow::Lwsp => 0x4002,
        CRow::Jr => 0x8002,
        CRow::Mv => 0x8002,
        CRow::Ebreak => 0x9002,
        CRow::Jalr => 0x9002,
        CRow::Add => 0x9002,
        CRow::Swsp => 0xC002,
    }
}

fn first_bits(row: CRow, a: u8) -> u32
    requires { names (row_of row).first a ≡ true }
    ensures bits { result ≡ register_bits (row_of row).first a }
    ensures small { result < 0x1000 }
{
    match row {
        CRow::Addi4spn | CRow::Lw => short_bits(a, 2),
        CRow::Sw | CRow::Srli | CRow::Srai | CRow::Andi | CRow::Sub => short_bits(a, 7),
        CRow::Xor | CRow::Or | CRow::And | CRow::Beqz | CRow::Bnez => short_bits(a, 7),
        CRow::Addi | CRow::Li | CRow::Lui | CRow::Slli | CRow::Lwsp => full_bits(a, 7),
        CRow::Jr | CRow::Mv | CRow::Jalr | CRow::Add => full_bits(a, 7),
        CRow::Nop | CRow::Jal | CRow::Addi16sp | CRow::J | CRow::Ebreak | CRow::Swsp => 0,
    }
}

fn second_bits(row: CRow, b: u8) -> u32
    requires { names (row_of row).second b ≡ true }
    ensures bits { result ≡ register_bits (row_of row).second b }
    ensures small { result < 0x1000 }
{
    match row {
        CRow::Lw => short_bits(b, 7),
        CRow::Sw | CRow::Sub | CRow::Xor | CRow::Or | CRow::And => short_bits(b, 2),
        CRow::Mv | CRow::Add | CRow::Swsp => full_bits(b, 2),
        CRow::Addi4spn | CRow::Nop | CRow::Addi | CRow::Jal | CRow::Li | CRow::Addi16sp => 0,
        CRow::Lui | CRow::Srli | CRow::Srai | CRow::Andi | CRow::J | CRow::Beqz => 0,
        CRow::Bnez | CRow::Slli | CRow::Lwsp | CRow::Jr | CRow::Ebreak | CRow::Jalr => 0,
    }
}

fn immediate_bits(row: CRow, imm: u32) -> u32
    ensures bits { result ≡ immediate_bits (row_of row).immediate imm }
    ensures small { result < 0x2000 }
{
    match row {
        CRow::Addi4spn => stack_sum_bits(imm),
        CRow::Lw | CRow::Sw => word_offset_bits(imm),
        CRow::Nop | CRow::Addi | CRow::Li | CRow::Andi => number_bits(imm),
        CRow::Jal | CRow::J => jump_bits(imm),
        CRow::Addi16sp => stack_change_bits(imm),
        CRow::Lui => upper_bits(imm),
        CRow::Srli | CRow::Srai | CRow::Slli => amount_bits(imm),
        CRow::Beqz | CRow::Bnez => branch_bits(imm),
        CRow::Lwsp => stack_load_bits(imm),
        CRow::Swsp => stack_store_bits(imm),
        CRow::Sub | CRow::Xor | CRow::Or | CRow::And | CRow::Mv | CRow::Add => 0,
        CRow::Jr | CRow::Ebreak | CRow::Jalr => 0,
    }
}

// The parts of the half-word together.
#[tactic(auto, unfolding(crate::specs::Halves::half_of))]
fn encoded(c: &Cins) -> u32
    requires { IsTrue (fits_row c.now) }
    ensures { result ≡ half_of c.now }
{
    matched(c.row) + first_bits(c.row, c.a) + second_bits(c.row, c.b) + immediate_bits(c.row, c.imm)
}

/// The half-word that spells the instruction.
pub fn encode16(c: &Cins) -> u16
    requires { IsTrue (fits_row c.now) }
    ensures half { result ≡ half_of c.now }
    ensures spells { Spells16 result c.now }
    ensures only { (h : ℕ) → h < 2 ^ 16 → Spells16 h c.now → h ≡ result }
{
    encoded(c) as u16
}
