// Which compressed instructions some half-word spells.
ghost use Rattle.std.specs.Prelude.{◌≡◌, ℕ, ◌≤◌, ◌<◌, ◌^◌, ◌↔◌, IsTrue, true, false};
ghost use Rattle.rvc_encoding.specs.Fields.{Short, names, is_number, spells_value};
ghost use Rattle.rvc_encoding.specs.Rows.{row_of, allowed, Spells16};
ghost use Rattle.rvc_encoding.specs.Fits.{fits_row};

use crate::compressed::Cins;
use crate::row::CRow;
use hart_words::sign;

// Whether three bits can name the register.
fn is_short(register: u8) -> bool
    ensures { result ≡ names (Short 0) register }
{
    8 <= register && register < 16
}

fn first_fits(row: CRow, a: u8) -> bool
    ensures { result ≡ names (row_of row).first a }
{
    match row {
        CRow::Addi4spn | CRow::Lw | CRow::Sw | CRow::Srli | CRow::Srai | CRow::Andi => is_short(a),
        CRow::Sub | CRow::Xor | CRow::Or | CRow::And | CRow::Beqz | CRow::Bnez => is_short(a),
        CRow::Addi | CRow::Li | CRow::Lui | CRow::Slli | CRow::Lwsp => a < 32,
        CRow::Jr | CRow::Mv | CRow::Jalr | CRow::Add => a < 32,
        CRow::Addi16sp | CRow::Swsp => a == 2,
        CRow::Nop | CRow::Jal | CRow::J | CRow::Ebreak => a == 0,
    }
}

fn second_fits(row: CRow, b: u8) -> bool
    ensures { result ≡ names (row_of row).second b }
{
    match row {
        CRow::Lw | CRow::Sw | CRow::Sub | CRow::Xor | CRow::Or | CRow::And => is_short(b),
        CRow::Mv | CRow::Add | CRow::Swsp => b < 32,
        CRow::Addi4spn | CRow::Lwsp => b == 2,
        CRow::Nop | CRow::Addi | CRow::Jal | CRow::Li | CRow::Addi16sp | CRow::Lui => b == 0,
        CRow::Srli | CRow::Srai | CRow::Andi | CRow::J | CRow::Beqz | CRow::Bnez => b == 0,
        CRow::Slli | CRow::Jr | CRow::Ebreak | CRow::Jalr => b == 0,
    }
}

fn is_unsigned_number(imm: u32, zeros: u32, bits: u32) -> bool
    requires zeros { zeros < 32 }
    requires bits { bits < 32 }
    ensures { result ≡ is_number false zeros bits imm }
{
    imm % (1 << zeros) == 0 && imm % (1 << bits) == imm
}

fn is_signed_number(imm: u32, zeros: u32, bits: u32) -> bool
    requires zeros { zeros < 32 }
    requires some { 1 ≤ bits }
    requires bits { bits < 32 }
    ensures { result ≡ is_number true zeros bits imm }
{
    imm % (1 << zeros) == 0 && sign(imm % (1 << bits), bits) == imm
}

fn immediate_fits(row: CRow, imm: u32) -> bool
    ensures { result ≡ spells_value (row_of row).immediate imm }
{
    match row {
        CRow::Nop | CRow::Addi | CRow::Li | CRow::Andi => is_signed_number(imm, 0, 6),
        CRow::Jal | CRow::J => is_signed_number(imm, 1, 12),
        CRow::Beqz | CRow::Bnez => is_signed_number(imm, 1, 9),
        CRow::Addi16sp => is_signed_number(imm, 4, 10),
        CRow::Lui => is_signed_number(imm, 12, 18),
        CRow::Addi4spn => is_unsigned_number(imm, 2, 10),
        CRow::Lw | CRow::Sw => is_unsigned_number(imm, 2, 7),
        CRow::Lwsp | CRow::Swsp => is_unsigned_number(imm, 2, 8),
        CRow::Srli | CRow::Srai | CRow::Slli => is_unsigned_number(imm, 0, 5),
        CRow::Sub | CRow::Xor | CRow::Or | CRow::And | CRow::Mv | CRow::Add => imm == 0,
        CRow::Jr | CRow::Ebreak | CRow::Jalr => imm == 0,
    }
}

fn is_allowed(c: &Cins) -> bool
    ensures { result ≡ allowed c.now }
{
    match c.row {
        CRow::Addi4spn | CRow::Addi16sp => c.imm != 0,
        CRow::Lui => c.a != 2 && c.imm != 0,
        CRow::Addi | CRow::Lwsp | CRow::Jr | CRow::Jalr => c.a != 0,
        CRow::Mv | CRow::Add => c.b != 0,
        CRow::Lw | CRow::Sw | CRow::Nop | CRow::Jal | CRow::Li | CRow::Srli | CRow::Srai => true,
        CRow::Andi | CRow::Sub | CRow::Xor | CRow::Or | CRow::And | CRow::J => true,
        CRow::Beqz | CRow::Bnez | CRow::Slli | CRow::Ebreak | CRow::Swsp => true,
    }
}

// Whether each field of the row can hold what the instruction has, and the row allows that.
fn is_fit(c: &Cins) -> bool
    ensures { result ≡ fits_row c.now }
{
    first_fits(c.row, c.a)
        && second_fits(c.row, c.b)
        && immediate_fits(c.row, c.imm)
        && is_allowed(c)
}

/// Whether some half-word spells the instruction.
pub fn fits16(c: &Cins) -> bool
    ensures value { result ≡ fits_row c.now }
    ensures spelled { IsTrue result ↔ ((h : ℕ) × (h < 2 ^ 16) × Spells16 h c.now) }
{
    is_fit(c)
}
