// From half-words to compressed instructions.
ghost use Rattle.std.specs.Prelude.{◌≡◌, ◌+◌, ◌↔◌, Some, IsTrue, IsNone, IfSome};
ghost use Rattle.hart_words.specs.Bits.{bits};
ghost use Rattle.rvc_encoding.specs.Rows.{spelled16, Spells16};
ghost use Rattle.rvc_encoding.specs.Parts.{part};
ghost use Rattle.rvc_encoding.specs.Fits.{fits_row};
ghost use Rattle.rvc_encoding.specs.declared.compressed.Cins.{Cins};

use crate::compressed::Cins;
use crate::fields::{
    branch, full, jump, number, short, stack_change, stack_load, stack_store, stack_sum, upper,
    word_offset,
};
use crate::row::CRow;
use hart_words::field;

// Each of these functions reads the rows of one quadrant and function.

#[tactic(auto, using(crate::proofs::Masks::masks), unfolding(crate::specs::Parts::part))]
fn stack_pointer_plus(h: u32) -> Option<Cins>
    requires function { bits h 13 3 ≡ 0 }
    requires quadrant { bits h 0 2 ≡ 0 }
    ensures { result ≡ part 0x0000 h }
{
    let imm = stack_sum(h);
    if imm == 0 {
        return None;
    }
    Some(Cins {
        row: CRow::Addi4spn,
        a: short(h, 2),
        b: 2,
        imm,
    })
}

#[tactic(auto, using(crate::proofs::Masks::masks), unfolding(crate::specs::Parts::part))]
fn add_number(h: u32) -> Option<Cins>
    requires function { bits h 13 3 ≡ 0 }
    requires quadrant { bits h 0 2 ≡ 1 }
    ensures { result ≡ part 0x0001 h }
{
    let rd = full(h, 7);
    Some(Cins {
        row: if rd == 0 { CRow::Nop } else { CRow::Addi },
        a: rd,
        b: 0,
        imm: number(h),
    })
}

#[tactic(auto, using(crate::proofs::Masks::masks), unfolding(crate::specs::Parts::part))]
fn change_of_stack_pointer(h: u32) -> Option<Cins>
    requires function { bits h 13 3 ≡ 3 }
    requires quadrant { bits h 0 2 ≡ 1 }
    requires register { bits h 7 5 ≡ 2 }
    ensures { result ≡ part 0x6001 h }
{
    let imm = stack_change(h);
    if imm == 0 {
        return None;
    }
    Some(Cins {
        row: CRow::Addi16sp,
        a: 2,
        b: 0,
        imm,
    })
}

#[tactic(auto, using(crate::proofs::Masks::masks), unfolding(crate::specs::Parts::part))]
fn upper_number(h: u32) -> Option<Cins>
    requires function { bits h 13 3 ≡ 3 }
    requires quadrant { bits h 0 2 ≡ 1 }
    ensures { result ≡ part 0x6001 h }
{
    let rd = full(h, 7);
    if rd == 2 {
        return change_of_stack_pointer(h);
    }
    let imm = upper(h);
    if imm == 0 {
        return None;
    }
    Some(Cins {
        row: CRow::Lui,
        a: rd,
        b: 0,
        imm,
    })
}

// The instruction of a row with two registers of three bits.
fn two_short(row: CRow, h: u32) -> Cins
    ensures { result ≡ record { row = row; a = 8 + bits h 7 3; b = 8 + bits h 2 3; imm = 0 } }
{
    Cins {
        row,
        a: short(h, 7),
        b: short(h, 2),
        imm: 0,
    }
}

// The instruction of a row that shifts to the right.
fn shifted_right(row: CRow, h: u32) -> Cins
    ensures { result ≡ record { row = row; a = 8 + bits h 7 3; b = 0; imm = bits h 2 5 } }
{
    Cins {
        row,
        a: short(h, 7),
        b: 0,
        imm: field(h, 2, 5),
    }
}

#[tactic(auto, using(crate::proofs::Masks::masks), unfolding(crate::specs::Parts::part))]
fn on_two_registers(h: u32) -> Option<Cins>
    requires function { bits h 13 3 ≡ 4 }
    requires quadrant { bits h 0 2 ≡ 1 }
    requires kind { bits h 10 2 ≡ 3 }
    ensures { result ≡ part 0x8001 h }
{
    if field(h, 12, 1) == 1 {
        return None;
    }
    let row = match field(h, 5, 2) {
        0 => CRow::Sub,
        1 => CRow::Xor,
        2 => CRow::Or,
        _ => CRow::And,
    };
    Some(two_short(row, h))
}

#[tactic(auto, using(crate::proofs::Masks::masks), unfolding(crate::specs::Parts::part))]
fn arithmetic(h: u32) -> Option<Cins>
    requires function { bits h 13 3 ≡ 4 }
    requires quadrant { bits h 0 2 ≡ 1 }
    ensures { result ≡ part 0x8001 h }
{
    match field(h, 10, 2) {
        0 if field(h, 12, 1) == 0 => Some(shifted_right(CRow::Srli, h)),
        1 if field(h, 12, 1) == 0 => Some(shifted_right(CRow::Srai, h)),
        2 => Some(Cins {
            row: CRow::Andi,
            a: short(h, 7),
            b: 0,
            imm: number(h),
        }),
        3 => on_two_registers(h),
        _ => None,
    }
}

#[tactic(auto, using(crate::proofs::Masks::masks), unfolding(crate::specs::Parts::part))]
fn shift_left(h: u32) -> Option<Cins>
    requires function { bits h 13 3 ≡ 0 }
    requires quadrant { bits h 0 2 ≡ 2 }
    ensures { result ≡ part 0x0002 h }
{
    if field(h, 12, 1) == 1 {
        return None;
    }
    Some(Cins {
        row: CRow::Slli,
        a: full(h, 7),
        b: 0,
        imm: field(h, 2, 5),
    })
}

#[tactic(auto, using(crate::proofs::Masks::masks), unfolding(crate::specs::Parts::part))]
fn load_from_stack(h: u32) -> Option<Cins>
    requires function { bits h 13 3 ≡ 2 }
    requires quadrant { bits h 0 2 ≡ 2 }
    ensures { result ≡ part 0x4002 h }
{
    let rd = full(h, 7);
    if rd == 0 {
        return None;
    }
    Some(Cins {
        row: CRow::Lwsp,
        a: rd,
        b: 2,
        imm: stack_load(h),
    })
}

#[tactic(auto, using(crate::proofs::Masks::masks), unfolding(crate::specs::Parts::part))]
fn jump_or_move(h: u32) -> Option<Cins>
    requires function { bits h 13 3 ≡ 4 }
    requires quadrant { bits h 0 2 ≡ 2 }
    requires first { bits h 12 1 ≡ 0 }
    ensures { result ≡ part 0x8002 h }
{
    let (a, b) = (full(h, 7), full(h, 2));
    if b != 0 {
        return Some(Cins {
            row: CRow::Mv,
            a,
            b,
            imm: 0,
        });
    }
    if a == 0 {
        return None;
    }
    Some(Cins {
        row: CRow::Jr,
        a: a,
        b: 0,
        imm: 0,
    })
}

#[tactic(auto, using(crate::proofs::Masks::masks), unfolding(crate::specs::Parts::part))]
fn break_call_or_add(h: u32) -> Option<Cins>
    requires function { bits h 13 3 ≡ 4 }
    requires quadrant { bits h 0 2 ≡ 2 }
    requires first { bits h 12 1 ≡ 1 }
    ensures { result ≡ part 0x8002 h }
{
    let (a, b) = (full(h, 7), full(h, 2));
    let row = if b != 0 {
        CRow::Add
    } else if a != 0 {
        CRow::Jalr
    } else {
        CRow::Ebreak
    };
    Some(Cins { row, a, b, imm: 0 })
}

// And these the rows of one quadrant.

#[tactic(auto, using(crate::proofs::Groups::groups, crate::proofs::Masks::masks), unfolding(crate::specs::Parts::part))]
#[inline(always)]
fn quadrant_0(h: u32) -> Option<Cins>
    requires { bits h 0 2 ≡ 0 }
    ensures { result ≡ spelled16 h }
{
    match field(h, 13, 3) {
        0 => stack_pointer_plus(h),
        2 => Some(Cins {
            row: CRow::Lw,
            a: short(h, 2),
            b: short(h, 7),
            imm: word_offset(h),
        }),
        6 => Some(Cins {
            row: CRow::Sw,
            a: short(h, 7),
            b: short(h, 2),
            imm: word_offset(h),
        }),
        _ => None,
    }
}

#[tactic(auto, using(crate::proofs::Groups::groups, crate::proofs::Masks::masks), unfolding(crate::specs::Parts::part))]
#[inline(always)]
fn quadrant_1(h: u32) -> Option<Cins>
    requires { bits h 0 2 ≡ 1 }
    ensures { result ≡ spelled16 h }
{
    match field(h, 13, 3) {
        0 => add_number(h),
        1 => Some(Cins {
            row: CRow::Jal,
            a: 0,
            b: 0,
            imm: jump(h),
        }),
        2 => Some(Cins {
            row: CRow::Li,
            a: full(h, 7),
            b: 0,
            imm: number(h),
        }),
        3 => upper_number(h),
        4 => arithmetic(h),
        5 => Some(Cins {
            row: CRow::J,
            a: 0,
            b: 0,
            imm: jump(h),
        }),
        6 => Some(Cins {
            row: CRow::Beqz,
            a: short(h, 7),
            b: 0,
            imm: branch(h),
        }),
        _ => Some(Cins {
            row: CRow::Bnez,
            a: short(h, 7),
            b: 0,
            imm: branch(h),
        }),
    }
}

#[tactic(auto, using(crate::proofs::Groups::groups, crate::proofs::Masks::masks), unfolding(crate::specs::Parts::part))]
#[inline(always)]
fn quadrant_2(h: u32) -> Option<Cins>
    requires { bits h 0 2 ≡ 2 }
    ensures { result ≡ spelled16 h }
{
    match field(h, 13, 3) {
        0 => shift_left(h),
        2 => load_from_stack(h),
        4 if field(h, 12, 1) == 0 => jump_or_move(h),
        4 => break_call_or_add(h),
        6 => Some(Cins {
            row: CRow::Swsp,
            a: 2,
            b: full(h, 2),
            imm: stack_store(h),
        }),
        _ => None,
    }
}

#[tactic(auto, using(crate::proofs::Groups::groups, crate::proofs::Masks::masks), unfolding(crate::specs::Parts::part))]
#[inline(always)]
fn row_of(half: u16) -> Option<Cins>
    ensures { result ≡ spelled16 half }
{
    let h = u32::from(half);
    match field(h, 0, 2) {
        0 => quadrant_0(h),
        1 => quadrant_1(h),
        2 => quadrant_2(h),
        _ => None,
    }
}

/// The instruction that the half-word spells.
#[inline(always)]
pub fn decode16(h: u16) -> Option<Cins>
    ensures table { result ≡ spelled16 h }
    ensures found { (c : Cins) → result ≡ Some c → Spells16 h c }
    ensures only { (c : Cins) → Spells16 h c → result ≡ Some c }
    ensures none { IsNone result ↔ ((c : Cins) → ¬ Spells16 h c) }
    ensures fits { IfSome result (λ c. IsTrue (fits_row c)) }
{
    row_of(h)
}
