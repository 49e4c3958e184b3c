use super::*;
use rv_encoding::encode32;
use std::process::Abort;

// A row's half-word, its operands, and the word that it stands for.
type Row = (u16, CRow, u8, u8, u32, u32);

fn are_rows(rt: &impl Abort, rows: &[Row]) {
    for &(half, row, a, b, imm, word) in rows {
        let found = decode16(half);
        assert_eq!(rt; found, Some(Cins { row, a, b, imm }), "{half}");
        if let Some(c) = found {
            assert_eq!(rt; encode16(&c), half);
            assert_eq!(rt; encode32(&expand(&c)), word, "{half}");
        }
    }
}

// One half-word of each row, as the manual's assembler spells the instruction.
#[test]
fn rows_of_quadrant_0(rt: HostRuntime) {
    let rows = [
        // addi a0, sp, 16
        (0x0808, CRow::Addi4spn, 10, 2, 16, 0x0101_0513),
        // lw a0, 0(a1)
        (0x4188, CRow::Lw, 10, 11, 0, 0x0005_A503),
        // sw a0, 0(a1)
        (0xC188, CRow::Sw, 11, 10, 0, 0x00A5_A023),
    ];
    are_rows(&rt, &rows);
}

#[test]
fn immediate_rows_of_quadrant_1(rt: HostRuntime) {
    let rows = [
        // nop
        (0x0001, CRow::Nop, 0, 0, 0, 0x0000_0013),
        // addi sp, sp, -16
        (0x1141, CRow::Addi, 2, 0, 0xFFFF_FFF0, 0xFF01_0113),
        // jal ra, 4
        (0x2011, CRow::Jal, 0, 0, 4, 0x0040_00EF),
        // li a0, 5
        (0x4515, CRow::Li, 10, 0, 5, 0x0050_0513),
        // addi sp, sp, -64
        (0x7139, CRow::Addi16sp, 2, 0, 0xFFFF_FFC0, 0xFC01_0113),
        // lui a5, 0xfffff
        (0x77FD, CRow::Lui, 15, 0, 0xFFFF_F000, 0xFFFF_F7B7),
        // srli a0, a0, 1
        (0x8105, CRow::Srli, 10, 0, 1, 0x0015_5513),
        // srai a0, a0, 1
        (0x8505, CRow::Srai, 10, 0, 1, 0x4015_5513),
        // andi a0, a0, 1
        (0x8905, CRow::Andi, 10, 0, 1, 0x0015_7513),
    ];
    are_rows(&rt, &rows);
}

#[test]
fn other_rows_of_quadrant_1(rt: HostRuntime) {
    let rows = [
        // sub a0, a0, a1
        (0x8D0D, CRow::Sub, 10, 11, 0, 0x40B5_0533),
        // xor a0, a0, a1
        (0x8D2D, CRow::Xor, 10, 11, 0, 0x00B5_4533),
        // or a0, a0, a1
        (0x8D4D, CRow::Or, 10, 11, 0, 0x00B5_6533),
        // and a0, a0, a1
        (0x8D6D, CRow::And, 10, 11, 0, 0x00B5_7533),
        // j 0
        (0xA001, CRow::J, 0, 0, 0, 0x0000_006F),
        // beqz a0, 0
        (0xC101, CRow::Beqz, 10, 0, 0, 0x0005_0063),
        // bnez a0, 6
        (0xE119, CRow::Bnez, 10, 0, 6, 0x0005_1363),
    ];
    are_rows(&rt, &rows);
}

#[test]
fn rows_of_quadrant_2(rt: HostRuntime) {
    let rows = [
        // slli a0, a0, 1
        (0x0506, CRow::Slli, 10, 0, 1, 0x0015_1513),
        // lw ra, 12(sp)
        (0x40B2, CRow::Lwsp, 1, 2, 12, 0x00C1_2083),
        // ret
        (0x8082, CRow::Jr, 1, 0, 0, 0x0000_8067),
        // mv a0, a1
        (0x852E, CRow::Mv, 10, 11, 0, 0x00B0_0533),
        // ebreak
        (0x9002, CRow::Ebreak, 0, 0, 0, 0x0010_0073),
        // jalr a0
        (0x9502, CRow::Jalr, 10, 0, 0, 0x0005_00E7),
        // add a0, a0, a1
        (0x952E, CRow::Add, 10, 11, 0, 0x00B5_0533),
        // sw ra, 12(sp)
        (0xC606, CRow::Swsp, 2, 1, 12, 0x0011_2623),
    ];
    are_rows(&rt, &rows);
}

// Half-words that no row spells, by what the table asks of them.
#[test]
fn what_no_row_spells(rt: HostRuntime) {
    let halves = [
        0x0000, // addi4spn of 0
        0x2000, // a load of a double
        0x6101, // addi16sp of 0
        0x6081, // lui of 0
        0x9001, // srli by 32
        0x9C01, // subw
        0x1082, // slli by 32
        0x4002, // lwsp of x0
        0x8002, // jr of x0
        0x0513, // the head of a word
    ];
    for half in halves {
        assert_eq!(rt; decode16(half), None, "{half}");
    }
}

#[test]
fn lengths(rt: HostRuntime) {
    for (half, length) in [(0x4514, 2), (0x4515, 2), (0x4516, 2), (0x0513, 4)] {
        assert_eq!(rt; length_of(half), length);
    }
}

// What each bit of an immediate is worth, for each row that has one: the row's half-word with no such bit, and the
// worths of bits 2 to 12, 0 where the bit is no immediate's.
fn are_worth(rt: &impl Abort, rows: &[(u16, [u32; 11])]) {
    for &(half, worths) in rows {
        for (bit, worth) in worths.into_iter().enumerate() {
            if worth != 0 && bit < 11 {
                let with_bit = half | 4 << bit;
                assert_eq!(rt;
                    decode16(with_bit).map(|c| c.imm),
                    Some(worth),
                    "{with_bit}"
                );
            }
        }
    }
}

#[test]
fn each_bit_of_an_offset(rt: HostRuntime) {
    let word_offset = [0, 0, 0, 64, 4, 0, 0, 0, 8, 16, 32];
    let jump = [32, 2, 4, 8, 128, 64, 1024, 256, 512, 16, 0xFFFF_F800];
    let branch = [32, 2, 4, 64, 128, 0, 0, 0, 8, 16, 0xFFFF_FF00];
    let rows = [
        (0x0000, [0, 0, 0, 8, 4, 64, 128, 256, 512, 16, 32]),
        (0x4000, word_offset),
        (0xC000, word_offset),
        (0x2001, jump),
        (0xA001, jump),
        (0xC001, branch),
        (0xE001, branch),
        (0x4082, [64, 128, 4, 8, 16, 0, 0, 0, 0, 0, 32]),
        (0xC002, [0, 0, 0, 0, 0, 64, 128, 4, 8, 16, 32]),
    ];
    are_worth(&rt, &rows);
}

#[test]
fn each_bit_of_a_number(rt: HostRuntime) {
    let number = [1, 2, 4, 8, 16, 0, 0, 0, 0, 0, 0xFFFF_FFE0];
    let upper = [
        0x1000,
        0x2000,
        0x4000,
        0x8000,
        0x1_0000,
        0,
        0,
        0,
        0,
        0,
        0xFFFE_0000,
    ];
    let amount = [1, 2, 4, 8, 16, 0, 0, 0, 0, 0, 0];
    let rows = [
        (0x0001, number),
        (0x0081, number),
        (0x4001, number),
        (0x6101, [32, 128, 256, 64, 16, 0, 0, 0, 0, 0, 0xFFFF_FE00]),
        (0x6081, upper),
        (0x8001, amount),
        (0x8401, amount),
        (0x8801, number),
        (0x0082, amount),
    ];
    are_worth(&rt, &rows);
}

// How many half-words each row spells, by its fields.
// Quadrant 0: addi4spn 8 * 255, lw and sw 8 * 8 * 32 each: 6,136.
// Quadrant 1: nop 64, addi 31 * 64, jal 2,048, li 32 * 64, addi16sp 63, lui 31 * 63, srli and srai 8 * 32 each,
// andi 8 * 64, the four on two registers 64 each, j 2,048, beqz and bnez 8 * 256 each: 15,584.
// Quadrant 2: slli 32 * 32, lwsp 31 * 64, jr and jalr 31 each, mv and add 32 * 31 each, ebreak 1, swsp 32 * 64: 7,103.
#[test]
fn all_half_words(rt: HostRuntime) {
    let mut spelled = 0u32;
    for half in 0..=u16::MAX {
        if let Some(c) = decode16(half) {
            assert_eq!(rt; encode16(&c), half);
            spelled = spelled.saturating_add(1);
        }
    }
    assert_eq!(rt; spelled, 6_136 + 15_584 + 7_103);
    assert_eq!(rt; spelled, 28_823);
}
