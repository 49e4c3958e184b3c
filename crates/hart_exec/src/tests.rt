use super::*;
use hart_words::Regs;
use rv_encoding::{BranchOp, ImmOp, Ins, LoadOp, RegOp, StoreOp, fits};
use std::process::Abort;

const FIRST: u8 = 10;

const SECOND: u8 = 11;

const PC: u32 = 0x200;

// The effect of the instruction at 0x200, with these words in its registers a0 and a1.
fn effect_of(rt: &impl Abort, ins: Ins, first: u32, second: u32) -> Effect {
    let mut regs = Regs::new();
    regs.set(FIRST, first);
    regs.set(SECOND, second);
    assert!(rt; fits(&ins));
    let operation = operation_of(&ins);
    assert!(rt; instruction_of(&operation) == Some(ins));
    match execute(&operation, 4, &regs, PC) {
        Some(effect) => effect,
        None => unreachable!(),
    }
}

// What an operation on two registers gives, for each row of the operation, both words and the answer.
fn assert_operations(rt: &impl Abort, operations: &[(RegOp, u32, u32, u32)]) {
    for &(op, first, second, value) in operations {
        let ins = Ins::Reg {
            op,
            rd: 5,
            rs1: FIRST,
            rs2: SECOND,
        };
        let want = Effect::Go {
            rd: 5,
            value,
            next: 0x204,
        };
        assert_eq!(rt; effect_of(rt, ins, first, second), want);
    }
}

// The operations on two registers, at the edges of each.
#[test]
fn operations_on_registers(rt: HostRuntime) {
    let operations = [
        (RegOp::Add, 0xFFFF_FFFF, 2, 1),
        (RegOp::Sub, 1, 2, 0xFFFF_FFFF),
        (RegOp::Sll, 3, 33, 6),
        (RegOp::Slt, 0xFFFF_FFFF, 0, 1),
        (RegOp::Sltu, 0xFFFF_FFFF, 0, 0),
        (RegOp::Xor, 0xFF00_FF00, 0x0FF0_0FF0, 0xF0F0_F0F0),
        (RegOp::Srl, 0x8000_0000, 31, 1),
        (RegOp::Sra, 0x8000_0000, 31, 0xFFFF_FFFF),
        (RegOp::Sra, 0x7000_0000, 60, 7),
        (RegOp::Or, 0xF0F0_0000, 0x0F0F_0001, 0xFFFF_0001),
        (RegOp::And, 0xF0F0_1234, 0x0FF0_FFFF, 0x00F0_1234),
    ];
    assert_operations(&rt, &operations);
}

#[test]
fn products_and_quotients(rt: HostRuntime) {
    let operations = [
        (RegOp::Mul, 0x8000_0001, 3, 0x8000_0003),
        (RegOp::Mulh, 0xFFFF_FFFF, 0xFFFF_FFFF, 0),
        (RegOp::Mulh, 0x8000_0000, 0x8000_0000, 0x4000_0000),
        (RegOp::Mulhsu, 0xFFFF_FFFF, 0xFFFF_FFFF, 0xFFFF_FFFF),
        (RegOp::Mulhsu, 0x8000_0000, 0xFFFF_FFFF, 0x8000_0000),
        (RegOp::Mulhu, 0xFFFF_FFFF, 0xFFFF_FFFF, 0xFFFF_FFFE),
        (RegOp::Div, 0x8000_0000, 0xFFFF_FFFF, 0x8000_0000),
        (RegOp::Div, 7, 0, 0xFFFF_FFFF),
        (RegOp::Div, 0xFFFF_FFF9, 2, 0xFFFF_FFFD),
        (RegOp::Divu, 7, 0, 0xFFFF_FFFF),
        (RegOp::Divu, 0xFFFF_FFF9, 2, 0x7FFF_FFFC),
        (RegOp::Rem, 0x8000_0000, 0xFFFF_FFFF, 0),
        (RegOp::Rem, 7, 0, 7),
        (RegOp::Rem, 0xFFFF_FFF9, 2, 0xFFFF_FFFF),
        (RegOp::Rem, 7, 0xFFFF_FFFE, 1),
        (RegOp::Remu, 7, 0, 7),
        (RegOp::Remu, 0xFFFF_FFF9, 2, 1),
    ];
    assert_operations(&rt, &operations);
}

#[test]
fn operations_on_an_immediate(rt: HostRuntime) {
    let operations = [
        (ImmOp::Addi, 5, 0xFFFF_F800, 0xFFFF_F805),
        (ImmOp::Slti, 0xFFFF_FFFE, 0xFFFF_FFFF, 1),
        (ImmOp::Sltiu, 0x1000, 0xFFFF_FFFF, 1),
        (ImmOp::Xori, 0x0F0F_0F0F, 0xFFFF_FFFF, 0xF0F0_F0F0),
        (ImmOp::Ori, 0x1000, 0x555, 0x1555),
        (ImmOp::Andi, 0x1234_5678, 0xFF, 0x78),
        (ImmOp::Slli, 1, 31, 0x8000_0000),
        (ImmOp::Srli, 0xFFFF_FFFF, 28, 0xF),
        (ImmOp::Srai, 0xF000_0000, 28, 0xFFFF_FFFF),
    ];
    for (op, first, imm, value) in operations {
        let ins = Ins::Imm {
            op,
            rd: 5,
            rs1: FIRST,
            imm,
        };
        let want = Effect::Go {
            rd: 5,
            value,
            next: 0x204,
        };
        assert_eq!(rt; effect_of(&rt, ins, first, 0), want);
    }
}

// Each condition for a smaller and a greater word, as integers and as unsigned numbers, and for equal words.
#[test]
fn branches(rt: HostRuntime) {
    let conditions = [
        (BranchOp::Beq, [false, false, true]),
        (BranchOp::Bne, [true, true, false]),
        (BranchOp::Blt, [true, false, false]),
        (BranchOp::Bge, [false, true, true]),
        (BranchOp::Bltu, [false, true, false]),
        (BranchOp::Bgeu, [true, false, true]),
    ];
    for (op, taken) in conditions {
        let ins = Ins::Branch {
            op,
            rs1: FIRST,
            rs2: SECOND,
            offset: 0xFFFF_FE00,
        };
        let words = [(0xFFFF_FFFF, 1), (1, 0xFFFF_FFFF), (4, 4)];
        for ((first, second), is_taken) in words.into_iter().zip(taken) {
            let want = Effect::Go {
                rd: 0,
                value: 0,
                next: if is_taken { 0 } else { 0x204 },
            };
            assert_eq!(rt; effect_of(&rt, ins, first, second), want);
        }
    }
}

// What instructions ask for at 0x200, where FIRST holds the greatest word and SECOND 0x12345678.
fn ask_for(rt: &impl Abort, rows: &[(Ins, Effect)]) {
    for &(ins, want) in rows {
        assert_eq!(rt; effect_of(rt, ins, 0xFFFF_FFFF, 0x1234_5678), want);
    }
}

// A register's new number, and the next instruction's address.
fn go(rd: u8, value: u32, next: u32) -> Effect {
    Effect::Go { rd, value, next }
}

// The upper immediates, jumps (where rd is also rs1), and the system's.
#[test]
fn jumps_and_upper_immediates(rt: HostRuntime) {
    let jump = Ins::Jalr {
        rd: FIRST,
        rs1: FIRST,
        imm: 2,
    };
    let rows = [
        (
            Ins::Lui {
                rd: 5,
                imm: 0x1000_3000,
            },
            go(5, 0x1000_3000, 0x204),
        ),
        (
            Ins::Auipc {
                rd: 5,
                imm: 0xFFFF_F000,
            },
            go(5, 0xFFFF_F200, 0x204),
        ),
        (
            Ins::Jal {
                rd: 1,
                offset: 0xFFFF_FFFE,
            },
            go(1, 0x204, 0x1FE),
        ),
        (jump, go(FIRST, 0x204, 0)),
        (Ins::Fence { pred: 15, succ: 15 }, go(0, 0, 0x204)),
        (Ins::Wfi, Effect::System),
        (Ins::Ecall, Effect::System),
    ];
    ask_for(&rt, &rows);
}

// A load into x5.
fn load(op: LoadOp, rs1: u8, imm: u32) -> Ins {
    Ins::Load {
        op,
        rd: 5,
        rs1,
        imm,
    }
}

fn loads(at: u32, width: u32, signed: bool) -> Effect {
    Effect::Load {
        rd: 5,
        at,
        width,
        signed,
    }
}

// Accesses, also at a wrapped address.
#[test]
fn accesses(rt: HostRuntime) {
    let store = Ins::Store {
        op: StoreOp::Sh,
        rs1: FIRST,
        rs2: SECOND,
        imm: 3,
    };
    let stored = Effect::Store {
        at: 2,
        width: 2,
        value: 0x5678,
    };
    let rows = [
        (load(LoadOp::Lh, FIRST, 3), loads(2, 2, true)),
        (load(LoadOp::Lbu, SECOND, 4), loads(0x1234_567C, 1, false)),
        (store, stored),
    ];
    ask_for(&rt, &rows);
}

#[test]
fn extensions(rt: HostRuntime) {
    let loads = [
        (0x80, 1, true, 0xFFFF_FF80),
        (0x80, 1, false, 0x80),
        (0x7FFF, 2, true, 0x7FFF),
        (0x8000, 2, true, 0xFFFF_8000),
        (0x8000_0000, 4, false, 0x8000_0000),
    ];
    for (value, width, signed, want) in loads {
        assert!(rt; width == 1 || width == 2 || width == 4);
        assert!(rt; width == 4 || value < 1 << (8 * width));
        assert_eq!(rt; extend(value, width, signed), want);
    }
}
