use super::*;
use std::alloc::Global;
use std::process::Abort;
use std::test::Fail;

// What an assembler's words are read as, and that each is spelled again.
fn are_spelled(rt: &impl Abort, alloc: Global, words: &[(u32, &str)]) -> Result<(), Fail> {
    for &(word, text) in words {
        let ins = decode32(word).ok_or("no row spells it")?;
        assert_eq!(rt; format!(in alloc; "{ins:?}")?.as_str(), text);
        assert!(rt; fits(&ins));
        assert_eq!(rt; encode32(&ins), word);
        assert!(rt; is_canonical(word));
    }
    Ok(())
}

// A word of each row, as an assembler writes the line above it.
#[test]
fn upper_immediates_and_jumps(rt: HostRuntime) -> Result<(), Fail> {
    let words = [
        // lui t0, 0x10003
        (0x1000_32B7, "Lui { rd: 5, imm: 268447744 }"),
        // auipc a1, 0xFFFFF
        (0xFFFF_F597, "Auipc { rd: 11, imm: 4294963200 }"),
        // jal ra, -1048576
        (0x8000_00EF, "Jal { rd: 1, offset: 4293918720 }"),
        // jal zero, 349524
        (0x5545_506F, "Jal { rd: 0, offset: 349524 }"),
        // jalr ra, -2048(t6)
        (0x800F_80E7, "Jalr { rd: 1, rs1: 31, imm: 4294965248 }"),
    ];
    are_spelled(&rt, rt.alloc(), &words)
}

#[test]
fn branches(rt: HostRuntime) -> Result<(), Fail> {
    let words = [
        // beq a0, zero, 2730
        (
            0x2A05_05E3,
            "Branch { op: Beq, rs1: 10, rs2: 0, offset: 2730 }",
        ),
        // bne a0, a1, -1366
        (
            0xAAB5_15E3,
            "Branch { op: Bne, rs1: 10, rs2: 11, offset: 4294965930 }",
        ),
        // blt a0, a1, -4096
        (
            0x80B5_4063,
            "Branch { op: Blt, rs1: 10, rs2: 11, offset: 4294963200 }",
        ),
        // bge t6, t5, 4094
        (
            0x7FEF_DFE3,
            "Branch { op: Bge, rs1: 31, rs2: 30, offset: 4094 }",
        ),
        // bltu a0, a1, 2048
        (
            0x00B5_60E3,
            "Branch { op: Bltu, rs1: 10, rs2: 11, offset: 2048 }",
        ),
        // bgeu a0, a1, -2
        (
            0xFEB5_7FE3,
            "Branch { op: Bgeu, rs1: 10, rs2: 11, offset: 4294967294 }",
        ),
    ];
    are_spelled(&rt, rt.alloc(), &words)
}

#[test]
fn loads_and_stores(rt: HostRuntime) -> Result<(), Fail> {
    let words = [
        // lb a0, -1(a1)
        (
            0xFFF5_8503,
            "Load { op: Lb, rd: 10, rs1: 11, imm: 4294967295 }",
        ),
        // lh a0, 2(a1)
        (0x0025_9503, "Load { op: Lh, rd: 10, rs1: 11, imm: 2 }"),
        // lw a0, 12(sp)
        (0x00C1_2503, "Load { op: Lw, rd: 10, rs1: 2, imm: 12 }"),
        // lbu a0, 2047(a1)
        (0x7FF5_C503, "Load { op: Lbu, rd: 10, rs1: 11, imm: 2047 }"),
        // lhu a0, -2048(a1)
        (
            0x8005_D503,
            "Load { op: Lhu, rd: 10, rs1: 11, imm: 4294965248 }",
        ),
        // sb a0, -1(a1)
        (
            0xFEA5_8FA3,
            "Store { op: Sb, rs1: 11, rs2: 10, imm: 4294967295 }",
        ),
        // sh a0, 1365(a1)
        (0x54A5_9AA3, "Store { op: Sh, rs1: 11, rs2: 10, imm: 1365 }"),
        // sw a0, 0(t0)
        (0x00A2_A023, "Store { op: Sw, rs1: 5, rs2: 10, imm: 0 }"),
    ];
    are_spelled(&rt, rt.alloc(), &words)
}

#[test]
fn immediate_operations(rt: HostRuntime) -> Result<(), Fail> {
    let words = [
        // addi a0, zero, 5
        (0x0050_0513, "Imm { op: Addi, rd: 10, rs1: 0, imm: 5 }"),
        // slti a0, a1, -5
        (
            0xFFB5_A513,
            "Imm { op: Slti, rd: 10, rs1: 11, imm: 4294967291 }",
        ),
        // sltiu a0, a1, 1
        (0x0015_B513, "Imm { op: Sltiu, rd: 10, rs1: 11, imm: 1 }"),
        // xori a0, a1, -1
        (
            0xFFF5_C513,
            "Imm { op: Xori, rd: 10, rs1: 11, imm: 4294967295 }",
        ),
        // ori a0, a1, 1365
        (0x5555_E513, "Imm { op: Ori, rd: 10, rs1: 11, imm: 1365 }"),
        // andi a0, a1, 255
        (0x0FF5_F513, "Imm { op: Andi, rd: 10, rs1: 11, imm: 255 }"),
        // slli a0, a1, 31
        (0x01F5_9513, "Imm { op: Slli, rd: 10, rs1: 11, imm: 31 }"),
        // srli a0, a1, 1
        (0x0015_D513, "Imm { op: Srli, rd: 10, rs1: 11, imm: 1 }"),
        // srai a0, a1, 16
        (0x4105_D513, "Imm { op: Srai, rd: 10, rs1: 11, imm: 16 }"),
    ];
    are_spelled(&rt, rt.alloc(), &words)
}

#[test]
fn register_operations(rt: HostRuntime) -> Result<(), Fail> {
    let words = [
        // add a0, a1, t6
        (0x01F5_8533, "Reg { op: Add, rd: 10, rs1: 11, rs2: 31 }"),
        // sub a0, a1, t6
        (0x41F5_8533, "Reg { op: Sub, rd: 10, rs1: 11, rs2: 31 }"),
        // sll a0, a1, t6
        (0x01F5_9533, "Reg { op: Sll, rd: 10, rs1: 11, rs2: 31 }"),
        // slt a0, a1, t6
        (0x01F5_A533, "Reg { op: Slt, rd: 10, rs1: 11, rs2: 31 }"),
        // sltu a0, a1, t6
        (0x01F5_B533, "Reg { op: Sltu, rd: 10, rs1: 11, rs2: 31 }"),
        // xor a0, a1, t6
        (0x01F5_C533, "Reg { op: Xor, rd: 10, rs1: 11, rs2: 31 }"),
        // srl a0, a1, t6
        (0x01F5_D533, "Reg { op: Srl, rd: 10, rs1: 11, rs2: 31 }"),
        // sra a0, a1, t6
        (0x41F5_D533, "Reg { op: Sra, rd: 10, rs1: 11, rs2: 31 }"),
        // or a0, a1, t6
        (0x01F5_E533, "Reg { op: Or, rd: 10, rs1: 11, rs2: 31 }"),
        // and a0, a1, t6
        (0x01F5_F533, "Reg { op: And, rd: 10, rs1: 11, rs2: 31 }"),
    ];
    are_spelled(&rt, rt.alloc(), &words)
}

#[test]
fn multiplications_and_divisions(rt: HostRuntime) -> Result<(), Fail> {
    let words = [
        // mul a0, a1, t6
        (0x03F5_8533, "Reg { op: Mul, rd: 10, rs1: 11, rs2: 31 }"),
        // mulh a0, a1, t6
        (0x03F5_9533, "Reg { op: Mulh, rd: 10, rs1: 11, rs2: 31 }"),
        // mulhsu a0, a1, t6
        (0x03F5_A533, "Reg { op: Mulhsu, rd: 10, rs1: 11, rs2: 31 }"),
        // mulhu a0, a1, t6
        (0x03F5_B533, "Reg { op: Mulhu, rd: 10, rs1: 11, rs2: 31 }"),
        // div a0, a1, t6
        (0x03F5_C533, "Reg { op: Div, rd: 10, rs1: 11, rs2: 31 }"),
        // divu a0, a1, t6
        (0x03F5_D533, "Reg { op: Divu, rd: 10, rs1: 11, rs2: 31 }"),
        // rem a0, a1, t6
        (0x03F5_E533, "Reg { op: Rem, rd: 10, rs1: 11, rs2: 31 }"),
        // remu a0, a1, t6
        (0x03F5_F533, "Reg { op: Remu, rd: 10, rs1: 11, rs2: 31 }"),
    ];
    are_spelled(&rt, rt.alloc(), &words)
}

#[test]
fn system_instructions(rt: HostRuntime) -> Result<(), Fail> {
    let words = [
        // fence iorw, iorw
        (0x0FF0_000F, "Fence { pred: 15, succ: 15 }"),
        // fence i, w
        (0x0810_000F, "Fence { pred: 8, succ: 1 }"),
        // ecall
        (0x0000_0073, "Ecall"),
        // ebreak
        (0x0010_0073, "Ebreak"),
        // mret
        (0x3020_0073, "Mret"),
        // wfi
        (0x1050_0073, "Wfi"),
    ];
    are_spelled(&rt, rt.alloc(), &words)
}

#[test]
fn control_register_instructions(rt: HostRuntime) -> Result<(), Fail> {
    let words = [
        // csrrw a0, 0x342, a1
        (
            0x3425_9573,
            "Csr { op: Csrrw, rd: 10, source: 11, csr: 834 }",
        ),
        // csrrs a0, 0x342, zero
        (
            0x3420_2573,
            "Csr { op: Csrrs, rd: 10, source: 0, csr: 834 }",
        ),
        // csrrc a0, 0xFFF, a1
        (
            0xFFF5_B573,
            "Csr { op: Csrrc, rd: 10, source: 11, csr: 4095 }",
        ),
        // csrrwi a0, 0x307, 31
        (
            0x307F_D573,
            "Csr { op: Csrrwi, rd: 10, source: 31, csr: 775 }",
        ),
        // csrrsi a0, 0x345, 8
        (
            0x3454_6573,
            "Csr { op: Csrrsi, rd: 10, source: 8, csr: 837 }",
        ),
        // csrrci zero, 0x300, 8
        (
            0x3004_7073,
            "Csr { op: Csrrci, rd: 0, source: 8, csr: 768 }",
        ),
    ];
    are_spelled(&rt, rt.alloc(), &words)
}

// Words that no row spells: all zeros and all ones, function fields that RV32 leaves to other
// extensions, shift amounts above 31, FENCE.I, and ECALL, MRET and WFI with another field set.
#[test]
fn words_of_no_row(rt: HostRuntime) {
    let words = [
        0x0000_0000,
        0xFFFF_FFFF,
        0x0000_0001,
        0x0000_007F,
        0x0000_1067,
        0x0000_2063,
        0x0000_3063,
        0x0000_3003,
        0x0000_6003,
        0x0000_7003,
        0x0000_3023,
        0x0200_1013,
        0x4000_1013,
        0x0200_5013,
        0x4200_5013,
        0x4000_1033,
        0x4000_4033,
        0x0400_0033,
        0x6000_0033,
        0x0000_100F,
        0x0000_4073,
        0x0020_0073,
        0x1020_0073,
        0x0000_00F3,
        0x0000_8073,
        0x3020_00F3,
        0x1050_8073,
    ];
    for word in words {
        assert_eq!(rt; decode32(word), None, "{word}");
        assert!(rt; !is_canonical(word));
    }
}

#[test]
fn ignored_bits_of_fence(rt: HostRuntime) {
    let whole = Ins::Fence { pred: 15, succ: 15 };
    for word in [
        0x0FF0_008F,
        0x0FF0_0F8F,
        0x0FF0_800F,
        0x0FFF_800F,
        0x1FF0_000F,
        0x8FF0_000F,
    ] {
        assert_eq!(rt; decode32(word), Some(whole), "{word}");
        assert!(rt; !is_canonical(word));
    }
}

// Values one past what their field holds.
fn fit_none(rt: &impl Abort, instructions: &[Ins]) {
    for ins in instructions {
        assert!(rt; !fits(ins), "{ins:?}");
    }
}

// An instruction on x0 and a number past its field.
fn jump(offset: u32) -> Ins {
    Ins::Jal { rd: 0, offset }
}

fn branch(offset: u32) -> Ins {
    Ins::Branch {
        op: BranchOp::Beq,
        rs1: 0,
        rs2: 0,
        offset,
    }
}

#[test]
fn offsets_of_no_word(rt: HostRuntime) {
    let instructions = [
        Ins::Lui { rd: 0, imm: 0x800 },
        jump(1),
        jump(0x10_0000),
        branch(0x1000),
        branch(0xFFFF_FFFF),
        Ins::Load {
            op: LoadOp::Lw,
            rd: 0,
            rs1: 0,
            imm: 0x800,
        },
        Ins::Store {
            op: StoreOp::Sw,
            rs1: 0,
            rs2: 0,
            imm: 0xFFFF_F7FF,
        },
    ];
    fit_none(&rt, &instructions);
}

#[test]
fn operands_of_no_word(rt: HostRuntime) {
    let instructions = [
        Ins::Jalr {
            rd: 32,
            rs1: 0,
            imm: 0,
        },
        Ins::Imm {
            op: ImmOp::Slli,
            rd: 0,
            rs1: 0,
            imm: 32,
        },
        Ins::Reg {
            op: RegOp::Add,
            rd: 0,
            rs1: 0,
            rs2: 32,
        },
        Ins::Fence { pred: 16, succ: 0 },
        Ins::Csr {
            op: CsrOp::Csrrw,
            rd: 0,
            source: 0,
            csr: 0x1000,
        },
    ];
    fit_none(&rt, &instructions);
}
