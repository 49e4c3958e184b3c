use super::*;
use asm_forms::AsmWhy;
use asm_text::LexFault;
use std::alloc::Global;
use std::process::Abort;

// After `.entry 0` the lines give one segment from 0 on, which has these bytes.
fn spells(rt: &impl Abort, alloc: Global, lines: &str, want: &[u8]) {
    let source = format!(in alloc; ".entry 0\n{lines}\n").expect(rt, "memory");
    let assembled = assemble(alloc, source.as_bytes()).expect(rt, lines);
    assert_eq!(rt; assembled.image.len(), 1, "the segments of {lines}");
    assert_eq!(rt; assembled.image.entry(), 0);
    assert_eq!(rt; assembled.image.at(0), 0);
    assert_eq!(rt; assembled.image.bytes(0), want, "the bytes of {lines}");
}

// The source is refused in this line for this reason.
fn refuses(rt: &impl Abort, alloc: Global, source: &str, line: u32, why: AsmWhy) {
    match assemble(alloc, source.as_bytes()) {
        Ok(_) => assert!(rt; false, "{source} is taken"),
        Err(error) => assert_eq!(rt; error, AsmError::Refused { line, why }, "{source}"),
    }
}

#[test]
fn data(rt: HostRuntime) {
    let alloc = rt.alloc();
    spells(&rt, alloc, ".byte 255", &[0xFF]);
    spells(&rt, alloc, ".half 0xABCD", &[0xCD, 0xAB]);
    spells(&rt, alloc, ".word 0x12345678", &[0x78, 0x56, 0x34, 0x12]);
    spells(&rt, alloc, ".word -1", &[0xFF, 0xFF, 0xFF, 0xFF]);
    spells(&rt, alloc, ".zero 3", &[0, 0, 0]);
    spells(&rt, alloc, "nop\na: .word a", &[0x13, 0, 0, 0, 4, 0, 0, 0]);
}

#[test]
fn labels_stand_where_their_lines_do(rt: HostRuntime) {
    let alloc = rt.alloc();
    spells(
        &rt,
        alloc,
        "la a0, end\nend:",
        &[0x37, 0x05, 0, 0, 0x13, 0x05, 0x85, 0],
    );
    spells(&rt, alloc, "j end\nend: .org 8", &[0x6F, 0, 0x40, 0]);
    spells(&rt, alloc, "a : j a", &[0x6F, 0, 0, 0]);
    spells(&rt, alloc, "ra: beq a0, a0, ra", &[0x63, 0x00, 0xA5, 0x00]);
    spells(&rt, alloc, ".byte 1\nj 3", &[1, 0x6F, 0, 0x20, 0]);
}

#[test]
fn blanks_comments_and_carriage_returns(rt: HostRuntime) {
    let alloc = rt.alloc();
    spells(&rt, alloc, "# nothing\r\n\r\n  .byte\t1 # one\r", &[1]);
}

#[test]
fn a_source_without_bytes(rt: HostRuntime) {
    let assembled = assemble(rt.alloc(), b".entry -4\n.org 0x5\nx:").expect(&rt, "a program");
    assert_eq!(rt; assembled.image.entry(), 0xFFFF_FFFC);
    assert!(rt; assembled.image.is_empty());
    assert_eq!(rt; assembled.symbols.len(), 1);
    assert_eq!(rt; assembled.symbols.name(0), "x");
    assert_eq!(rt; assembled.symbols.address(0), 5);
}

#[test]
fn segments_in_the_order_of_their_lines(rt: HostRuntime) {
    let source =
        b".entry b\n.org 0x20000000\nb: .byte 1\n.org 4\na: .byte 2\n.byte 3\n.org 6\n.byte 4";
    let assembled = assemble(rt.alloc(), source).expect(&rt, "a program");
    assert_eq!(rt; assembled.image.entry(), 0x2000_0000);
    assert_eq!(rt; assembled.image.len(), 3);
    assert_eq!(rt; assembled.image.at(0), 0x2000_0000);
    assert_eq!(rt; assembled.image.bytes(0), [1].as_slice());
    assert_eq!(rt; assembled.image.at(1), 4);
    assert_eq!(rt; assembled.image.bytes(1), [2, 3].as_slice());
    assert_eq!(rt; assembled.image.at(2), 6);
    assert_eq!(rt; assembled.image.bytes(2), [4].as_slice());
    assert_eq!(rt; assembled.symbols.len(), 2);
    assert_eq!(rt; assembled.symbols.name(0), "b");
    assert_eq!(rt; assembled.symbols.name(1), "a");
    assert_eq!(rt; assembled.symbols.address(1), 4);
}

const EXAMPLE: &str = ".entry start
.org 0x140
.word rx
.org 0x148
.word tk
.org 0x200
start: lui sp, 0x20010
li t0, 64
csrw mtvec, t0
li t0, 256
csrw mtvt, t0
lui t1, 0x2000
li t0, 2
sb t0, 0(t1)
lui t1, 0x2001
lui t0, 0xC0000
addi t0, t0, 256
sw t0, 64(t1)
lui t0, 0x40000
addi t0, t0, 256
sw t0, 72(t1)
lui s0, 0x10000
li t0, 1
sw t0, 8(s0)
lui s1, 0x10002
li t0, 10
sw t0, 4(s1)
li t0, 1
sw t0, 8(s1)
lui s2, 0x20000
li s3, 200
loop: csrsi mstatus, 8
csrci mstatus, 8
lw t0, 0(s2)
bne t0, s3, loop
lui t0, 0x10003
sw zero, 0(t0)
rx: lui a0, 0x10000
lw a1, 0(a0)
sw a1, 0(a0)
lui a0, 0x20000
lw a1, 0(a0)
addi a1, a1, 1
sw a1, 0(a0)
ret
tk: lui a0, 0x10002
sw zero, 12(a0)
lui a0, 0x20000
lw a1, 4(a0)
addi a1, a1, 1
sw a1, 4(a0)
nop
ret
";

#[test]
fn the_example_and_its_symbols(rt: HostRuntime) {
    let assembled = assemble(rt.alloc(), EXAMPLE.as_bytes()).expect(&rt, "a program");
    assert_eq!(rt; assembled.image.entry(), 0x200);
    assert_eq!(rt; assembled.image.len(), 3);
    assert_eq!(rt; assembled.image.bytes(0), [0x7C, 0x02, 0, 0].as_slice());
    assert_eq!(rt; assembled.image.bytes(1), [0x9C, 0x02, 0, 0].as_slice());
    assert_eq!(rt; assembled.image.bytes(2).len(), 188);
    assert_eq!(rt; assembled.symbols.len(), 4);
    let want = [
        ("start", 0x200),
        ("loop", 0x264),
        ("rx", 0x27C),
        ("tk", 0x29C),
    ];
    for (i, (name, address)) in want.into_iter().enumerate() {
        assert!(rt; i < assembled.symbols.len());
        assert_eq!(rt; assembled.symbols.name(i), name);
        assert_eq!(rt; assembled.symbols.address(i), address);
    }
}

#[test]
fn lines_that_are_not_read(rt: HostRuntime) {
    let alloc = rt.alloc();
    let bad = AsmWhy::BadOperands;
    let unknown = AsmWhy::UnknownMnemonic;
    refuses(&rt, alloc, ".entry 0\nadi a0, zero, 5", 2, unknown);
    refuses(&rt, alloc, ".entry 0\n5", 2, unknown);
    refuses(&rt, alloc, ".entry 0\n: nop", 2, unknown);
    refuses(&rt, alloc, ".entry 0\na.b: nop", 2, unknown);
    refuses(&rt, alloc, ".entry 0\n.word: 5", 2, bad);
    refuses(&rt, alloc, ".entry 0\naddi a0, zero, 2048", 2, bad);
    refuses(&rt, alloc, ".entry 0\n.zero 0", 2, bad);
    refuses(&rt, alloc, ".entry 0\n.entry 4", 2, bad);
    refuses(&rt, alloc, ".entry 0\n.byte 256", 2, bad);
    refuses(
        &rt,
        alloc,
        ".entry 0\nli a0, 0x100000000",
        2,
        AsmWhy::Lex(LexFault::BadNumber(7)),
    );
}

#[test]
fn labels_and_targets(rt: HostRuntime) {
    let alloc = rt.alloc();
    let reach = AsmWhy::OutOfReach;
    refuses(
        &rt,
        alloc,
        ".entry 0\na: nop\na: nop",
        3,
        AsmWhy::DoubleLabel,
    );
    refuses(&rt, alloc, ".entry 0\na:\na: adi", 3, AsmWhy::DoubleLabel);
    refuses(&rt, alloc, ".entry 0\nj nowhere", 2, AsmWhy::UnknownLabel);
    refuses(
        &rt,
        alloc,
        ".entry 0\nj nowhere\naddi a0",
        3,
        AsmWhy::BadOperands,
    );
    refuses(&rt, alloc, "nop\nj nowhere", 2, AsmWhy::UnknownLabel);
    refuses(&rt, alloc, ".entry 0\nbeq zero, zero, 0x1000", 2, reach);
    refuses(&rt, alloc, ".entry 0\nj 3", 2, reach);
    spells(
        &rt,
        alloc,
        "beq zero, zero, 0xFFE",
        &[0xE3, 0x0F, 0x00, 0x7E],
    );
    spells(&rt, alloc, "j 4294967294", &[0x6F, 0xF0, 0xFF, 0xFF]);
}

#[test]
fn places_that_are_refused(rt: HostRuntime) {
    let alloc = rt.alloc();
    let outside = AsmWhy::OutsideMemory;
    refuses(&rt, alloc, ".entry 0\n.org 0x10000\nnop", 3, outside);
    refuses(&rt, alloc, ".entry 0\n.org 0xFFFE\nnop", 3, outside);
    refuses(&rt, alloc, ".entry 0\n.org -2\nnop", 3, outside);
    refuses(
        &rt,
        alloc,
        ".entry 0\n.byte 1\n.org 0\n.byte 1",
        4,
        AsmWhy::Overlap,
    );
    refuses(&rt, alloc, ".entry 0\n.byte 1\n.zero 65536", 3, outside);
    refuses(&rt, alloc, "", 0, AsmWhy::NoEntry);
    refuses(&rt, alloc, "nop", 0, AsmWhy::NoEntry);
}

// So many times an `.org` of its own place, each with a byte or without one.
fn apart(alloc: Global, count: u32, rest: &str) -> Result<String, std::alloc::AllocError> {
    let mut source = String::from_str(alloc, ".entry 0\n")?;
    for i in 0..count {
        let line = format!(in alloc; ".org {i}\n.byte 1\n")?;
        source.push_str(line.as_str())?;
    }
    source.push_str(rest)?;
    Ok(source)
}

#[test]
fn at_most_64_segments(rt: HostRuntime) {
    let alloc = rt.alloc();
    let few = apart(alloc, 64, ".org 99\n").expect(&rt, "memory");
    let assembled = assemble(alloc, few.as_bytes()).expect(&rt, "64 segments");
    assert_eq!(rt; assembled.image.len(), 64);
    let many = apart(alloc, 64, ".org 99\n.byte 1\n").expect(&rt, "memory");
    refuses(&rt, alloc, many.as_str(), 131, AsmWhy::TooLarge);
}

#[test]
fn at_most_two_mebibytes(rt: HostRuntime) {
    let alloc = rt.alloc();
    let mut source = String::from_str(alloc, ".entry 0\n#").expect(&rt, "memory");
    for _ in 0..65_535 {
        source
            .push_str("0123456789 0123456789 0123456789")
            .expect(&rt, "memory");
    }
    source
        .push_str("0123456789 0123456789\n")
        .expect(&rt, "memory");
    assert_eq!(rt; source.len(), MAX_SOURCE);
    assert!(rt; assemble(alloc, source.as_bytes()).is_ok());
    source.push_str("\n").expect(&rt, "memory");
    refuses(&rt, alloc, source.as_str(), 0, AsmWhy::TooLarge);
}
