use super::*;
use asm_fields::Number;
use asm_text::LexFault;
use std::alloc::Global;
use std::process::Abort;

// The bytes that the line asks for at address 0, where a target is an address.
fn spells(rt: &impl Abort, alloc: Global, line: &str, want: &[u8]) {
    let read = read_line(line.as_bytes()).expect(rt, line);
    let task = read.statement.expect(rt, line).expect(rt, line);
    let number = match task.operands.number {
        Number::Given(number) | Number::Near(number) => number,
        Number::Absolute(_) | Number::NearLabel(_) => 0,
    };
    let made = operation_of(task.kind, task.operands, number);
    assert!(rt; is_fit(&made), "{line}");
    let mut bytes = Vec::new(alloc);
    push_operation(&mut bytes, &made).expect(rt, "memory");
    assert_eq!(rt; bytes.as_slice(), want, "the bytes of {line}");
}

// What the line asks for is refused for this reason.
fn refuses(rt: &impl Abort, line: &str, why: AsmWhy) {
    match read_line(line.as_bytes()) {
        Ok(read) => match read.statement {
            Ok(_) => assert!(rt; false, "{line} is taken"),
            Err(told) => assert_eq!(rt; told, why, "{line}"),
        },
        Err(told) => assert_eq!(rt; told, why, "{line}"),
    }
}

#[test]
fn upper_jumps_and_branches(rt: HostRuntime) {
    let cases = [
        ("lui a0, 0x12345", [0x37, 0x55, 0x34, 0x12]),
        ("auipc a1, 0xfffff", [0x97, 0xF5, 0xFF, 0xFF]),
        ("jal ra, 2048", [0xEF, 0x00, 0x10, 0x00]),
        ("jalr a0, -4(a1)", [0x67, 0x85, 0xC5, 0xFF]),
        ("beq a0, a1, -4096", [0x63, 0x00, 0xB5, 0x80]),
        ("bne t0, t1, 4094", [0xE3, 0x9F, 0x62, 0x7E]),
        ("blt a0, zero, 8", [0x63, 0x44, 0x05, 0x00]),
        ("bge a0, zero, 8", [0x63, 0x54, 0x05, 0x00]),
        ("bltu a0, zero, 8", [0x63, 0x64, 0x05, 0x00]),
        ("bgeu a0, zero, 8", [0x63, 0x74, 0x05, 0x00]),
    ];
    for (line, want) in cases {
        spells(&rt, rt.alloc(), line, &want);
    }
}

#[test]
fn loads_and_stores(rt: HostRuntime) {
    let cases = [
        ("lb a0, -1(sp)", [0x03, 0x05, 0xF1, 0xFF]),
        ("lh a0, 2(sp)", [0x03, 0x15, 0x21, 0x00]),
        ("lw a0, 2047(sp)", [0x03, 0x25, 0xF1, 0x7F]),
        ("lbu a0, 0(s0)", [0x03, 0x45, 0x04, 0x00]),
        ("lhu a0, -2048(t6)", [0x03, 0xD5, 0x0F, 0x80]),
        ("sb a0, -1(sp)", [0xA3, 0x0F, 0xA1, 0xFE]),
        ("sh a0, 2(sp)", [0x23, 0x11, 0xA1, 0x00]),
        ("sw a0, 2047(sp)", [0xA3, 0x2F, 0xA1, 0x7E]),
    ];
    for (line, want) in cases {
        spells(&rt, rt.alloc(), line, &want);
    }
}

#[test]
fn immediates(rt: HostRuntime) {
    let cases = [
        ("addi a0, zero, 5", [0x13, 0x05, 0x50, 0x00]),
        ("slti a0, a1, -1", [0x13, 0xA5, 0xF5, 0xFF]),
        ("sltiu a0, a1, 1", [0x13, 0xB5, 0x15, 0x00]),
        ("xori a0, a1, -1", [0x13, 0xC5, 0xF5, 0xFF]),
        ("ori a0, a1, 15", [0x13, 0xE5, 0xF5, 0x00]),
        ("andi a0, a1, 255", [0x13, 0xF5, 0xF5, 0x0F]),
        ("slli a0, a1, 31", [0x13, 0x95, 0xF5, 0x01]),
        ("srli a0, a1, 1", [0x13, 0xD5, 0x15, 0x00]),
        ("srai a0, a1, 7", [0x13, 0xD5, 0x75, 0x40]),
    ];
    for (line, want) in cases {
        spells(&rt, rt.alloc(), line, &want);
    }
}

#[test]
fn registers(rt: HostRuntime) {
    let cases = [
        ("add a0, a1, a2", [0x33, 0x85, 0xC5, 0x00]),
        ("sub a0, a1, a2", [0x33, 0x85, 0xC5, 0x40]),
        ("sll a0, a1, a2", [0x33, 0x95, 0xC5, 0x00]),
        ("slt a0, a1, a2", [0x33, 0xA5, 0xC5, 0x00]),
        ("sltu a0, a1, a2", [0x33, 0xB5, 0xC5, 0x00]),
        ("xor a0, a1, a2", [0x33, 0xC5, 0xC5, 0x00]),
        ("srl a0, a1, a2", [0x33, 0xD5, 0xC5, 0x00]),
        ("sra a0, a1, a2", [0x33, 0xD5, 0xC5, 0x40]),
        ("or a0, a1, a2", [0x33, 0xE5, 0xC5, 0x00]),
        ("and a0, a1, a2", [0x33, 0xF5, 0xC5, 0x00]),
    ];
    for (line, want) in cases {
        spells(&rt, rt.alloc(), line, &want);
    }
}

#[test]
fn fences_and_calls(rt: HostRuntime) {
    let cases = [
        ("fence", [0x0F, 0x00, 0xF0, 0x0F]),
        ("fence iorw, 0", [0x0F, 0x00, 0x00, 0x0F]),
        ("fence ir, ow", [0x0F, 0x00, 0x50, 0x0A]),
        ("ecall", [0x73, 0x00, 0x00, 0x00]),
        ("ebreak", [0x73, 0x00, 0x10, 0x00]),
    ];
    for (line, want) in cases {
        spells(&rt, rt.alloc(), line, &want);
    }
}

#[test]
fn products(rt: HostRuntime) {
    let cases = [
        ("mul s0, s1, s2", [0x33, 0x84, 0x24, 0x03]),
        ("mulh s0, s1, s2", [0x33, 0x94, 0x24, 0x03]),
        ("mulhsu s0, s1, s2", [0x33, 0xA4, 0x24, 0x03]),
        ("mulhu s0, s1, s2", [0x33, 0xB4, 0x24, 0x03]),
        ("div s0, s1, s2", [0x33, 0xC4, 0x24, 0x03]),
        ("divu s0, s1, s2", [0x33, 0xD4, 0x24, 0x03]),
        ("rem s0, s1, s2", [0x33, 0xE4, 0x24, 0x03]),
        ("remu s0, s1, s2", [0x33, 0xF4, 0x24, 0x03]),
    ];
    for (line, want) in cases {
        spells(&rt, rt.alloc(), line, &want);
    }
}

#[test]
fn control_registers(rt: HostRuntime) {
    let cases = [
        ("mret", [0x73, 0x00, 0x20, 0x30]),
        ("wfi", [0x73, 0x00, 0x50, 0x10]),
        ("csrrw a0, mstatus, a1", [0x73, 0x95, 0x05, 0x30]),
        ("csrrs a0, mepc, zero", [0x73, 0x25, 0x10, 0x34]),
        ("csrrc a0, 0xFB1, t3", [0x73, 0x35, 0x1E, 0xFB]),
        ("csrrwi a0, mscratch, 31", [0x73, 0xD5, 0x0F, 0x34]),
        ("csrrsi zero, mstatus, 8", [0x73, 0x60, 0x04, 0x30]),
        ("csrrci zero, mstatus, 8", [0x73, 0x70, 0x04, 0x30]),
    ];
    for (line, want) in cases {
        spells(&rt, rt.alloc(), line, &want);
    }
}

#[test]
fn compressed_loads_and_numbers(rt: HostRuntime) {
    let cases = [
        ("c.addi4spn a0, sp, 16", [0x08, 0x08]),
        ("c.lw a0, 4(a1)", [0xC8, 0x41]),
        ("c.sw a0, 124(a1)", [0xE8, 0xDD]),
        ("c.nop", [0x01, 0x00]),
        ("c.nop 5", [0x15, 0x00]),
        ("c.addi a0, -32", [0x01, 0x15]),
        ("c.jal -2048", [0x01, 0x30]),
        ("c.li t0, 31", [0xFD, 0x42]),
        ("c.addi16sp sp, -512", [0x01, 0x71]),
        ("c.lui a1, 31", [0xFD, 0x65]),
        ("c.lui a1, 0xfffe0", [0x81, 0x75]),
        ("c.srli a0, 3", [0x0D, 0x81]),
    ];
    for (line, want) in cases {
        spells(&rt, rt.alloc(), line, &want);
    }
}

#[test]
fn compressed_arithmetic(rt: HostRuntime) {
    let cases = [
        ("c.srai a0, 31", [0x7D, 0x85]),
        ("c.andi a0, -1", [0x7D, 0x99]),
        ("c.sub a0, a1", [0x0D, 0x8D]),
        ("c.xor a0, a1", [0x2D, 0x8D]),
        ("c.or a0, a1", [0x4D, 0x8D]),
        ("c.and a0, a1", [0x6D, 0x8D]),
        ("c.j 2046", [0xFD, 0xAF]),
    ];
    for (line, want) in cases {
        spells(&rt, rt.alloc(), line, &want);
    }
}

#[test]
fn compressed_jumps_and_stack(rt: HostRuntime) {
    let cases = [
        ("c.beqz a0, -256", [0x01, 0xD1]),
        ("c.bnez a0, 254", [0x7D, 0xED]),
        ("c.slli t0, 31", [0xFE, 0x02]),
        ("c.lwsp t0, 252(sp)", [0xFE, 0x52]),
        ("c.jr t0", [0x82, 0x82]),
        ("c.mv t0, t1", [0x9A, 0x82]),
        ("c.ebreak", [0x02, 0x90]),
        ("c.jalr t0", [0x82, 0x92]),
        ("c.add t0, t1", [0x9A, 0x92]),
        ("c.swsp t0, 4(sp)", [0x16, 0xC2]),
    ];
    for (line, want) in cases {
        spells(&rt, rt.alloc(), line, &want);
    }
}

#[test]
fn short_forms_of_arithmetic(rt: HostRuntime) {
    let cases = [
        ("nop", [0x13, 0x00, 0x00, 0x00]),
        ("mv a0, a1", [0x13, 0x85, 0x05, 0x00]),
        ("li a0, -2048", [0x13, 0x05, 0x00, 0x80]),
        ("li a0, 2047", [0x13, 0x05, 0xF0, 0x7F]),
        ("li a0, -1", [0x13, 0x05, 0xF0, 0xFF]),
    ];
    for (line, want) in cases {
        spells(&rt, rt.alloc(), line, &want);
    }
}

#[test]
fn short_forms_of_jumps(rt: HostRuntime) {
    let cases = [
        ("j -4", [0x6F, 0xF0, 0xDF, 0xFF]),
        ("jr a0", [0x67, 0x00, 0x05, 0x00]),
        ("ret", [0x67, 0x80, 0x00, 0x00]),
        ("beqz a0, 8", [0x63, 0x04, 0x05, 0x00]),
        ("bnez a0, 8", [0x63, 0x14, 0x05, 0x00]),
    ];
    for (line, want) in cases {
        spells(&rt, rt.alloc(), line, &want);
    }
}

#[test]
fn short_forms_of_control_registers(rt: HostRuntime) {
    let cases = [
        ("csrr a0, mcause", [0x73, 0x25, 0x20, 0x34]),
        ("csrw mepc, a0", [0x73, 0x10, 0x15, 0x34]),
        ("csrsi mstatus, 8", [0x73, 0x60, 0x04, 0x30]),
        ("csrci mstatus, 8", [0x73, 0x70, 0x04, 0x30]),
    ];
    for (line, want) in cases {
        spells(&rt, rt.alloc(), line, &want);
    }
}

#[test]
fn numbers_of_two_instructions(rt: HostRuntime) {
    let cases = [
        (
            "li a0, 2048",
            [0x37, 0x15, 0x00, 0x00, 0x13, 0x05, 0x05, 0x80],
        ),
        (
            "li a0, -2049",
            [0x37, 0xF5, 0xFF, 0xFF, 0x13, 0x05, 0xF5, 0x7F],
        ),
        (
            "li a0, 4294967295",
            [0x37, 0x05, 0x00, 0x00, 0x13, 0x05, 0xF5, 0xFF],
        ),
        (
            "li a0, 0x12345FFF",
            [0x37, 0x65, 0x34, 0x12, 0x13, 0x05, 0xF5, 0xFF],
        ),
    ];
    for (line, want) in cases {
        spells(&rt, rt.alloc(), line, &want);
    }
}

#[test]
fn operands_that_do_not_fit(rt: HostRuntime) {
    let lines = [
        "addi a0",
        "lw a0, 0(a1",
        "c.lw a0, 4(t0)",
        "c.addi4spn a0, sp, 0",
        "c.lui sp, 1",
        "c.addi16sp sp, 8",
        "la a0, 4",
        ".org x",
        ".zero 65537",
        "slli a0, a0, 32",
    ];
    for line in lines {
        refuses(&rt, line, AsmWhy::BadOperands);
    }
}

#[test]
fn lines_of_no_form(rt: HostRuntime) {
    refuses(&rt, "adi a0, zero, 5", AsmWhy::UnknownMnemonic);
    refuses(&rt, "5", AsmWhy::UnknownMnemonic);
    refuses(&rt, "a.b: nop", AsmWhy::UnknownMnemonic);
    refuses(&rt, ".word: 5", AsmWhy::BadOperands);
    refuses(
        &rt,
        "li a0, 4294967296",
        AsmWhy::Lex(LexFault::BadNumber(7)),
    );
}

#[test]
fn a_label_before_what_is_refused(rt: HostRuntime) {
    let read = read_line(b"a: adi").expect(&rt, "a label");
    assert_eq!(rt; read.label, Some("a"));
    match read.statement {
        Ok(_) => assert!(rt; false, "the mnemonic is taken"),
        Err(why) => assert_eq!(rt; why, AsmWhy::UnknownMnemonic),
    }
    let read = read_line(b"# nothing").expect(&rt, "nothing");
    assert_eq!(rt; read.label, None);
    match read.statement {
        Ok(task) => assert!(rt; task.is_none()),
        Err(_) => assert!(rt; false, "a comment is refused"),
    }
}

#[test]
fn lengths_before_labels(rt: HostRuntime) {
    let cases = [
        ("la a0, far", Extent::Takes(8)),
        ("c.j far", Extent::Takes(2)),
        (".zero 7", Extent::Takes(7)),
        (".org 0x100", Extent::Org(256)),
        (".entry far", Extent::Entry),
    ];
    for (line, want) in cases {
        let read = read_line(line.as_bytes()).expect(&rt, line);
        let task = read.statement.expect(&rt, line).expect(&rt, line);
        assert_eq!(rt; extent_of(task.kind, task.operands.amount), want, "{line}");
    }
}

#[test]
fn the_table_begins_with_the_directives(rt: HostRuntime) {
    let forms = all_forms();
    assert!(rt; !forms.is_empty());
    assert_eq!(rt; forms[0].name, ".org");
}
