use super::*;
use asm_text::{TokenKind, Tokens, lex_line};
use std::process::Abort;

// Two registers, a comma between them.
const TWO: [Item; 3] = [
    Item::Operand(Field::Rd),
    Item::Mark(TokenKind::Comma),
    Item::Operand(Field::Rs1),
];

// The operands that a line of these items alone has, without its number.
fn reads(rt: &impl Abort, items: &[Item], line: &str, want: (u8, u8, u8, u16)) {
    let mut tokens = Tokens::new();
    lex_line(line.as_bytes(), &mut tokens).expect(rt, line);
    match read_items(items, line.as_bytes(), &tokens, 0, without_operands()) {
        Some(read) => {
            let told = (read.rd, read.rs1, read.rs2, read.csr);
            assert_eq!(rt; told, want, "{line}");
        }
        None => assert!(rt; false, "{line} is refused"),
    }
}

// The number of a line of this field alone, where it waits for no label.
fn counts(rt: &impl Abort, field: Field, line: &str, want: u32) {
    let mut tokens = Tokens::new();
    lex_line(line.as_bytes(), &mut tokens).expect(rt, line);
    let items = [Item::Operand(field)];
    match read_items(&items, line.as_bytes(), &tokens, 0, without_operands()) {
        Some(read) => match read.number {
            Number::Given(n) | Number::Near(n) => assert_eq!(rt; n, want, "{line}"),
            Number::Absolute(_) | Number::NearLabel(_) => assert!(rt; false, "{line} is a label"),
        },
        None => assert!(rt; false, "{line} is refused"),
    }
}

// A line of these items alone has no operands.
fn refuses(rt: &impl Abort, items: &[Item], line: &str) {
    let mut tokens = Tokens::new();
    lex_line(line.as_bytes(), &mut tokens).expect(rt, line);
    let read = read_items(items, line.as_bytes(), &tokens, 0, without_operands());
    assert!(rt; read.is_none(), "{line} is taken");
}

#[test]
fn registers_sets_and_control_registers(rt: HostRuntime) {
    reads(&rt, &TWO, "a0, t6", (10, 31, 0, 0));
    reads(&rt, &[Item::Operand(Field::Rs2)], "fp", (0, 0, 8, 0));
    reads(&rt, &[Item::Operand(Field::Csr)], "mepc", (0, 0, 0, 0x341));
    reads(&rt, &[Item::Operand(Field::Csr)], "4095", (0, 0, 0, 4095));
    reads(&rt, &[Item::Operand(Field::Source)], "31", (0, 31, 0, 0));
    reads(&rt, &[Item::Operand(Field::Pred)], "iorw", (0, 15, 0, 0));
    reads(&rt, &[Item::Operand(Field::Succ)], "0", (0, 0, 0, 0));
}

#[test]
fn numbers_at_their_ends(rt: HostRuntime) {
    counts(&rt, Field::Signed(2048), "-2048", 0xFFFF_F800);
    counts(&rt, Field::Signed(2048), "2047", 2047);
    counts(&rt, Field::Below(32), "31", 31);
    counts(&rt, Field::Upper, "0xfffff", 0xFFFF_F000);
    counts(&rt, Field::Word, "-0x80000000", 0x8000_0000);
    counts(&rt, Field::Word, "4294967295", 0xFFFF_FFFF);
    counts(&rt, Field::Target, "-4", 0xFFFF_FFFC);
}

#[test]
fn what_is_no_operand(rt: HostRuntime) {
    refuses(&rt, &TWO, "a0, t7");
    refuses(&rt, &TWO, "a0 : t6");
    refuses(&rt, &TWO, "a0,");
    refuses(&rt, &TWO, "a0, t6,");
    refuses(&rt, &[Item::Operand(Field::Csr)], "4096");
    refuses(&rt, &[Item::Operand(Field::Pred)], "wr");
    refuses(&rt, &[Item::Operand(Field::Pred)], "1");
    refuses(&rt, &[Item::Operand(Field::Signed(2048))], "2048");
    refuses(&rt, &[Item::Operand(Field::Signed(2048))], "-2049");
    refuses(&rt, &[Item::Operand(Field::Upper)], "0x100000");
    refuses(&rt, &[Item::Operand(Field::Word)], "-0x80000001");
    refuses(&rt, &[Item::Operand(Field::Label)], "a.b");
    refuses(&rt, &[Item::Operand(Field::Label)], "4");
}

#[test]
fn a_name_is_a_label(rt: HostRuntime) {
    let line = b"far";
    let mut tokens = Tokens::new();
    lex_line(line, &mut tokens).expect(&rt, "far");
    let items = [Item::Operand(Field::Target)];
    match read_items(&items, line, &tokens, 0, without_operands()) {
        Some(read) => match read.number {
            Number::NearLabel(name) => assert_eq!(rt; name, "far"),
            _ => assert!(rt; false, "far is a number"),
        },
        None => assert!(rt; false, "far is refused"),
    }
}
