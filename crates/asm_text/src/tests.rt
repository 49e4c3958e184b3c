use super::*;
use hart_words::Line;
use std::process::Abort;

// A line has these tokens, each with its kind, start, end and value, and this answer.
fn is_read(
    rt: &impl Abort,
    line: &[u8],
    want: &[(TokenKind, usize, usize, i64)],
    answer: Result<(), LexFault>,
) {
    let mut tokens = Tokens::new();
    assert_eq!(rt;
        lex_line(line, &mut tokens),
        answer,
        "the answer at {line:?}"
    );
    assert_eq!(rt; tokens.len(), want.len(), "the count at {line:?}");
    for (i, (kind, start, end, value)) in want.iter().copied().enumerate() {
        let token = Token {
            kind,
            start,
            end,
            value,
        };
        assert!(rt; i < tokens.len());
        assert_eq!(rt; tokens.get(i), token, "token {i} of {line:?}");
    }
}

#[test]
fn instructions(rt: HostRuntime) {
    is_read(
        &rt,
        b"loop: addi a0,\ta0, -4 # down",
        &[
            (TokenKind::Name, 0, 4, 0),
            (TokenKind::Colon, 4, 5, 0),
            (TokenKind::Name, 6, 10, 0),
            (TokenKind::Name, 11, 13, 0),
            (TokenKind::Comma, 13, 14, 0),
            (TokenKind::Name, 15, 17, 0),
            (TokenKind::Comma, 17, 18, 0),
            (TokenKind::Number, 19, 21, -4),
        ],
        Ok(()),
    );
    is_read(
        &rt,
        b"lw s0,0x10(sp)",
        &[
            (TokenKind::Name, 0, 2, 0),
            (TokenKind::Name, 3, 5, 0),
            (TokenKind::Comma, 5, 6, 0),
            (TokenKind::Number, 6, 10, 16),
            (TokenKind::Open, 10, 11, 0),
            (TokenKind::Name, 11, 13, 0),
            (TokenKind::Close, 13, 14, 0),
        ],
        Ok(()),
    );
}

#[test]
fn lines_without_tokens(rt: HostRuntime) {
    let lines: [&[u8]; 6] = [b"", b" ", b"\t \t", b"#", b"  # a, b: 5x", b"#\xFF\x80\r\n"];
    for line in lines {
        is_read(&rt, line, &[], Ok(()));
    }
}

// A number, and what it is worth.
const NUMBERS: [(&[u8], i64); 12] = [
    (b"0", 0),
    (b"007", 7),
    (b"2147483648", 2_147_483_648),
    (b"4294967295", 4_294_967_295),
    (b"-4294967295", -4_294_967_295),
    (b"-0", 0),
    (b"0x0", 0),
    (b"0xfFfF", 65_535),
    (b"0xFFFFFFFF", 4_294_967_295),
    (b"0x00000000000000000000A", 10),
    (b"-0x10", -16),
    (b"-0xffffffff", -4_294_967_295),
];

#[test]
fn numbers(rt: HostRuntime) {
    for (line, value) in NUMBERS {
        is_read(
            &rt,
            line,
            &[(TokenKind::Number, 0, line.len(), value)],
            Ok(()),
        );
    }
}

#[test]
fn numbers_that_are_none(rt: HostRuntime) {
    let lines: [&[u8]; 14] = [
        b"5x",
        b"0x",
        b"-0x",
        b"0x_1",
        b"0X1",
        b"0xG",
        b"0b1",
        b"12ab",
        b"-5x",
        b"4294967296",
        b"-4294967296",
        b"0x100000000",
        b"-0x100000000",
        b"99999999999999999999999999",
    ];
    for line in lines {
        is_read(&rt, line, &[], Err(LexFault::BadNumber(0)));
    }
    is_read(
        &rt,
        b"a, 5x, b",
        &[(TokenKind::Name, 0, 1, 0), (TokenKind::Comma, 1, 2, 0)],
        Err(LexFault::BadNumber(3)),
    );
}

// Lines whose first token is refused by its first byte.
#[test]
fn no_token_begins(rt: HostRuntime) {
    let lines: [&[u8]; 14] = [
        b"+5", b"- 5", b"-", b"--5", b"-x", b"-_1", b"\r", b"\n", b"\0", b"\x7F", b"\x80", b"\xFF",
        b"\"a\"", b"$1",
    ];
    for line in lines {
        is_read(&rt, line, &[], Err(LexFault::BadChar(0)));
    }
}

// A line, the end of its one name, and the place of the byte that isn't taken.
#[test]
fn the_first_place_is_told(rt: HostRuntime) {
    let lines: [(&[u8], usize, usize); 6] = [
        (b"nop\r", 3, 3),
        (b"nop\n", 3, 3),
        (b"nop \r# x", 3, 4),
        (b"a\nb", 1, 1),
        (b"a - 5", 1, 2),
        (b"ab \xC3\xA9 $", 2, 3),
    ];
    for (line, end, place) in lines {
        is_read(
            &rt,
            line,
            &[(TokenKind::Name, 0, end, 0)],
            Err(LexFault::BadChar(place)),
        );
    }
}

#[test]
fn names(rt: HostRuntime) {
    let lines: [&[u8]; 9] = [
        b"a", b"Z", b"_", b".", b".word", b"c.nop", b"_a.B_9.", b"a5x", b"x0x_1",
    ];
    for line in lines {
        is_read(&rt, line, &[(TokenKind::Name, 0, line.len(), 0)], Ok(()));
    }
}

#[test]
fn tokens_without_blanks(rt: HostRuntime) {
    is_read(
        &rt,
        b"x-1",
        &[(TokenKind::Name, 0, 1, 0), (TokenKind::Number, 1, 3, -1)],
        Ok(()),
    );
    is_read(
        &rt,
        b"5-3.a",
        &[
            (TokenKind::Number, 0, 1, 5),
            (TokenKind::Number, 1, 3, -3),
            (TokenKind::Name, 3, 5, 0),
        ],
        Ok(()),
    );
    is_read(
        &rt,
        b"5_x#",
        &[(TokenKind::Number, 0, 1, 5), (TokenKind::Name, 1, 3, 0)],
        Ok(()),
    );
}

// The first sixteen tokens of a line of commas that stand one after another.
fn sixteen_commas() -> [(TokenKind, usize, usize, i64); 16] {
    let mut commas = [(TokenKind::Comma, 0, 1, 0); 16];
    for (i, comma) in commas.iter_mut().enumerate() {
        *comma = (TokenKind::Comma, i, i + 1, 0);
    }
    commas
}

#[test]
fn at_most_sixteen_tokens(rt: HostRuntime) {
    let commas = sixteen_commas();
    is_read(&rt, b",,,,,,,,,,,,,,,,", &commas, Ok(()));
    is_read(&rt, b",,,,,,,,,,,,,,,, # the comment, too", &commas, Ok(()));
    is_read(
        &rt,
        b",,,,,,,,,,,,,,,,,",
        &commas,
        Err(LexFault::TooManyTokens(16)),
    );
    is_read(
        &rt,
        b",,,,,,,,,,,,,,,,  a $",
        &commas,
        Err(LexFault::TooManyTokens(18)),
    );
    is_read(
        &rt,
        b",,,,,,,,,,,,,,,,$,",
        &commas,
        Err(LexFault::BadChar(16)),
    );
    is_read(
        &rt,
        b",,,,,,,,,,,,,,,, 5x,",
        &commas,
        Err(LexFault::BadNumber(17)),
    );
}

#[test]
fn the_list_is_emptied_first(rt: HostRuntime) {
    let mut tokens = Tokens::new();
    assert_eq!(rt; tokens.len(), 0);
    assert_eq!(rt; lex_line(b"a b c", &mut tokens), Ok(()));
    assert_eq!(rt; tokens.len(), 3);
    assert_eq!(rt; lex_line(b"d +", &mut tokens), Err(LexFault::BadChar(2)));
    assert_eq!(rt; tokens.len(), 1);
    assert_eq!(rt; lex_line(b"# e", &mut tokens), Ok(()));
    assert_eq!(rt; tokens.len(), 0);
}

// The bytes that a line may consist of alone, but for names, digits and the comment.
#[test]
fn every_byte(rt: HostRuntime) {
    let mut tokens = Tokens::new();
    for byte in 0..=255u8 {
        let want = match byte {
            b' ' | b'\t' | b'#' | b',' | b':' | b'(' | b')' | b'_' | b'.' => Ok(()),
            b'0'..=b'9' | b'A'..=b'Z' | b'a'..=b'z' => Ok(()),
            _ => Err(LexFault::BadChar(0)),
        };
        assert_eq!(rt; lex_line(&[byte], &mut tokens), want, "at {byte}");
    }
}

// The names by which registers 0 to 31 are printed, in the order of the calling convention.
const PRINTED: [&str; 32] = [
    "zero", "ra", "sp", "gp", "tp", "t0", "t1", "t2", "s0", "s1", "a0", "a1", "a2", "a3", "a4",
    "a5", "a6", "a7", "s2", "s3", "s4", "s5", "s6", "s7", "s8", "s9", "s10", "s11", "t3", "t4",
    "t5", "t6",
];

const NUMBERED: [&str; 32] = [
    "x0", "x1", "x2", "x3", "x4", "x5", "x6", "x7", "x8", "x9", "x10", "x11", "x12", "x13", "x14",
    "x15", "x16", "x17", "x18", "x19", "x20", "x21", "x22", "x23", "x24", "x25", "x26", "x27",
    "x28", "x29", "x30", "x31",
];

#[test]
fn every_register(rt: HostRuntime) {
    for register in 0..32u8 {
        let name = PRINTED[register as usize];
        assert_eq!(rt; register_of(name.as_bytes()), Some(register), "{name}");
        assert_eq!(rt;
            register_name(register).as_bytes(),
            name.as_bytes(),
            "{name}"
        );
        let numbered = NUMBERED[register as usize];
        assert_eq!(rt;
            register_of(numbered.as_bytes()),
            Some(register),
            "{numbered}"
        );
    }
    assert_eq!(rt; register_of(b"fp"), Some(8));
}

#[test]
fn no_register(rt: HostRuntime) {
    let names: [&[u8]; 14] = [
        b"", b"x", b"x32", b"x00", b"x01", b"X1", b"A0", b"a8", b"s12", b"t7", b"pc", b"fp ",
        b"zer", b"zeroo",
    ];
    for name in names {
        assert_eq!(rt; register_of(name), None, "{name:?}");
    }
}

// The names of the manual's and the interrupt controller's registers, with their numbers.
const CSRS: [(&str, u16); 19] = [
    ("mstatus", 0x300),
    ("misa", 0x301),
    ("mie", 0x304),
    ("mip", 0x344),
    ("mtvec", 0x305),
    ("mtvt", 0x307),
    ("mscratch", 0x340),
    ("mepc", 0x341),
    ("mcause", 0x342),
    ("mtval", 0x343),
    ("mintthresh", 0x347),
    ("mintstatus", 0xFB1),
    ("mvendorid", 0xF11),
    ("marchid", 0xF12),
    ("mimpid", 0xF13),
    ("mhartid", 0xF14),
    ("mnxti", 0x345),
    ("mscratchcsw", 0x348),
    ("mscratchcswl", 0x349),
];

#[test]
fn every_csr(rt: HostRuntime) {
    for (name, number) in CSRS {
        assert_eq!(rt; csr_of(name.as_bytes()), Some(number), "{name}");
        let shown = csr_name(number).expect(&rt, "a name");
        assert_eq!(rt; shown.as_bytes(), name.as_bytes(), "{name}");
    }
    let mut named = 0;
    for number in 0..4096 {
        if csr_name(number).is_some() {
            assert!(rt; named < 19);
            named += 1;
        }
    }
    assert_eq!(rt; named, 19);
}

#[test]
fn no_csr(rt: HostRuntime) {
    let names: [&[u8]; 8] = [
        b"",
        b"m",
        b"cycle",
        b"mstatush",
        b"MSTATUS",
        b"mstatu",
        b"x0",
        b"0x300",
    ];
    for name in names {
        assert_eq!(rt; csr_of(name), None, "{name:?}");
    }
}

#[test]
fn numbers_are_printed(rt: HostRuntime) {
    let mut line = Line::new();
    put_hexadecimal(&mut line, 8, 0x2000_00AF);
    line.put_text(" ");
    put_hexadecimal(&mut line, 3, 0xFB1);
    line.put_text(" ");
    put_hexadecimal(&mut line, 2, 0x1234);
    assert_eq!(rt; line.bytes(), b"0x200000AF 0xFB1 0x34".as_slice());
    line.clear();
    put_decimal(&mut line, -2048);
    line.put_text(" ");
    put_decimal(&mut line, 4_294_967_295);
    line.put_text(" ");
    put_decimal(&mut line, 0);
    assert_eq!(rt; line.bytes(), b"-2048 4294967295 0".as_slice());
}
