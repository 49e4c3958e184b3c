use super::*;
use std::test::Fail;

// The fields and signs of words whose bits are read off by hand.
#[test]
fn fields_and_signs(rt: HostRuntime) {
    let fields = [
        (0xFFFF_FFFF, 0, 32, 0xFFFF_FFFF),
        (0x8000_0000, 31, 1, 1),
        (0x1234_5678, 4, 8, 0x67),
        (0x1234_5678, 12, 1, 1),
    ];
    for (word, low, count, want) in fields {
        assert!(rt; low < 32 && count >= 1 && count <= 32 - low);
        assert_eq!(rt; field(word, low, count), want);
    }
    let signs = [
        (0x7FF, 12, 0x7FF),
        (0x800, 12, 0xFFFF_F800),
        (0xFFF, 12, 0xFFFF_FFFF),
        (1, 1, 0xFFFF_FFFF),
        (0x8000_0000, 32, 0x8000_0000),
    ];
    for (value, bits, want) in signs {
        assert!(rt; bits >= 1 && bits <= 32);
        assert_eq!(rt; sign(value, bits), want);
    }
}

#[test]
fn twos_complement(rt: HostRuntime) {
    assert_eq!(rt; signed(0x7FFF_FFFF), 2_147_483_647);
    assert_eq!(rt; signed(0x8000_0000), -2_147_483_648);
    assert_eq!(rt; signed(0xFFFF_FFFF), -1);
    assert_eq!(rt; wrap(-1), 0xFFFF_FFFF);
    assert_eq!(rt; wrap(0x1_0000_0005), 5);
    assert_eq!(rt; wrap(i64::MIN), 0);
}

#[test]
fn register_zero_stays(rt: HostRuntime) {
    let mut regs = Regs::new();
    regs.set(0, 7);
    regs.set(31, 9);
    assert_eq!(rt; regs.get(0), 0);
    assert_eq!(rt; regs.get(31), 9);
    assert_eq!(rt; regs.get(30), 0);
}

#[test]
fn lines(rt: HostRuntime) {
    let mut line = Line::new();
    line.put_text("x5 ");
    line.put_hex8(0x1000_3ABC);
    line.put_hex4(0x0A5F);
    line.put_hex2(0x9E);
    assert_eq!(rt; line.bytes(), b"x5 10003ABC0A5F9E".as_slice());
    line.clear();
    line.put_dec(0);
    line.put_text(" ");
    line.put_dec(18_446_744_073_709_551_615);
    assert_eq!(rt; line.bytes(), b"0 18446744073709551615".as_slice());
    assert_eq!(rt; line.spare(), 106);
}

#[test]
fn texts(rt: HostRuntime) -> Result<(), Fail> {
    let mut text = Text::new(rt.alloc());
    text.push_bytes(b"end ")?;
    text.push_bytes(b"halt")?;
    assert_eq!(rt; text.bytes(), b"end halt".as_slice());
    Ok(())
}

// A line feed at the end of a text is followed by one more line, which is empty.
#[test]
fn first_lines(rt: HostRuntime) {
    let cases = [
        (
            b"ab\ncd\n".as_slice(),
            b"ab".as_slice(),
            Some(b"cd\n".as_slice()),
        ),
        (b"cd\n".as_slice(), b"cd".as_slice(), Some(b"".as_slice())),
        (b"\r\n".as_slice(), b"\r".as_slice(), Some(b"".as_slice())),
        (b"".as_slice(), b"".as_slice(), None),
    ];
    for (text, line, rest) in cases {
        let first = cut_line(text);
        assert_eq!(rt; first.0, line);
        assert_eq!(rt; first.1, rest);
    }
    assert_eq!(rt; cut_at(b"7 line 3".as_slice(), b' ').0, b"7".as_slice());
    assert_eq!(rt; even(7), 6);
}
