use super::*;
use hart_words::Text;
use std::alloc::Global;
use std::test::Fail;

// What is written for bytes: a mark for each packet, good or bad, and `<` where the last packets are asked for again.
fn marks(alloc: Global, bytes: &[u8]) -> Result<Vec<u8>, Fail> {
    let mut reader = FrameReader::new(alloc)?;
    let mut marks = Vec::new(alloc);
    for byte in bytes {
        match reader.take(*byte) {
            Heard::Nothing => {}
            Heard::Again => marks.push(b'<')?,
            Heard::Bad => marks.push(b'-')?,
            Heard::Packet => {
                marks.push(b'+')?;
                marks.extend_from_slice(reader.data())?;
            }
        }
    }
    Ok(marks)
}

#[test]
fn frames(rt: HostRuntime) -> Result<(), Fail> {
    let rows = [
        (b"".as_slice(), b"".as_slice()),
        (b"+++", b""),
        (b"-", b"<"),
        (b"\x03noise", b""),
        (b"+$?#3f", b"+?"),
        (b"$?#3F", b"+?"),
        (b"$?#40", b"-"),
        (b"$?#3g", b"-"),
        (b"$?#g3", b"-"),
        (b"$?#3", b""),
        (b"#3f", b""),
        (b"$#00", b"+"),
        (b"$?#3f--", b"+?<<"),
        (b"$?#3f$?#40-", b"+?-<"),
        (b"$m0,4$?#3f", b"+?"),
        (b"$$?#3f", b"+?"),
        (b"$?#$?#3f", b"+?"),
        (b"$?#3$?#3f", b"+?"),
        (b"$\x03#03", b"+\x03"),
        (b"$}\x03#80", b"+}\x03"),
    ];
    for (bytes, want) in rows {
        let found = marks(rt.alloc(), bytes)?;
        assert!(rt; found.as_slice() == want);
    }
    Ok(())
}

// So many question marks in a frame; 63 times 16,384 is a multiple of 256, and 63 times one more leaves 63.
fn long(alloc: Global, count: usize, digits: &[u8]) -> Result<Vec<u8>, Fail> {
    let mut bytes = Vec::new(alloc);
    bytes.push(b'$')?;
    for _ in 0..count {
        bytes.push(b'?')?;
    }
    bytes.push(b'#')?;
    bytes.extend_from_slice(digits)?;
    Ok(bytes)
}

#[test]
fn the_longest_packet(rt: HostRuntime) -> Result<(), Fail> {
    let found = marks(rt.alloc(), &long(rt.alloc(), 16_384, b"00")?)?;
    assert_eq!(rt; found.len(), 16_385);
    let found = marks(rt.alloc(), &long(rt.alloc(), 16_385, b"3f")?)?;
    assert!(rt; found.as_slice() == b"-".as_slice());
    Ok(())
}

// A letter for what a packet is: of the malformed and the other ones, and those without a number in them.
fn letter_of(packet: &Packet) -> u8 {
    match packet {
        Packet::Supported => b'q',
        Packet::Features { .. } => b'x',
        Packet::NoFeatures => b'0',
        Packet::Why => b'?',
        Packet::ReadRegisters => b'g',
        Packet::ReadRegister(_) => b'p',
        Packet::WriteRegister { .. } => b'P',
        Packet::ReadMemory { .. } => b'm',
        Packet::WriteMemory { .. } => b'M',
        Packet::Step => b's',
        Packet::Continue => b'c',
        Packet::BackStep => b'<',
        Packet::BackContinue => b'[',
        Packet::Insert(_) => b'Z',
        Packet::Remove(_) => b'z',
        Packet::Monitor(_) => b'r',
        Packet::Detach => b'D',
        Packet::Kill => b'k',
        Packet::Malformed => b'1',
        Packet::Other => b'.',
    }
}

#[test]
fn packets(rt: HostRuntime) -> Result<(), Fail> {
    let rows = [
        (b"".as_slice(), b'.'),
        (b"?", b'?'),
        (b"??", b'.'),
        (b"gg", b'.'),
        (b"G00", b'.'),
        (b"p", b'1'),
        (b"p341", b'p'),
        (b"px", b'1'),
        (b"p 0", b'1'),
        (b"pffffffff", b'p'),
        (b"p100000000", b'1'),
        (b"P1", b'1'),
        (b"P1=", b'1'),
        (b"P1=1234567", b'1'),
        (b"P1=123456789", b'1'),
        (b"P1=1234567g", b'1'),
        (b"P21=00000000", b'P'),
        (b"m0", b'1'),
        (b"m0,", b'1'),
        (b"m,4", b'1'),
        (b"m0,4,4", b'1'),
        (b"m-1,4", b'1'),
        (b"mffffffff,1", b'm'),
        (b"m000000000,4", b'1'),
        (b"M0,1", b'1'),
        (b"M0,1:", b'1'),
        (b"M0,1:0", b'1'),
        (b"M0,1:0000", b'1'),
        (b"M0,2:00", b'1'),
        (b"M0,1:0g", b'1'),
        (b"M0,0:", b'M'),
        (b"M1f0,2:aBcD", b'M'),
        (b"X0,0:", b'.'),
        (b"Z", b'.'),
        (b"Z0", b'1'),
        (b"Z0,100", b'1'),
        (b"Z0,100,2", b'Z'),
        (b"Z0,0,2;cond", b'1'),
        (b"z1,fffffffe,2", b'z'),
        (b"Z3,20000000,4", b'.'),
        (b"c100", b'.'),
        (b"vCont?", b'.'),
        (b"b", b'.'),
        (b"bs", b'<'),
        (b"bc", b'['),
        (b"bcc", b'.'),
        (b"qC", b'.'),
        (b"qRcmd", b'.'),
        (b"qRcmd,", b'r'),
        (b"qRcmd,6", b'1'),
        (b"qRcmd,6g", b'1'),
        (b"qSupported:xmlRegisters=i386", b'q'),
        (b"qXfer:features:read:target.xml:0", b'0'),
        (b"qXfer:features:read:target.xml:0,4", b'x'),
        (b"qXfer:features:read:other.xml:0,4", b'0'),
        (b"qXfer:memory-map:read::0,4", b'.'),
    ];
    for (bytes, want) in rows {
        assert_eq!(rt; letter_of(&packet_of(rt.alloc(), bytes)?), want, "{want}");
    }
    Ok(())
}

// Whether a packet is one that writes these bytes at 0x1F0.
fn writes(packet: &Packet, want: &[u8]) -> bool {
    match packet {
        Packet::WriteMemory { at, bytes } => *at == 0x1F0 && bytes.bytes() == want,
        _ => false,
    }
}

#[test]
fn packets_with_numbers(rt: HostRuntime) -> Result<(), Fail> {
    assert!(rt; writes(&packet_of(rt.alloc(), b"M1f0,2:aBcD")?, b"\xAB\xCD"));
    match packet_of(rt.alloc(), b"P1=78563412")? {
        Packet::WriteRegister { number, value } => {
            assert_eq!(rt; number, 1);
            assert_eq!(rt; value, 0x1234_5678);
        }
        _ => panic!(rt; "another packet"),
    }
    match packet_of(rt.alloc(), b"z2,20000000,4")? {
        Packet::Remove(point) => {
            let want = Point::Watch {
                at: 0x2000_0000,
                length: 4,
            };
            assert_eq!(rt; point, want);
        }
        _ => panic!(rt; "another packet"),
    }
    Ok(())
}

#[test]
fn commands_that_are_none(rt: HostRuntime) {
    let texts = [
        b"".as_slice(),
        b"step",
        b"steps ",
        b" steps",
        b"Steps",
        b"bound",
        b"bound 0",
        b"bound 1000000001",
        b"bound 007",
        b"bound 0x",
        b"bound 0X10",
        b"bound 1 2",
        b"until",
        b"until -1",
        b"until 4294967296",
        b"clic",
        b"line 3",
        b"line 3 2",
        b"rx 256",
        b"rx",
        b"tick 0",
        b"tick 65536",
        b"pins",
        b"help me",
    ];
    for text in texts {
        assert_eq!(rt; command_of(text), Command::NoSuch);
    }
}

#[test]
fn commands(rt: HostRuntime) {
    let rows = [
        (b"help".as_slice(), Command::Help),
        (b"steps", Command::Steps),
        (b"bound 1", Command::Bound(1)),
        (b"bound 1000000000", Command::Bound(1_000_000_000)),
        (b"bound 0x10", Command::Bound(16)),
        (b"until 4294967295", Command::Until(0xFFFF_FFFF)),
        (b"until off", Command::UntilOff),
        (b"until-body 5", Command::UntilBody(5)),
        (b"clic 63", Command::Clic(63)),
        (b"rx 255", Command::Receive(255)),
        (b"tick 65535", Command::Tick(65_535)),
        (b"pins 4294967295", Command::Pins(0xFFFF_FFFF)),
    ];
    for (text, want) in rows {
        assert_eq!(rt; command_of(text), want);
    }
    let line = Command::Line {
        input: 3,
        high: true,
    };
    assert_eq!(rt; command_of(b"line 3 1"), line);
}

#[test]
fn answers(rt: HostRuntime) -> Result<(), Fail> {
    let mut text = Text::new(rt.alloc());
    put_frame(&mut text, b"S05")?;
    put_word(&mut text, 0x1234_5678)?;
    put_stop(&mut text, Stop::Watched(0xA0))?;
    assert!(rt; text.bytes() == b"$S05#b878563412T05watch:a0;".as_slice());
    let mut text = Text::new(rt.alloc());
    put_console_frames(rt.alloc(), &mut text, b"hi\n")?;
    assert!(rt; text.bytes() == b"$O68690a#bd".as_slice());
    let mut text = Text::new(rt.alloc());
    put_stop_note(&mut text, Stop::Halted { code: 7, steps: 33 })?;
    assert!(rt; text.bytes() == b"halted with code 00000007 after 33 steps\n".as_slice());
    Ok(())
}

#[test]
fn pieces(rt: HostRuntime) -> Result<(), Fail> {
    let rows = [
        (0, 4, b"m<?xm".as_slice()),
        (2_844, 4, b"let>\n"),
        (2_843, 4, b"mget>"),
        (2_848, 4, b"l"),
        (2_849, 4, b"E00"),
    ];
    for (offset, count, want) in rows {
        let mut text = Text::new(rt.alloc());
        put_piece(&mut text, target_text(), offset, count)?;
        assert!(rt; text.bytes() == want, "{offset}");
    }
    Ok(())
}
