use super::*;
use std::alloc::Global;
use std::process::Abort;
use std::test::Fail;

fn read(rt: &impl Abort, alloc: Global, bytes: &[u8]) -> Result<Script, ScriptError> {
    assert!(rt; bytes.len() < 0x1_0000_0000);
    read_script(alloc, bytes)
}

// What reading answers: the number of commands, or the line and what is wrong there.
fn answer(rt: &impl Abort, alloc: Global, bytes: &[u8]) -> Result<usize, ScriptError> {
    Ok(read(rt, alloc, bytes)?.len())
}

fn refused(line: u32, why: ScriptWhy) -> Result<usize, ScriptError> {
    Err(ScriptError::Refused { line, why })
}

// Each is the one line of a script.
fn are_bad(rt: &impl Abort, alloc: Global, lines: &[&[u8]]) {
    for line in lines {
        assert_eq!(rt; answer(rt, alloc, line), refused(1, ScriptWhy::BadLine));
    }
}

#[test]
fn commands_that_are_bad(rt: HostRuntime) {
    let lines = [
        b"jump".as_slice(),
        b"step".as_slice(),
        b"step 0".as_slice(),
        b"step 1000001".as_slice(),
        b"run 0".as_slice(),
        b"break 4294967296".as_slice(),
        b"regs 1".as_slice(),
        b"mem 0".as_slice(),
        b"mem 0 0".as_slice(),
        b"mem 0 257".as_slice(),
        b"clic 64".as_slice(),
        b"line 16 1".as_slice(),
        b"line 23 0".as_slice(),
        b"line 64 1".as_slice(),
        b"line 3 2".as_slice(),
        b"back 1".as_slice(),
    ];
    are_bad(&rt, rt.alloc(), &lines);
}

#[test]
fn numbers_and_blanks_that_are_bad(rt: HostRuntime) {
    let lines = [
        b"step 0X10".as_slice(),
        b"step 007".as_slice(),
        b"step +7".as_slice(),
        b"break -0".as_slice(),
        b"break 0x".as_slice(),
        b"break 0x012345678".as_slice(),
        b"break 1f".as_slice(),
        b"break 0xg".as_slice(),
        b"step  1".as_slice(),
        b"step 1 ".as_slice(),
        b" step 1".as_slice(),
        b"step\t1".as_slice(),
        b"step 1\r".as_slice(),
        b"Step 1".as_slice(),
        b"regs ".as_slice(),
    ];
    are_bad(&rt, rt.alloc(), &lines);
}

#[test]
fn commands_that_are_told(rt: HostRuntime) -> Result<(), Fail> {
    let cases = [
        (b"step 1000000".as_slice(), Command::Step(1_000_000)),
        (b"run 0x007".as_slice(), Command::Run(7)),
        (b"break 0xFfFfFfFf".as_slice(), Command::Break(0xFFFF_FFFF)),
        (b"break 4294967295".as_slice(), Command::Break(0xFFFF_FFFF)),
        (b"regs".as_slice(), Command::Regs),
        (b"csr".as_slice(), Command::Csr),
        (
            b"mem 0x1FFFFFFE 4".as_slice(),
            Command::Mem {
                at: 0x1FFF_FFFE,
                count: 4,
            },
        ),
        (b"clic 0x3F".as_slice(), Command::Clic(63)),
        (
            b"line 24 0x1".as_slice(),
            Command::Line {
                input: 24,
                high: true,
            },
        ),
        (b"back".as_slice(), Command::Back),
    ];
    for (bytes, command) in cases {
        let script = read(&rt, rt.alloc(), bytes)?;
        assert_eq!(rt; script.len(), 1);
        assert_eq!(rt; script.get(0), command);
    }
    Ok(())
}

#[test]
fn the_first_refusal(rt: HostRuntime) {
    let cases = [
        (b"".as_slice(), Ok(0)),
        (b"# all\n\nregs\n".as_slice(), Ok(1)),
        (
            b"# all\n\nregs\njump\nstep".as_slice(),
            refused(4, ScriptWhy::BadLine),
        ),
        (b"regs\n\r\n".as_slice(), refused(2, ScriptWhy::BadLine)),
    ];
    for (bytes, wanted) in cases {
        assert_eq!(rt; answer(&rt, rt.alloc(), bytes), wanted);
    }
}

fn backs(alloc: Global, count: u32, last: &[u8]) -> Result<Vec<u8>, Fail> {
    let mut bytes = Vec::new(alloc);
    for _ in 0..count {
        bytes.extend_from_slice(b"back\n")?;
    }
    bytes.extend_from_slice(last)?;
    Ok(bytes)
}

// A line that is no command is refused as such, also where no command more may come.
#[test]
fn as_many_commands_as_there_may_be(rt: HostRuntime) -> Result<(), Fail> {
    let cases = [
        (backs(rt.alloc(), 4_096, b"# end\n")?, Ok(4_096)),
        (
            backs(rt.alloc(), 4_096, b"back")?,
            refused(4_097, ScriptWhy::TooMany),
        ),
        (
            backs(rt.alloc(), 4_096, b"jump")?,
            refused(4_097, ScriptWhy::BadLine),
        ),
    ];
    for (bytes, wanted) in cases {
        assert_eq!(rt; answer(&rt, rt.alloc(), &bytes), wanted);
    }
    Ok(())
}
