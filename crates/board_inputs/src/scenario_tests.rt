use super::*;
use device_model::Stimulus;
use hart_board::{Event, Events, What};
use std::alloc::Global;
use std::process::Abort;
use std::test::Fail;

fn read(rt: &impl Abort, alloc: Global, bytes: &[u8]) -> Result<Events, ScenarioError> {
    assert!(rt; bytes.len() < 0x1_0000_0000);
    read_scenario(alloc, bytes)
}

// What reading answers: the number of events, or the line and what is wrong there.
fn answer(rt: &impl Abort, alloc: Global, bytes: &[u8]) -> Result<usize, ScenarioError> {
    Ok(read(rt, alloc, bytes)?.len())
}

fn refused(line: u32, why: ScenarioWhy) -> Result<usize, ScenarioError> {
    Err(ScenarioError::Refused { line, why })
}

#[test]
fn lines_that_are_bad(rt: HostRuntime) {
    let cases = [
        b"5 line 16 1".as_slice(),
        b"5 line 23 1".as_slice(),
        b"5 line 64 1".as_slice(),
        b"5 line 3 2".as_slice(),
        b"5 line 3".as_slice(),
        b"1000000001 rx 0".as_slice(),
        b"0 rx 256".as_slice(),
        b"01 rx 1".as_slice(),
        b"0 rx 01".as_slice(),
        b"0 pins 4294967296".as_slice(),
        b"0 tick 0".as_slice(),
        b"0 tick 65536".as_slice(),
    ];
    for bytes in cases {
        assert_eq!(rt;
            answer(&rt, rt.alloc(), bytes),
            refused(1, ScenarioWhy::BadLine)
        );
    }
}

#[test]
fn blanks_that_are_bad(rt: HostRuntime) {
    let cases = [
        b"0 rx 1\r\n".as_slice(),
        b"\r\n".as_slice(),
        b"0  rx 1".as_slice(),
        b"0 rx  1".as_slice(),
        b"0 rx 1 ".as_slice(),
        b" 0 rx 1".as_slice(),
        b"0\trx 1".as_slice(),
        b" # start".as_slice(),
        b"0 Rx 1".as_slice(),
        b"0 rx +1".as_slice(),
        b"Clic 64 8".as_slice(),
        b"clic 64 8 ".as_slice(),
        b"clic  64 8".as_slice(),
        b"rx 1".as_slice(),
    ];
    for bytes in cases {
        assert_eq!(rt;
            answer(&rt, rt.alloc(), bytes),
            refused(1, ScenarioWhy::BadLine)
        );
    }
}

#[test]
fn shapes_that_are_bad(rt: HostRuntime) {
    let cases = [
        (b"clic 23 8".as_slice(), 1),
        (b"clic 1025 8".as_slice(), 1),
        (b"clic 64 9".as_slice(), 1),
        (b"clic 064 8".as_slice(), 1),
        (b"clic 64".as_slice(), 1),
        (b"# small\n\nclic 24 8\nclic 24 8".as_slice(), 4),
        (b"0 rx 1\nclic 24 8".as_slice(), 2),
        (b"clic 24 8\n0 line 24 1".as_slice(), 2),
        (b"clic 1024 0\n0 line 16 1".as_slice(), 2),
    ];
    for (bytes, line) in cases {
        assert_eq!(rt;
            answer(&rt, rt.alloc(), bytes),
            refused(line, ScenarioWhy::BadLine)
        );
    }
}

// A file, the inputs and the bits of its shape, and how many events it tells.
#[test]
fn shapes_that_are_said(rt: HostRuntime) -> Result<(), Fail> {
    let cases = [
        (b"".as_slice(), 64, 8, 0),
        (b"0 line 63 1".as_slice(), 64, 8, 1),
        (b"clic 64 2\n0 line 63 1\n".as_slice(), 64, 2, 1),
        (
            b"# all\n\nclic 1024 0\n0 line 1023 1\n0 line 0 1".as_slice(),
            1024,
            0,
            2,
        ),
        (b"clic 24 8".as_slice(), 24, 8, 0),
    ];
    for (bytes, inputs, bits, count) in cases {
        let events = read(&rt, rt.alloc(), bytes)?;
        let shape = events.shape();
        assert_eq!(rt; (shape.inputs(), shape.bits()), (inputs, bits));
        assert_eq!(rt; events.len(), count);
    }
    Ok(())
}

#[test]
fn the_first_refusal(rt: HostRuntime) {
    let cases = [
        (
            b"5 line 3 1\n4 line 3 0".as_slice(),
            2,
            ScenarioWhy::OutOfOrder,
        ),
        (
            b"# start\n\n0 rx 65\n0 tick 0\n".as_slice(),
            4,
            ScenarioWhy::BadLine,
        ),
        (
            b"5 rx 1\n6 rx 1\n5 rx 1\n".as_slice(),
            3,
            ScenarioWhy::OutOfOrder,
        ),
        (b"5 rx 1\n4 rx 256\n".as_slice(), 2, ScenarioWhy::BadLine),
        (
            b"5 rx 1\n\n4 rx 2\n4 rx".as_slice(),
            3,
            ScenarioWhy::OutOfOrder,
        ),
    ];
    for (bytes, line, why) in cases {
        assert_eq!(rt;
            answer(&rt, rt.alloc(), bytes),
            refused(line, why),
            "line {line}"
        );
    }
}

#[test]
fn lines_that_are_passed_over(rt: HostRuntime) {
    let cases = [
        (b"".as_slice(), 0),
        (b"\n\n".as_slice(), 0),
        (b"#".as_slice(), 0),
        (b"#\r\n# 01 rx 256 \n".as_slice(), 0),
        (b"0 rx 1\n".as_slice(), 1),
        (b"0 rx 1".as_slice(), 1),
        (b"0 rx 1\n\n".as_slice(), 1),
        (b"5 rx 1\n5 rx 1".as_slice(), 2),
    ];
    for (bytes, count) in cases {
        assert_eq!(rt; answer(&rt, rt.alloc(), bytes), Ok(count), "{count}");
    }
}

// That a scenario of this one line is this event.
fn assert_told(
    rt: &impl Abort,
    alloc: Global,
    line: &[u8],
    at: u64,
    what: What,
) -> Result<(), Fail> {
    let events = read(rt, alloc, line)?;
    assert_eq!(rt; events.len(), 1);
    assert_eq!(rt; events.get(0), Event { at, what });
    Ok(())
}

fn line(input: u32, high: bool) -> What {
    What::Line { input, high }
}

#[test]
fn events_that_are_told(rt: HostRuntime) -> Result<(), Fail> {
    let cases = [
        (b"0 line 0 1".as_slice(), 0, line(0, true)),
        (b"7 line 15 0".as_slice(), 7, line(15, false)),
        (b"7 line 24 1".as_slice(), 7, line(24, true)),
        (
            b"1000000000 line 63 0".as_slice(),
            1_000_000_000,
            line(63, false),
        ),
        (
            b"10 rx 255".as_slice(),
            10,
            What::Device(Stimulus::Receive(255)),
        ),
        (
            b"10 pins 4294967295".as_slice(),
            10,
            What::Device(Stimulus::Pins(0xFFFF_FFFF)),
        ),
        (
            b"10 tick 65535".as_slice(),
            10,
            What::Device(Stimulus::Tick(65_535)),
        ),
    ];
    for (text, at, what) in cases {
        assert_told(&rt, rt.alloc(), text, at, what)?;
    }
    Ok(())
}

fn ticks(alloc: Global, count: u32) -> Result<Vec<u8>, Fail> {
    let mut bytes = Vec::new(alloc);
    for _ in 0..count {
        bytes.extend_from_slice(b"0 tick 1\n")?;
    }
    Ok(bytes)
}

#[test]
fn as_many_events_as_there_may_be(rt: HostRuntime) -> Result<(), Fail> {
    let bytes = ticks(rt.alloc(), 65_536)?;
    assert_eq!(rt; answer(&rt, rt.alloc(), &bytes), Ok(65_536));
    let more = ticks(rt.alloc(), 65_537)?;
    assert_eq!(rt;
        answer(&rt, rt.alloc(), &more),
        refused(65_537, ScenarioWhy::TooMany)
    );
    Ok(())
}
