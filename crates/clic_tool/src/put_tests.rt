// Commands whose puts fail, or whose text finds too little room.
use crate::case::{Case, answered, answers, given, given_source};
use crate::images::{FIVE_INPUTS, HALTS, hard_inputs};
use std::alloc::Global;
use std::process::Abort;
use std::test::Fail;
use tool_frame::Status;

// The case, with the put of this number failing, writes a front of this text, or all of it.
fn stops_at(
    rt: &impl Abort,
    alloc: Global,
    case: &Case,
    put: u64,
    text: &[u8],
) -> Result<bool, Fail> {
    let failing = Case { put, ..*case };
    let (status, out) = answered(alloc, &failing)?;
    assert!(rt; text.starts_with(out.bytes()));
    let whole = out.bytes().len() == text.len();
    let wanted = if whole {
        Status::Done
    } else {
        Status::SinkFailed
    };
    assert_eq!(rt; status, wanted);
    Ok(!whole)
}

// How many puts fail when each fails in turn, up to the first number that no put has.
fn failures(rt: &impl Abort, alloc: Global, case: &Case, text: &[u8]) -> Result<u64, Fail> {
    let mut count: u64 = 0;
    for put in 1..100 {
        if !stops_at(rt, alloc, case, put, text)? {
            return Ok(count);
        }
        count = count.saturating_add(1);
    }
    Ok(count)
}

// With room for less than the text as much of it is written as there is room for, and with room for it all.
fn rooms(rt: &impl Abort, alloc: Global, case: &Case, text: &[u8]) -> Result<(), Fail> {
    for room in [0, 1, text.len().saturating_sub(1)] {
        let small = Case { room, ..*case };
        let (status, out) = answered(alloc, &small)?;
        assert_eq!(rt; status, Status::SinkFailed, "room {room}");
        assert_eq!(rt; out.bytes().len(), room);
        assert!(rt; text.starts_with(out.bytes()), "room {room}");
    }
    let enough = Case {
        room: text.len(),
        ..*case
    };
    answers(rt, alloc, &enough, Status::Done, text)
}

// The case's whole text begins so, and is this many puts: each fails in turn, and what was written is a front.
fn fails_in_turn(
    rt: &impl Abort,
    alloc: Global,
    case: &Case,
    begins: &[u8],
    puts: u64,
) -> Result<(), Fail> {
    let (status, whole) = answered(alloc, case)?;
    assert_eq!(rt; status, Status::Done);
    assert!(rt; whole.bytes().starts_with(begins));
    assert_eq!(rt; failures(rt, alloc, case, whole.bytes())?, puts);
    rooms(rt, alloc, case, whole.bytes())
}

// A report is one put for each of its first 43 lines, and one for the bytes that were sent. With a trace three puts go
// before them. The monitor puts a line at a time.
#[test]
fn each_put_of_a_run_fails_in_turn(rt: HostRuntime) -> Result<(), Fail> {
    let run = given(&["run", "i.img", "s.txt", "100"], &HALTS, b"");
    let traced = given(&["run", "i.img", "s.txt", "100", "--trace"], &HALTS, b"");
    let script = b"step 1\nmem 0 4\nback\nrun 10\n";
    let scripted = given(&["monitor", "i.img", "s.txt"], &HALTS, script);
    let report = b"end halt 00000005\nsteps 3\npc 0000000C\n";
    let trace = b"i 00000000 00500513\ni 00000004 100032B7\ni 00000008 00A2A023\nend halt";
    let told = b"i 00000000 00500513\nmem 00000000 13055000\nback 00000000\nstop halt 0000000C\n";
    fails_in_turn(&rt, rt.alloc(), &run, report, 44)?;
    fails_in_turn(&rt, rt.alloc(), &traced, trace, 47)?;
    fails_in_turn(&rt, rt.alloc(), &scripted, told, 4)
}

// A put for each of the two services and of the report's first 36 lines, one for the bytes that were sent, and one for
// each of the two rows of dead bytes.
fn chain_fails_in_turn(
    rt: &impl Abort,
    alloc: Global,
    words: &[&str],
    image: &[u8],
    scenario: &[u8],
    begins: &[u8],
) -> Result<(), Fail> {
    let case = given(words, image, scenario);
    fails_in_turn(rt, alloc, &case, begins, 41)
}

#[test]
fn each_put_of_a_chain_fails_in_turn(rt: HostRuntime) -> Result<(), Fail> {
    chain_fails_in_turn(
        &rt,
        rt.alloc(),
        &["chain", "i.img", "s.txt", "looping", "1000"],
        &FIVE_INPUTS,
        b"23 line 3 1\n23 line 5 1\n",
        b"s 5 127 1\ns 3 127 1\nend halt 00000000\nsteps 66\nbodies 29\n",
    )
}

#[test]
fn each_put_with_direct_services_fails_in_turn(rt: HostRuntime) -> Result<(), Fail> {
    chain_fails_in_turn(
        &rt,
        rt.alloc(),
        &["chain", "i.img", "s.txt", "returning", "1000", "--direct"],
        &hard_inputs(rt.alloc())?,
        b"23 line 11 1\n24 line 3 1\n",
        b"s 11 191 1\nd 3 127 1\nend halt 00000000\nsteps 60\nbodies 29\n",
    )
}

// addi a0, zero, 5 at 0, which is the entry.
const FIVE: &[u8] = b".entry 0\naddi a0, zero, 5\n";

// The memory text of the image that halts.
const MEMORY: &[u8] = b"@00000000\n13 05 50 00 B7 32 00 10 23 A0 A2 00\n";

// What all other commands write is one put.
#[test]
fn the_only_put_fails(rt: HostRuntime) -> Result<(), Fail> {
    let cases: [(Case, &[u8]); 5] = [
        (
            given_source(&["asm", "p.s"], FIVE),
            b"CLC1\0\0\0\0\x01\0\0\0\0\0\0\0\x04\0\0\0\x13\x05\x50\0",
        ),
        (
            given(&["disasm", "i.img"], &HALTS, b""),
            b".entry 0x00000000\n",
        ),
        (given(&["mem", "i.img"], &HALTS, b""), MEMORY),
        (given_source(&["unmem", "p.s", "0"], MEMORY), &HALTS),
        (
            given(&["gen", "1"], b"", b""),
            b"gen 1 services 1 looping 273 returning 273\n",
        ),
    ];
    for (case, begins) in cases {
        fails_in_turn(&rt, rt.alloc(), &case, begins, 1)?;
    }
    Ok(())
}

// The usage line, and the line of a file that isn't there or can't be read, with the put failing and with too little
// room.
#[test]
fn the_put_of_a_refusal_fails(rt: HostRuntime) -> Result<(), Fail> {
    let usage = given(&["fly"], &HALTS, b"");
    let absent = Case {
        image: None,
        ..given(&["disasm", "i.img"], &HALTS, b"")
    };
    let failed = Case {
        fetch: 1,
        ..given(&["disasm", "i.img"], &HALTS, b"")
    };
    let cases: [(Case, &[u8]); 3] = [
        (usage, b"usage: cli"),
        (absent, b"absent i.i"),
        (failed, b"shelf fail"),
    ];
    for (case, front) in cases {
        let failing = Case { put: 1, ..case };
        answers(&rt, rt.alloc(), &failing, Status::SinkFailed, b"")?;
        let small = Case { room: 10, ..case };
        answers(&rt, rt.alloc(), &small, Status::SinkFailed, front)?;
    }
    Ok(())
}
