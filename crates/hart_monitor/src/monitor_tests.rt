use super::*;
use crate::laws::new_boards_are_plain;
use board_devices::Halter;
use board_inputs::{load_image, read_image};
use board_outside::{MemorySink, Sink};
use clic_regs::Shape;
use device_model::{Device, MAX_LINES, REGION_LEN};
use hart_board::Board;
use std::alloc::Global;
use std::process::Abort;
use std::test::Fail;

/// No put has this number.
const NEVER: u64 = 100_000;

/// addi a0, zero, 5; lui t0, 0x10000; sw a0, 0(t0), in one segment at 0
const HALTS: [u8; 32] = [
    0x43, 0x4C, 0x43, 0x31, 0, 0, 0, 0, 1, 0, 0, 0, 0, 0, 0, 0, 12, 0, 0, 0, 0x13, 0x05, 0x50, 0,
    0xB7, 0x02, 0, 0x10, 0x23, 0xA0, 0xA2, 0,
];

// The script on a board with this device and that image.
fn monitored<D: Device, W: Sink>(
    rt: &impl Abort,
    alloc: Global,
    device: D,
    text: &[u8],
    out: &mut W,
) -> Result<Result<(), MonitorFault>, Fail> {
    assert!(rt; device.high() <= REGION_LEN);
    assert!(rt; device.line_count() <= MAX_LINES);
    assert!(rt; text.len() < 0x1_0000_0000);
    new_boards_are_plain::<D>();
    let script = read_script(alloc, text)?;
    let image = read_image(alloc, &HALTS)?;
    let mut board = Board::new(alloc, device, Shape::plain())?;
    load_image(&image, &mut board);
    Ok(monitor(alloc, &mut board, &script, out))
}

// What is written where the put of this number fails.
fn written(
    rt: &impl Abort,
    alloc: Global,
    text: &[u8],
    put: u64,
) -> Result<(Result<(), MonitorFault>, MemorySink), Fail> {
    let mut out = MemorySink::new(alloc, 4_096)?;
    out.fail_at(put)?;
    let answer = monitored(rt, alloc, Halter::new(), text, &mut out)?;
    Ok((answer, out))
}

// A script, and all that it writes.
fn writes(rt: &impl Abort, alloc: Global, text: &[u8], wanted: &[u8]) -> Result<(), Fail> {
    let (answer, out) = written(rt, alloc, text, NEVER)?;
    assert_eq!(rt; answer, Ok(()));
    assert_eq!(rt; out.bytes(), wanted);
    Ok(())
}

#[test]
fn steps_and_the_way_back(rt: HostRuntime) -> Result<(), Fail> {
    writes(
        &rt,
        rt.alloc(),
        b"step 1\nmem 0 4\nback\nrun 10\n",
        b"i 00000000 00500513\nmem 00000000 13055000\nback 00000000\nstop halt 0000000C\n",
    )?;
    writes(
        &rt,
        rt.alloc(),
        b"step 10\nstep 1\nrun 1\n",
        b"i 00000000 00500513\ni 00000004 100002B7\ni 00000008 00A2A023\nstop halt 0000000C\n",
    )
}

// Where a run begins no breakpoint is sought. It is sought before the steps are counted, and going back leaves it.
#[test]
fn breakpoints_of_a_run(rt: HostRuntime) -> Result<(), Fail> {
    writes(
        &rt,
        rt.alloc(),
        b"break 0\nbreak 4\nrun 1\nrun 1\nback\nback\nrun 9\n",
        b"break 00000000\nbreak 00000004\nstop break 00000004\nstop budget 00000008\nback 00000004\nback 00000000\nstop break 00000004\n",
    )
}

// Sixteen states are kept.
#[test]
fn seventeen_steps_and_seventeen_backs(rt: HostRuntime) -> Result<(), Fail> {
    let mut text = Vec::new(rt.alloc());
    for _ in 0..17 {
        text.extend_from_slice(b"step 1\n")?;
    }
    for _ in 0..17 {
        text.extend_from_slice(b"back\n")?;
    }
    let mut wanted = Vec::new(rt.alloc());
    wanted.extend_from_slice(b"i 00000000 00500513\ni 00000004 100002B7\ni 00000008 00A2A023\n")?;
    for _ in 0..14 {
        wanted.extend_from_slice(b"back 0000000C\n")?;
    }
    wanted.extend_from_slice(b"back 00000008\nback 00000004\nno earlier state\n")?;
    writes(&rt, rt.alloc(), &text, &wanted)
}

#[test]
fn seventeen_breakpoints(rt: HostRuntime) -> Result<(), Fail> {
    let text =
        b"break 1\nbreak 2\nbreak 3\nbreak 4\nbreak 5\nbreak 6\nbreak 7\nbreak 8\nbreak 9\nbreak 10\n\
break 11\nbreak 12\nbreak 13\nbreak 14\nbreak 15\nbreak 15\nbreak 0x10\nbreak 17\nbreak 1\n";
    let wanted = b"break 00000001\nbreak 00000002\nbreak 00000003\nbreak 00000004\nbreak 00000005\n\
break 00000006\nbreak 00000007\nbreak 00000008\nbreak 00000009\nbreak 0000000A\nbreak 0000000B\n\
break 0000000C\nbreak 0000000D\nbreak 0000000E\nbreak 0000000F\nbreak 0000000F\nbreak 00000010\n\
breaks full\nbreak 00000001\n";
    writes(&rt, rt.alloc(), text, wanted)
}

// At the edge of RAM, past the last address, and in lines of sixteen bytes.
#[test]
fn bytes_of_memory(rt: HostRuntime) -> Result<(), Fail> {
    writes(
        &rt,
        rt.alloc(),
        b"mem 0x20000000 4\nmem 0x1FFFFFFE 4\nmem 0xFFFFFFFE 4\nmem 4 18\n",
        b"mem 20000000 00000000\nmem 1FFFFFFE ....0000\nmem FFFFFFFE ....1305\n\
mem 00000004 B702001023A0A2000000000000000000\nmem 00000014 0000\n",
    )
}

// Input 3 is a level input, enabled by none; its line makes it pending.
#[test]
fn lines_and_inputs(rt: HostRuntime) -> Result<(), Fail> {
    writes(
        &rt,
        rt.alloc(),
        b"clic 3\nline 3 1\nclic 3\nback\nclic 0x3\nstep 3\nline 3 1\nclic 3\n",
        b"clic 3 00 00 C0 00\nclic 3 01 00 C0 00\nback 00000000\nclic 3 00 00 C0 00\n\
i 00000000 00500513\ni 00000004 100002B7\ni 00000008 00A2A023\nclic 3 01 00 C0 00\n",
    )
}

// Each put but those after the last fails in turn, and a front of the text is written.
#[test]
fn each_put_fails_in_turn(rt: HostRuntime) -> Result<(), Fail> {
    let text = b"step 3\nmem 0 4\nback\nrun 10\n";
    let lines: [&[u8]; 6] = [
        b"i 00000000 00500513\n",
        b"i 00000004 100002B7\n",
        b"i 00000008 00A2A023\n",
        b"mem 00000000 13055000\n",
        b"back 00000000\n",
        b"stop halt 0000000C\n",
    ];
    let mut wanted = Vec::new(rt.alloc());
    let mut put: u64 = 1;
    for line in lines {
        let (answer, out) = written(&rt, rt.alloc(), text, put)?;
        assert_eq!(rt; answer, Err(MonitorFault::SinkFailed));
        assert_eq!(rt; out.bytes(), wanted.as_slice());
        wanted.extend_from_slice(line)?;
        put = put.saturating_add(1);
    }
    writes(&rt, rt.alloc(), text, &wanted)
}
