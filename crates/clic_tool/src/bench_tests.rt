// Chains that are called: the boards of a bench.
use crate::case::{Case, answered_on, given};
use crate::images::FIVE_INPUTS;
use board_outside::MemorySink;
use device_model::Device;
use hart_board::Board;
use std::alloc::Global;
use std::process::Abort;
use std::test::Fail;
use tool_frame::Status;
use tool_work::Bench;

// The chain of five inputs under a dispatcher, with inputs 3 and 5 after 23 bodies, and the put of this number failing.
fn chained(
    alloc: Global,
    dispatcher: &str,
    put: u64,
    bench: &mut Bench,
) -> Result<(Status, MemorySink), Fail> {
    let words = ["chain", "i.img", "s.txt", dispatcher, "1000"];
    let case = given(&words, &FIVE_INPUTS, b"23 line 3 1\n23 line 5 1\n");
    answered_on(alloc, &Case { put, ..case }, bench)
}

// The board has halted, and its last trap was at 25C and saved this mcause.
fn stands<D: Device>(rt: &impl Abort, board: &Board<D>, mcause: u32) {
    assert_eq!(rt; board.halted(), Some(0));
    assert_eq!(rt; board.csrs().read(0x341), Some(0x25C));
    assert_eq!(rt; board.csrs().read(0x342), Some(mcause));
}

fn first_stands(rt: &impl Abort, bench: &Bench, mcause: u32) {
    match &bench.first {
        Some(board) => stands(rt, board, mcause),
        None => panic!(rt; "no board"),
    }
}

fn is_empty(bench: &Bench) -> bool {
    bench.first.is_none() && bench.second.is_none()
}

// The board of a chain is left, and goes with a command that fails.
fn leaves(
    rt: &impl Abort,
    alloc: Global,
    dispatcher: &str,
    mcause: u32,
    bench: &mut Bench,
) -> Result<(), Fail> {
    let (status, _) = chained(alloc, dispatcher, 1000, bench)?;
    assert_eq!(rt; status, Status::Done);
    first_stands(rt, bench, mcause);
    let (failed, _) = chained(alloc, dispatcher, 1, bench)?;
    assert_eq!(rt; failed, Status::SinkFailed);
    assert!(rt; is_empty(bench));
    Ok(())
}

#[test]
fn the_board_of_a_chain(rt: HostRuntime) -> Result<(), Fail> {
    let mut bench = Bench::new();
    leaves(&rt, rt.alloc(), "looping", 0xB800_0005, &mut bench)?;
    leaves(&rt, rt.alloc(), "returning", 0xB800_0003, &mut bench)
}

// What `gen 0` writes, with the put of this number failing.
fn generated(alloc: Global, put: u64, bench: &mut Bench) -> Result<(Status, MemorySink), Fail> {
    let case = given(&["gen", "0"], b"", b"");
    answered_on(alloc, &Case { put, ..case }, bench)
}

fn has_halted<D: Device>(rt: &impl Abort, board: &Option<Board<D>>) {
    match board {
        Some(board) => assert_eq!(rt; board.halted(), Some(0)),
        None => panic!(rt; "no board"),
    }
}

fn both_have_halted(rt: &impl Abort, bench: &Bench) {
    has_halted(rt, &bench.first);
    has_halted(rt, &bench.second);
}

// Both boards are left, and go with the line that fails.
fn leaves_both(rt: &impl Abort, alloc: Global, bench: &mut Bench) -> Result<(), Fail> {
    let (status, out) = generated(alloc, 1000, bench)?;
    assert_eq!(rt; status, Status::Done);
    let line = b"gen 0 services 0 looping 226 returning 226\n";
    assert!(rt; out.bytes() == line.as_slice());
    both_have_halted(rt, bench);
    let (failed, _) = generated(alloc, 1, bench)?;
    assert_eq!(rt; failed, Status::SinkFailed);
    assert!(rt; is_empty(bench));
    Ok(())
}

#[test]
fn the_boards_of_gen(rt: HostRuntime) -> Result<(), Fail> {
    let mut bench = Bench::new();
    leaves_both(&rt, rt.alloc(), &mut bench)
}
