// Boards that are called: a trace that breaks off, kept states of a halted board, and a board with one more device.
ghost use Rattle.std.specs.Prelude.{◌≡◌, IfOk};

use board_devices::{AllDevices, shipped};
use board_outside::MemorySink;
use clic_regs::Shape;
use counter_device::{CountingDevices, counting_devices};
use device_model::{Device, Stimulus};
use hart_board::{Board, Event, Events, RunEnd, Stepped, What, run};
use std::alloc::Global;
use std::process::Abort;
use std::test::Fail;

// addi a0, zero, 5; lui t0, 0x10003; sw a0, 0(t0)
const HALTS: [u32; 3] = [0x00500513, 0x100032B7, 0x00A2A023];

fn new_board(alloc: Global) -> Result<Board<AllDevices>, Fail> {
    Ok(Board::new(alloc, shipped(alloc)?, Shape::plain())?)
}

// Places words from address 0 on.
fn place_words<D: Device>(rt: &impl Abort, board: &mut Board<D>, words: &[u32]) {
    let mut address: u32 = 0;
    for word in words {
        for byte in word.to_le_bytes() {
            assert!(rt; board.banks().holds(address, 1));
            board.place(address, byte);
            address = address.wrapping_add(1);
        }
    }
}

// A run without events whose third put fails: two lines of the trace are written before it, and three steps are made.
fn breaks_off<D: Device>(rt: &impl Abort, alloc: Global, board: &Board<D>) -> Result<(), Fail> {
    let mut copied = board.copy(alloc)?;
    let events = Events::new(alloc, copied.shape());
    let mut out = MemorySink::new(alloc, 4096)?;
    out.fail_at(3)?;
    let end = run(&mut copied, &events, 100, true, &mut out);
    assert_eq!(rt; end, RunEnd::SinkFailed);
    let lines = b"i 00000000 00500513\ni 00000004 100032B7\n";
    assert!(rt; out.bytes() == lines.as_slice());
    assert_eq!(rt; copied.pc(), 12);
    Ok(())
}

#[test]
fn a_trace_that_breaks_off(rt: HostRuntime) -> Result<(), Fail> {
    let mut board = new_board(rt.alloc())?;
    place_words(&rt, &mut board, &HALTS);
    breaks_off(&rt, rt.alloc(), &board)
}

// It has halted with this code or not, at this address, and the first byte is the program's.
fn stands<D: Device>(rt: &impl Abort, board: &Board<D>, halted: Option<u32>, pc: u32) {
    assert_eq!(rt; board.halted(), halted);
    assert_eq!(rt; board.pc(), pc);
    assert!(rt; board.banks().holds(0, 1));
    assert_eq!(rt; board.byte(0), 0x13);
}

// The state is kept before the first step and once the board has halted; what comes after is undone.
fn goes_back<D: Device>(rt: &impl Abort, alloc: Global, board: &mut Board<D>) -> Result<(), Fail> {
    board.keep(alloc)?;
    for _ in 0..3 {
        let _ = board.step();
    }
    board.keep(alloc)?;
    assert_eq!(rt; board.kept(), 2);
    assert_eq!(rt; board.step(), Stepped::Halted(5));
    assert_eq!(rt; board.try_step(), Stepped::Halted(5));
    place_words(rt, board, &[0]);
    board.set_pc(0x100);
    assert!(rt; board.back());
    stands(rt, board, Some(5), 12);
    assert!(rt; board.back());
    stands(rt, board, None, 0);
    assert!(rt; !board.back());
    Ok(())
}

#[test]
fn back_to_a_halted_board(rt: HostRuntime) -> Result<(), Fail> {
    let mut board = new_board(rt.alloc())?;
    place_words(&rt, &mut board, &HALTS);
    goes_back(&rt, rt.alloc(), &mut board)
}

// A byte comes after four steps, and the line of input 3 rises at the same count.
fn two_events(rt: &impl Abort, alloc: Global, shape: Shape) -> Result<Events, Fail>
    ensures { IfOk result (λ events. events.shape ≡ shape) }
{
    let mut events = Events::new(alloc, shape);
    assert!(rt; shape.inputs() > 3);
    let byte = What::Device(Stimulus::Receive(7));
    events.push(Event { at: 4, what: byte })?;
    let line = What::Line {
        input: 3,
        high: true,
    };
    events.push(Event { at: 4, what: line })?;
    Ok(events)
}

// The counter's register is at 0x10004000. It halts the board at its greatest count, and the second event isn't
// taken any more: lui a1, 0x10004; addi a0, zero, -2; sw a0, 0(a1); nop.
fn halts_by_an_event<D: Device>(
    rt: &impl Abort,
    alloc: Global,
    board: &mut Board<D>,
) -> Result<(), Fail> {
    place_words(rt, board, &[0x100045B7, 0xFFE00513, 0x00A5A023, 0x00000013]);
    let events = two_events(rt, alloc, board.shape())?;
    let mut out = MemorySink::new(alloc, 4096)?;
    let end = run(board, &events, 100, false, &mut out);
    assert_eq!(rt; end, RunEnd::Halted { code: 1, steps: 4 });
    assert!(rt;
        out.bytes()
            .starts_with(b"end halt 00000001\nsteps 4\npc 00000010\n")
    );
    assert!(rt; board.shape().inputs() > 3);
    assert!(rt; !board.select().clic().pending(3));
    Ok(())
}

fn counting_board(rt: &impl Abort, alloc: Global) -> Result<Board<CountingDevices>, Fail> {
    let devices = counting_devices(alloc)?;
    assert!(rt; devices.high() <= 0x1_0000 && devices.line_count() <= 8);
    Ok(Board::new(alloc, devices, Shape::plain())?)
}

#[test]
fn an_event_that_halts(rt: HostRuntime) -> Result<(), Fail> {
    let alloc = rt.alloc();
    halts_by_an_event(&rt, alloc, &mut counting_board(&rt, alloc)?)
}
