// Steps of a chain, with what is counted and written of them.
ghost use Rattle.std.specs.Prelude.{◌≡◌, ◌<◌, ◌+◌, ◌^◌, ℕ, true, false, None, is_ok, IfOk};
ghost use Rattle.board_outside.specs.Sink.{Writes};
ghost use Rattle.hart_report.specs.Trace.{step_text};
ghost use Rattle.hart_board.specs.State.{State};
ghost use Rattle.hart_board.specs.Run.{Stand, standing};
ghost use Rattle.clic_select.specs.Top.{top};
ghost use Rattle.clic_trap.specs.Due.{due};
ghost use Rattle.hart_board.specs.Prepared.{IsPrepared};
ghost use Rattle.hart_board.specs.Step.{step, tried};
ghost use Rattle.chain_core.specs.ChainRun.{is_body};
ghost use Rattle.chain_core.specs.Progress.{Progress, progress_of, counted_by, gone_by, HasRoom, IsOnCourse};
ghost use Rattle.chain_core.specs.Text.{service_text, turn_text, Tells};
ghost use Rattle.chain_core.specs.Rounds.{raised_code, tried_by, tried_steps};

use crate::course::Course;
use crate::telling::put_service;
use board_outside::{Sink, SinkFault};
use chain_moves::slot::{BACK, BASE, CALL, SLOT_END};
use device_model::Device;
use hart_board::{Board, Events, Prepared, take_events};
use hart_report::{Stepped, put_step};

// Whether a body was made: an instruction retired outside the slot.
fn is_body(told: &Stepped) -> bool
    ensures { result ≡ is_body told.now }
{
    match *told {
        Stepped::Retired { pc, .. } => pc < BASE || pc >= SLOT_END,
        _ => false,
    }
}

impl Course {
    // Counts the dispatcher's calls, and the returns to it.
    fn count(&mut self, told: &Stepped)
        requires { HasRoom self.old 1 }
        ensures counts { (board : State) (at : Stand) → counted_by (progress_of board self.old) at told.now ≡ record { board = at.board; bodies = at.count; depth = self.new.depth; services = self.new.services } }
        ensures kept { (self.new.bodies ≡ self.old.bodies) × (self.new.ahead ≡ self.old.ahead) }
        ensures room { (n : ℕ) → HasRoom self.old (n + 1) → HasRoom (record self.new { bodies = self.new.bodies + 1 }) n }
    {
        if let Stepped::Retired { pc, .. } = *told {
            if pc == CALL {
                self.depth += 1;
                self.services += 1;
            } else if pc == BACK {
                self.depth = self.depth.saturating_sub(1);
            }
        }
    }
}

// Counts a body, and takes the events of that count.
fn arrive<D: Device>(board: &mut Board<D>, events: &Events, course: &mut Course, told: &Stepped)
    requires room { HasRoom (record course.old { bodies = course.old.bodies + 1 }) 0 }
    requires course { IsOnCourse D.means events.now board.old course.old }
    ensures course { IsOnCourse D.means events.now board.new course.new }
    ensures stand { record { count = course.new.bodies; board = board.new } ≡ standing D.means events.now.list course.old.bodies board.old (is_body told.now) }
    ensures kept { (course.new.depth ≡ course.old.depth) × (course.new.services ≡ course.old.services) }
    ensures hart { (board.new.csrs ≡ board.old.csrs) × (board.new.pc ≡ board.old.pc) × (board.new.registers ≡ board.old.registers) }
    ensures room { (n : ℕ) → HasRoom (record course.old { bodies = course.old.bodies + 1 }) n → HasRoom course.new n }
{
    if is_body(told) {
        course.bodies += 1;
        take_events(board, events, course.bodies, &mut course.ahead);
    }
}

// The line of the service that begins with a step, by the depth before it.
fn tell_service<D: Device, W: Sink>(
    board: &Board<D>,
    depth: u64,
    told: &Stepped,
    out: &mut W,
) -> Result<(), SinkFault>
    requires { depth + 1 < 2 ^ 64 }
    ensures { (state : State) → state.csrs ≡ board.now.csrs → Writes (is_ok result) (W.told out.old) (W.told out.new) (service_text depth state told.now) }
{
    if let Stepped::Retired { pc, .. } = *told {
        if pc == CALL {
            let csrs = board.csrs();
            return put_service(csrs.exccode(), csrs.mil(), depth + 1, out);
        }
    }
    Ok(())
}

// The exception that a step raises.
fn raised_code(told: &Stepped) -> Option<u16>
    ensures { result ≡ raised_code told.now }
{
    match *told {
        Stepped::Raised { code, .. } => Some(code),
        _ => None,
    }
}

// The line of a step. A place for the step is made here, so that one that isn't told makes none.
#[inline(always)]
fn tell_step<W: Sink>(trace: bool, told: &Stepped, out: &mut W) -> Result<(), SinkFault>
    ensures { Writes (is_ok result) (W.told out.old) (W.told out.new) (step_text trace told.now) }
{
    let told = *told;
    put_step(trace, &told, out)
}

// What follows a body: events come, and its line is written. No call and no return is counted.
#[inline(always)]
fn settle_body<D: Device, W: Sink>(
    board: &mut Board<D>,
    events: &Events,
    course: &mut Course,
    told: &Stepped,
    trace: bool,
    out: &mut W,
) -> Result<(), SinkFault>
    requires body { is_body told.now ≡ true }
    requires room { HasRoom course.old 1 }
    requires course { IsOnCourse D.means events.now board.old course.old }
    ensures course { IsOnCourse D.means events.now board.new course.new }
    ensures progress { (start : State) → progress_of board.new course.new ≡ gone_by D.means events.now.list (progress_of start course.old) (record { told = told.now; state = board.old }) }
    ensures text { Writes (is_ok result) (W.told out.old) (W.told out.new) (turn_text trace course.old.depth (record { told = told.now; state = board.old })) }
    ensures hart { (board.new.pc ≡ board.old.pc) × (board.new.registers ≡ board.old.registers) }
    ensures room { (n : ℕ) → HasRoom course.old (n + 1) → HasRoom course.new n }
{
    arrive(board, events, course, told);
    if trace {
        tell_step(trace, told, out)
    } else {
        Ok(())
    }
}

// What follows a step of the dispatcher: it is counted, and its lines are written.
#[inline(never)]
fn settle_move<D: Device, W: Sink>(
    board: &mut Board<D>,
    events: &Events,
    course: &mut Course,
    told: &Stepped,
    trace: bool,
    out: &mut W,
) -> Result<(), SinkFault>
    requires room { HasRoom course.old 1 }
    requires course { IsOnCourse D.means events.now board.old course.old }
    ensures course { IsOnCourse D.means events.now board.new course.new }
    ensures progress { (start : State) → progress_of board.new course.new ≡ gone_by D.means events.now.list (progress_of start course.old) (record { told = told.now; state = board.old }) }
    ensures text { Writes (is_ok result) (W.told out.old) (W.told out.new) (turn_text trace course.old.depth (record { told = told.now; state = board.old })) }
    ensures hart { (board.new.pc ≡ board.old.pc) × (board.new.registers ≡ board.old.registers) }
    ensures room { (n : ℕ) → HasRoom course.old (n + 1) → HasRoom course.new n }
{
    let depth = course.depth;
    course.count(told);
    arrive(board, events, course, told);
    put_step(trace, told, out)?;
    tell_service(board, depth, told, out)
}

// What follows a step that came to this: it is counted, events come, and its lines are written.
#[inline(always)]
fn settle<D: Device, W: Sink>(
    board: &mut Board<D>,
    events: &Events,
    course: &mut Course,
    told: &Stepped,
    trace: bool,
    out: &mut W,
) -> Result<(), SinkFault>
    requires room { HasRoom course.old 1 }
    requires course { IsOnCourse D.means events.now board.old course.old }
    ensures course { IsOnCourse D.means events.now board.new course.new }
    ensures progress { (start : State) → progress_of board.new course.new ≡ gone_by D.means events.now.list (progress_of start course.old) (record { told = told.now; state = board.old }) }
    ensures text { Writes (is_ok result) (W.told out.old) (W.told out.new) (turn_text trace course.old.depth (record { told = told.now; state = board.old })) }
    ensures hart { (board.new.pc ≡ board.old.pc) × (board.new.registers ≡ board.old.registers) }
    ensures room { (n : ℕ) → HasRoom course.old (n + 1) → HasRoom course.new n }
{
    if !is_body(told) {
        let told = *told;
        return settle_move(board, events, course, &told, trace, out);
    }
    settle_body(board, events, course, told, trace, out)
}

/// One step of the board, with its events and its lines. Where the sink fails, the step is made all the
/// same.
fn make_step<D: Device, W: Sink>(
    board: &mut Board<D>,
    events: &Events,
    course: &mut Course,
    trace: bool,
    out: &mut W,
) -> Result<(), SinkFault>
    requires room { HasRoom course.old 1 }
    requires course { IsOnCourse D.means events.now board.old course.old }
    ensures course { IsOnCourse D.means events.now board.new course.new }
    ensures tells { Tells D.means events.now.list trace 1 (is_ok result) (progress_of board.old course.old) (progress_of board.new course.new) (W.told out.old) (W.told out.new) }
    ensures room { (n : ℕ) → HasRoom course.old (n + 1) → HasRoom course.new n }
{
    let told = board.step();
    settle(board, events, course, &told, trace, out)
}

/// So many steps. Where the sink fails no further step is made.
pub fn walk<D: Device, W: Sink>(
    board: &mut Board<D>,
    events: &Events,
    course: &mut Course,
    count: u64,
    trace: bool,
    out: &mut W,
) -> Result<(), SinkFault>
    requires room { HasRoom course.old count }
    requires course { IsOnCourse D.means events.now board.old course.old }
    ensures course { IsOnCourse D.means events.now board.new course.new }
    ensures tells { Tells D.means events.now.list trace count (is_ok result) (progress_of board.old course.old) (progress_of board.new course.new) (W.told out.old) (W.told out.new) }
{
    for _made in 0..count {
        make_step(board, events, course, trace, out)?;
    }
    Ok(())
}

// What follows a step that was only tried: where it raises nothing, it was made.
#[inline(always)]
fn settle_tried<D: Device, W: Sink>(
    board: &mut Board<D>,
    events: &Events,
    course: &mut Course,
    told: &Stepped,
    trace: bool,
    out: &mut W,
) -> Result<Option<u16>, SinkFault>
    requires room { HasRoom course.old 1 }
    requires course { IsOnCourse D.means events.now board.old course.old }
    ensures course { IsOnCourse D.means events.now board.new course.new }
    ensures answer { IfOk result (λ raised. raised ≡ raised_code told.now) }
    ensures progress { (start : State) → progress_of board.new course.new ≡ tried_by D.means events.now.list (progress_of start course.old) (record { told = told.now; state = board.old }) (raised_code told.now) }
    ensures hart { (board.new.pc ≡ board.old.pc) × (board.new.registers ≡ board.old.registers) }
    ensures tells { (start : State) → record { told = told.now; state = board.old } ≡ tried D.means start → Tells D.means events.now.list trace (tried_steps (raised_code (tried D.means start).told)) (is_ok result) (progress_of start course.old) (progress_of board.new course.new) (W.told out.old) (W.told out.new) }
{
    match raised_code(told) {
        Some(code) => Ok(Some(code)),
        None => {
            settle(board, events, course, told, trace, out)?;
            Ok(None)
        }
    }
}

/// A body whose instruction was prepared, as a step that is only tried: where it would be the entry of
/// an exception, nothing changes, and the answer is that exception's code.
#[inline(always)]
pub fn try_body<D: Device, W: Sink>(
    board: &mut Board<D>,
    events: &Events,
    course: &mut Course,
    trace: bool,
    out: &mut W,
    prepared: &Prepared,
) -> Result<Option<u16>, SinkFault>
    requires runs { D.means.halted board.old.outside.device ≡ None }
    requires calm { due board.old.csrs (top board.old.outside.clic) ≡ false }
    requires prepared { IsPrepared board.old prepared.now }
    requires room { HasRoom course.old 1 }
    requires course { IsOnCourse D.means events.now board.old course.old }
    ensures course { IsOnCourse D.means events.now board.new course.new }
    ensures answer { IfOk result (λ raised. raised ≡ raised_code (tried D.means board.old).told) }
    ensures progress { let turn = tried D.means board.old in progress_of board.new course.new ≡ tried_by D.means events.now.list (progress_of board.old course.old) turn (raised_code turn.told) }
    ensures hart { let turn = tried D.means board.old in (board.new.pc ≡ turn.state.pc) × (board.new.registers ≡ turn.state.registers) }
    ensures tells { Tells D.means events.now.list trace (tried_steps (raised_code (tried D.means board.old).told)) (is_ok result) (progress_of board.old course.old) (progress_of board.new course.new) (W.told out.old) (W.told out.new) }
{
    let told = board.try_prepared(prepared);
    settle_tried(board, events, course, &told, trace, out)
}

/// A step that is only tried: where it would be the entry of an exception, nothing changes, and the
/// answer is that exception's code.
pub fn try_one<D: Device, W: Sink>(
    board: &mut Board<D>,
    events: &Events,
    course: &mut Course,
    trace: bool,
    out: &mut W,
) -> Result<Option<u16>, SinkFault>
    requires room { HasRoom course.old 1 }
    requires course { IsOnCourse D.means events.now board.old course.old }
    ensures course { IsOnCourse D.means events.now board.new course.new }
    ensures answer { IfOk result (λ raised. raised ≡ raised_code (tried D.means board.old).told) }
    ensures progress { let turn = tried D.means board.old in progress_of board.new course.new ≡ tried_by D.means events.now.list (progress_of board.old course.old) turn (raised_code turn.told) }
    ensures hart { let turn = tried D.means board.old in (board.new.pc ≡ turn.state.pc) × (board.new.registers ≡ turn.state.registers) }
    ensures tells { Tells D.means events.now.list trace (tried_steps (raised_code (tried D.means board.old).told)) (is_ok result) (progress_of board.old course.old) (progress_of board.new course.new) (W.told out.old) (W.told out.new) }
{
    let told = board.try_step();
    settle_tried(board, events, course, &told, trace, out)
}
