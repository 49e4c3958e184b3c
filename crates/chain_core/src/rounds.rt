// Rounds of a chain: the move that is due, or a Leave with the Enter that it is fused with.
ghost use Rattle.std.specs.Prelude.{◌≡◌, ℕ, true, false, nat_le, IfOk, None};
ghost use Rattle.hart_memory.specs.Place.{place};
ghost use Rattle.chain_moves.specs.Bytes.{revived_at};
ghost use Rattle.chain_moves.specs.Cost.{body_cost, enter_cost, leave_cost, fused_leave_cost};
ghost use Rattle.chain_moves.specs.Servicing.{is_foreground};
ghost use Rattle.chain_moves.specs.Tests.{is_lost};
ghost use Rattle.chain_moves.specs.Judge.{refused_or, judge_body, judge_turn};
ghost use Rattle.chain_moves.specs.Ready.{verdict_by, verdict_of, revived_by, is_open, is_body_due, turn_of};
ghost use Rattle.clic_select.specs.Top.{top};
ghost use Rattle.clic_trap.specs.Due.{due};
ghost use Rattle.hart_board.specs.Prepared.{IsPrepared};
ghost use Rattle.hart_board.specs.Step.{tried};
ghost use Rattle.chain_core.specs.Progress.{progress_of, HasRoom, IsOnCourse};
ghost use Rattle.chain_core.specs.Fitting.{HasPlace, HasPlaceAfter, EntersFit, FusesFit};
ghost use Rattle.chain_core.specs.Rounds.{mark_at, fused_cost, round_enter, round_leave, round_parted, round_fused, round_body, round_entry, round_fuse, round_verdict, round_due, retired_round, halted_round, round, IsMade};
ghost use Rattle.chain_moves.specs.declared.entry.Entry.TheVariants.{Admitted};

use crate::course::Course;
use crate::round::Round;
use crate::stepping::{try_body, walk};
use board_outside::{Sink, SinkFault};
use chain_moves::due::{is_body_due, is_open, judge_body, judge_dispatch, open_test};
use chain_moves::kept::all;
use chain_moves::{Broken, Dispatcher, Entry, Mark, Next, Watch};
use device_model::Device;
use hart_board::{Board, Events, Prepared};

const BODY_COST: u64 = 1;

const ENTER_COST: u64 = 14;

const LEAVE_COST: u64 = 16;

const FUSED_LEAVE_COST: u64 = 5;

const FUSED_COST: u64 = 7;

// The mark of a service whose handler begins.
fn mark_at<D: Device>(board: &Board<D>, frame: u32) -> Mark
    ensures { result ≡ mark_at board.now frame }
{
    Mark {
        level: board.csrs().mil(),
        frame,
        kept: all(board.regs()),
    }
}

// An Enter whose tests don't hold.
fn begin<D: Device, W: Sink>(
    board: &mut Board<D>,
    watch: &mut Watch,
    events: &Events,
    course: &mut Course,
    trace: bool,
    out: &mut W,
    left: u64,
    frame: u32,
) -> Result<Round, SinkFault>
    requires place { HasPlace watch.old frame }
    requires room { HasRoom course.old left }
    requires course { IsOnCourse D.means events.now board.old course.old }
    ensures course { IsOnCourse D.means events.now board.new course.new }
    ensures made { let due = round_enter D.means events.now.list left (progress_of board.old course.old) watch.old (nat_le enter_cost left) frame in
        IsMade D.means events.now.list trace left due result (progress_of board.old course.old) (progress_of board.new course.new) watch.new (W.told out.old) (W.told out.new) }
{
    if left < ENTER_COST {
        walk(board, events, course, left, trace, out)?;
        return Ok(Round::Spent);
    }
    walk(board, events, course, ENTER_COST, trace, out)?;
    watch.enter(mark_at(board, frame));
    Ok(Round::Made(ENTER_COST))
}

// A Leave.
fn leave<D: Device, W: Sink>(
    board: &mut Board<D>,
    watch: &mut Watch,
    events: &Events,
    course: &mut Course,
    trace: bool,
    out: &mut W,
    left: u64,
) -> Result<Round, SinkFault>
    requires room { HasRoom course.old left }
    requires course { IsOnCourse D.means events.now board.old course.old }
    ensures course { IsOnCourse D.means events.now board.new course.new }
    ensures made { let due = round_leave D.means events.now.list left (progress_of board.old course.old) watch.old (nat_le leave_cost left) in
        IsMade D.means events.now.list trace left due result (progress_of board.old course.old) (progress_of board.new course.new) watch.new (W.told out.old) (W.told out.new) }
{
    if left < LEAVE_COST {
        walk(board, events, course, left, trace, out)?;
        return Ok(Round::Spent);
    }
    walk(board, events, course, LEAVE_COST, trace, out)?;
    watch.leave();
    Ok(Round::Made(LEAVE_COST))
}

// A Leave whose Enter breaks.
fn part<D: Device, W: Sink>(
    board: &mut Board<D>,
    watch: &mut Watch,
    events: &Events,
    course: &mut Course,
    trace: bool,
    out: &mut W,
    left: u64,
    kind: Broken,
) -> Result<Round, SinkFault>
    requires room { HasRoom course.old left }
    requires course { IsOnCourse D.means events.now board.old course.old }
    ensures course { IsOnCourse D.means events.now board.new course.new }
    ensures made { let due = round_parted D.means events.now.list left (progress_of board.old course.old) watch.old (nat_le fused_leave_cost left) kind in
        IsMade D.means events.now.list trace left due result (progress_of board.old course.old) (progress_of board.new course.new) watch.new (W.told out.old) (W.told out.new) }
{
    if left < FUSED_LEAVE_COST {
        walk(board, events, course, left, trace, out)?;
        return Ok(Round::Spent);
    }
    walk(board, events, course, FUSED_LEAVE_COST, trace, out)?;
    watch.leave();
    Ok(Round::Failed(kind, FUSED_LEAVE_COST))
}

// A Leave and the Enter that it is fused with, whose tests don't hold.
fn go_over<D: Device, W: Sink>(
    board: &mut Board<D>,
    watch: &mut Watch,
    events: &Events,
    course: &mut Course,
    trace: bool,
    out: &mut W,
    left: u64,
    frame: u32,
) -> Result<Round, SinkFault>
    requires place { HasPlaceAfter watch.old frame }
    requires room { HasRoom course.old left }
    requires course { IsOnCourse D.means events.now board.old course.old }
    ensures course { IsOnCourse D.means events.now board.new course.new }
    ensures made { let due = round_fused D.means events.now.list left (progress_of board.old course.old) watch.old (nat_le fused_cost left) frame in
        IsMade D.means events.now.list trace left due result (progress_of board.old course.old) (progress_of board.new course.new) watch.new (W.told out.old) (W.told out.new) }
{
    if left < FUSED_COST {
        walk(board, events, course, left, trace, out)?;
        return Ok(Round::Spent);
    }
    walk(board, events, course, FUSED_COST, trace, out)?;
    watch.leave();
    watch.enter(mark_at(board, frame));
    Ok(Round::Made(FUSED_COST))
}

// What becomes of a body that retired.
#[inline(always)]
fn retire<D: Device>(board: &Board<D>, watch: &Watch) -> Round
    ensures { result ≡ retired_round (is_lost watch.now.live board.now.pc board.now.registers) }
{
    if watch.has_lost(board.pc(), board.regs()) {
        Round::Failed(Broken::RegisterLost, BODY_COST)
    } else {
        Round::Made(BODY_COST)
    }
}

// A body whose tests before its step don't hold.
#[inline(always)]
fn carry_out<D: Device, W: Sink>(
    board: &mut Board<D>,
    watch: &mut Watch,
    events: &Events,
    course: &mut Course,
    trace: bool,
    out: &mut W,
    left: u64,
    prepared: &Prepared,
) -> Result<Round, SinkFault>
    requires runs { D.means.halted board.old.outside.device ≡ None }
    requires calm { due board.old.csrs (top board.old.outside.clic) ≡ false }
    requires prepared { IsPrepared board.old prepared.now }
    requires room { HasRoom course.old left }
    requires course { IsOnCourse D.means events.now board.old course.old }
    ensures course { IsOnCourse D.means events.now board.new course.new }
    ensures made { let due = round_body D.means events.now.list left (progress_of board.old course.old) watch.old (nat_le body_cost left) (revived_by watch.old prepared.now.effect) in
        IsMade D.means events.now.list trace left due result (progress_of board.old course.old) (progress_of board.new course.new) watch.new (W.told out.old) (W.told out.new) }
{
    if left < BODY_COST {
        walk(board, events, course, left, trace, out)?;
        return Ok(Round::Spent);
    }
    match try_body(board, events, course, trace, out, prepared)? {
        Some(code) => Ok(Round::Failed(Broken::Exception(code), 0)),
        None => {
            watch.revive_by(prepared.effect);
            Ok(retire(board, watch))
        }
    }
}

// What becomes of a round where the board has halted.
fn halt(watch: &Watch) -> Round
    ensures { result ≡ halted_round (is_foreground watch.now.live) }
{
    if watch.is_foreground() {
        Round::Ended
    } else {
        Round::Failed(Broken::HaltInHandler, 0)
    }
}

// An Enter.
fn enter<D: Device, W: Sink>(
    board: &mut Board<D>,
    watch: &mut Watch,
    events: &Events,
    course: &mut Course,
    trace: bool,
    out: &mut W,
    left: u64,
    entry: Entry,
) -> Result<Round, SinkFault>
    requires fits { (frame : ℕ) → entry ≡ Admitted frame → HasPlace watch.old frame }
    requires room { HasRoom course.old left }
    requires course { IsOnCourse D.means events.now board.old course.old }
    ensures course { IsOnCourse D.means events.now board.new course.new }
    ensures made { let due = round_entry D.means events.now.list left (progress_of board.old course.old) watch.old entry in
        IsMade D.means events.now.list trace left due result (progress_of board.old course.old) (progress_of board.new course.new) watch.new (W.told out.old) (W.told out.new) }
{
    match entry {
        Entry::Refused(kind) => Ok(Round::Failed(kind, 0)),
        Entry::Admitted(frame) => begin(board, watch, events, course, trace, out, left, frame),
    }
}

// A Leave and the Enter that it is fused with.
fn fuse<D: Device, W: Sink>(
    board: &mut Board<D>,
    watch: &mut Watch,
    events: &Events,
    course: &mut Course,
    trace: bool,
    out: &mut W,
    left: u64,
    entry: Entry,
) -> Result<Round, SinkFault>
    requires fits { (frame : ℕ) → entry ≡ Admitted frame → HasPlaceAfter watch.old frame }
    requires room { HasRoom course.old left }
    requires course { IsOnCourse D.means events.now board.old course.old }
    ensures course { IsOnCourse D.means events.now board.new course.new }
    ensures made { let due = round_fuse D.means events.now.list left (progress_of board.old course.old) watch.old entry in
        IsMade D.means events.now.list trace left due result (progress_of board.old course.old) (progress_of board.new course.new) watch.new (W.told out.old) (W.told out.new) }
{
    match entry {
        Entry::Refused(kind) => part(board, watch, events, course, trace, out, left, kind),
        Entry::Admitted(frame) => go_over(board, watch, events, course, trace, out, left, frame),
    }
}

// A body, by what its tests came to.
fn carry_judged<D: Device, W: Sink>(
    board: &mut Board<D>,
    watch: &mut Watch,
    events: &Events,
    course: &mut Course,
    trace: bool,
    out: &mut W,
    left: u64,
    judged: Result<Prepared, Broken>,
) -> Result<Round, SinkFault>
    requires verdict { verdict_of judged ≡ judge_body board.old watch.old }
    requires prepared { IfOk judged (λ prepared. IsPrepared board.old prepared) }
    requires runs { D.means.halted board.old.outside.device ≡ None }
    requires calm { due board.old.csrs (top board.old.outside.clic) ≡ false }
    requires room { HasRoom course.old left }
    requires course { IsOnCourse D.means events.now board.old course.old }
    ensures course { IsOnCourse D.means events.now board.new course.new }
    ensures made { let due = round_verdict D.means events.now.list left (progress_of board.old course.old) watch.old (judge_body board.old watch.old) in
        IsMade D.means events.now.list trace left due result (progress_of board.old course.old) (progress_of board.new course.new) watch.new (W.told out.old) (W.told out.new) }
{
    match judged {
        Ok(prepared) => carry_out(board, watch, events, course, trace, out, left, &prepared),
        Err(kind) => Ok(Round::Failed(kind, 0)),
    }
}

// A body, by the test of its instruction that holds, if one does.
#[inline(always)]
fn carry_tested<D: Device, W: Sink>(
    board: &mut Board<D>,
    watch: &mut Watch,
    events: &Events,
    course: &mut Course,
    trace: bool,
    out: &mut W,
    left: u64,
    test: Option<Broken>,
    prepared: &Prepared,
) -> Result<Round, SinkFault>
    requires verdict { refused_or test (verdict_by prepared.now.effect) ≡ judge_body board.old watch.old }
    requires prepared { IsPrepared board.old prepared.now }
    requires runs { D.means.halted board.old.outside.device ≡ None }
    requires calm { due board.old.csrs (top board.old.outside.clic) ≡ false }
    requires room { HasRoom course.old left }
    requires course { IsOnCourse D.means events.now board.old course.old }
    ensures course { IsOnCourse D.means events.now board.new course.new }
    ensures made { let due = round_verdict D.means events.now.list left (progress_of board.old course.old) watch.old (judge_body board.old watch.old) in
        IsMade D.means events.now.list trace left due result (progress_of board.old course.old) (progress_of board.new course.new) watch.new (W.told out.old) (W.told out.new) }
{
    match test {
        None => carry_out(board, watch, events, course, trace, out, left, prepared),
        Some(kind) => Ok(Round::Failed(kind, 0)),
    }
}

// A body, whatever place its instruction has, and whether it is known or not.
fn body<D: Device, W: Sink>(
    board: &mut Board<D>,
    watch: &mut Watch,
    events: &Events,
    course: &mut Course,
    trace: bool,
    out: &mut W,
    left: u64,
) -> Result<Round, SinkFault>
    requires runs { D.means.halted board.old.outside.device ≡ None }
    requires calm { due board.old.csrs (top board.old.outside.clic) ≡ false }
    requires room { HasRoom course.old left }
    requires course { IsOnCourse D.means events.now board.old course.old }
    ensures course { IsOnCourse D.means events.now board.new course.new }
    ensures made { let due = round_verdict D.means events.now.list left (progress_of board.old course.old) watch.old (judge_body board.old watch.old) in
        IsMade D.means events.now.list trace left due result (progress_of board.old course.old) (progress_of board.new course.new) watch.new (W.told out.old) (W.told out.new) }
{
    let judged = judge_body(board, watch);
    carry_judged(board, watch, events, course, trace, out, left, judged)
}

// What a dispatcher does next.
fn make<D: Device, W: Sink>(
    board: &mut Board<D>,
    watch: &mut Watch,
    events: &Events,
    course: &mut Course,
    trace: bool,
    out: &mut W,
    left: u64,
    next: Next,
) -> Result<Round, SinkFault>
    requires enters { EntersFit watch.old (turn_of next) }
    requires fuses { FusesFit watch.old (turn_of next) }
    requires room { HasRoom course.old left }
    requires course { IsOnCourse D.means events.now board.old course.old }
    ensures course { IsOnCourse D.means events.now board.new course.new }
    ensures made { let due = round_due D.means events.now.list left (progress_of board.old course.old) watch.old (turn_of next) in
        IsMade D.means events.now.list trace left due result (progress_of board.old course.old) (progress_of board.new course.new) watch.new (W.told out.old) (W.told out.new) }
{
    match next {
        Next::Enter(entry) => enter(board, watch, events, course, trace, out, left, entry),
        Next::Leave => leave(board, watch, events, course, trace, out, left),
        Next::Fuse(entry) => fuse(board, watch, events, course, trace, out, left, entry),
    }
}

// The move that is due, on a board that hasn't halted, where it isn't a body.
fn dispatch<D: Device, W: Sink>(
    board: &mut Board<D>,
    watch: &mut Watch,
    events: &Events,
    course: &mut Course,
    trace: bool,
    out: &mut W,
    left: u64,
    d: Dispatcher,
) -> Result<Round, SinkFault>
    requires other { is_body_due board.old watch.old ≡ false }
    requires enters { EntersFit watch.old (judge_turn d board.old watch.old) }
    requires fuses { FusesFit watch.old (judge_turn d board.old watch.old) }
    requires room { HasRoom course.old left }
    requires course { IsOnCourse D.means events.now board.old course.old }
    ensures course { IsOnCourse D.means events.now board.new course.new }
    ensures made { let due = round_due D.means events.now.list left (progress_of board.old course.old) watch.old (judge_turn d board.old watch.old) in
        IsMade D.means events.now.list trace left due result (progress_of board.old course.old) (progress_of board.new course.new) watch.new (W.told out.old) (W.told out.new) }
{
    let next = judge_dispatch(d, board, watch);
    make(board, watch, events, course, trace, out, left, next)
}

// The move that is due, on a board that hasn't halted, whatever it is.
#[inline(never)]
fn make_any<D: Device, W: Sink>(
    board: &mut Board<D>,
    watch: &mut Watch,
    events: &Events,
    course: &mut Course,
    trace: bool,
    out: &mut W,
    left: u64,
    d: Dispatcher,
) -> Result<Round, SinkFault>
    requires runs { D.means.halted board.old.outside.device ≡ None }
    requires enters { EntersFit watch.old (judge_turn d board.old watch.old) }
    requires fuses { FusesFit watch.old (judge_turn d board.old watch.old) }
    requires room { HasRoom course.old left }
    requires course { IsOnCourse D.means events.now board.old course.old }
    ensures course { IsOnCourse D.means events.now board.new course.new }
    ensures made { let due = round_due D.means events.now.list left (progress_of board.old course.old) watch.old (judge_turn d board.old watch.old) in
        IsMade D.means events.now.list trace left due result (progress_of board.old course.old) (progress_of board.new course.new) watch.new (W.told out.old) (W.told out.new) }
{
    if is_body_due(board, watch) {
        return body(board, watch, events, course, trace, out, left);
    }
    dispatch(board, watch, events, course, trace, out, left, d)
}

// The same by a call. A place for its answer is made here, so that a body in the open makes none, and has
// its own answer in registers.
#[inline(always)]
fn make_far<D: Device, W: Sink>(
    board: &mut Board<D>,
    watch: &mut Watch,
    events: &Events,
    course: &mut Course,
    trace: bool,
    out: &mut W,
    left: u64,
    d: Dispatcher,
) -> Result<Round, SinkFault>
    requires runs { D.means.halted board.old.outside.device ≡ None }
    requires enters { EntersFit watch.old (judge_turn d board.old watch.old) }
    requires fuses { FusesFit watch.old (judge_turn d board.old watch.old) }
    requires room { HasRoom course.old left }
    requires course { IsOnCourse D.means events.now board.old course.old }
    ensures course { IsOnCourse D.means events.now board.new course.new }
    ensures made { let due = round_due D.means events.now.list left (progress_of board.old course.old) watch.old (judge_turn d board.old watch.old) in
        IsMade D.means events.now.list trace left due result (progress_of board.old course.old) (progress_of board.new course.new) watch.new (W.told out.old) (W.told out.new) }
{
    let told = make_any(board, watch, events, course, trace, out, left, d);
    told
}

// Whether a body is due that goes by the fewest tests: its place is open, and a step is left for it.
#[inline(always)]
fn is_open_body<D: Device>(board: &Board<D>, watch: &Watch, left: u64) -> bool
    ensures due { result ≡ true → is_body_due board.now watch.now ≡ true }
    ensures open { result ≡ true → is_open board.now.pc ≡ true }
{
    if left < BODY_COST {
        return false;
    }
    if !is_body_due(board, watch) {
        return false;
    }
    is_open(board.pc())
}

/// A round, of which at most so many steps are made that are left.
#[inline(always)]
#[tactic(auto, unfolding(crate::specs::Rounds::round))]
pub fn round<D: Device, W: Sink>(
    board: &mut Board<D>,
    watch: &mut Watch,
    d: Dispatcher,
    events: &Events,
    course: &mut Course,
    trace: bool,
    out: &mut W,
    left: u64,
) -> Result<Round, SinkFault>
    requires enters { D.means.halted board.old.outside.device ≡ None → EntersFit watch.old (judge_turn d board.old watch.old) }
    requires fuses { D.means.halted board.old.outside.device ≡ None → FusesFit watch.old (judge_turn d board.old watch.old) }
    requires room { HasRoom course.old left }
    requires course { IsOnCourse D.means events.now board.old course.old }
    ensures course { IsOnCourse D.means events.now board.new course.new }
    ensures made { let due = round D.means events.now.list d left (progress_of board.old course.old) watch.old in
        IsMade D.means events.now.list trace left due result (progress_of board.old course.old) (progress_of board.new course.new) watch.new (W.told out.old) (W.told out.new) }
{
    match board.halted() {
        Some(_) => Ok(halt(watch)),
        None => {
            if is_open_body(board, watch, left) {
                if let Some(prepared) = board.known() {
                    let test = open_test(board, watch, &prepared);
                    return carry_tested(
                        board, watch, events, course, trace, out, left, test, &prepared,
                    );
                }
            }
            make_far(board, watch, events, course, trace, out, left, d)
        }
    }
}
