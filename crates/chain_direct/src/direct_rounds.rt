// Rounds of a chain with direct services.
ghost use Rattle.std.specs.Prelude.{◌≡◌, ◌+◌, ◌<◌, ◌^◌, nat_le, is_ok, IfOk, None};
ghost use Rattle.hart_memory.specs.Place.{place};
ghost use Rattle.chain_moves.specs.Bytes.{revived_at};
ghost use Rattle.chain_moves.specs.Cost.{body_cost};
ghost use Rattle.chain_moves.specs.Judge.{judge_turn};
ghost use Rattle.chain_core.specs.Progress.{progress_of, HasRoom, IsOnCourse};
ghost use Rattle.chain_core.specs.Fitting.{EntersFit, FusesFit};
ghost use Rattle.chain_core.specs.Rounds.{round as chained_round, IsMade};
ghost use Rattle.chain_direct.specs.DirectRounds.{hard_due, round_begun, round_begin, round_ended, round_direct_body, round_going, round_direct_due, round_serving, round_chained, BeginTells, IsDirectMade, direct_round};

use crate::direct_judging::{are_same, hard_due, judge_direct_body, test_begin};
use crate::direct_telling::put_direct;
use crate::direct_verdict::DirectVerdict;
use crate::direct_watch::DirectWatch;
use board_outside::{Sink, SinkFault};
use chain_core::rounds::round;
use chain_core::stepping::{try_one, walk};
use chain_core::{Course, Round};
use chain_moves::kept::all;
use chain_moves::{Broken, Dispatcher, Verdict};
use clic_select::Choice;
use device_model::Device;
use hart_board::{Board, Events};

// What one step costs, of a body or of a direct service that begins.
const STEP_COST: u64 = 1;

// A direct service begins whose tests don't hold.
fn vector<D: Device, W: Sink>(
    board: &mut Board<D>,
    watch: &mut DirectWatch,
    events: &Events,
    course: &mut Course,
    trace: bool,
    out: &mut W,
    left: u64,
    top: Choice,
) -> Result<Round, SinkFault>
    requires room { HasRoom course.old left }
    requires begun { watch.old.begun + left < 2 ^ 64 }
    requires course { IsOnCourse D.means events.now board.old course.old }
    ensures course { IsOnCourse D.means events.now board.new course.new }
    ensures round { IfOk result (λ told. record { told = told; progress = progress_of board.new course.new; watch = watch.new } ≡ round_begun D.means events.now.list left (progress_of board.old course.old) watch.old (nat_le body_cost left)) }
    ensures tells { let due = round_begun D.means events.now.list left (progress_of board.old course.old) watch.old (nat_le body_cost left) in
        BeginTells D.means events.now.list trace left top due.told (is_ok result) (progress_of board.old course.old) (progress_of board.new course.new) (W.told out.old) (W.told out.new) }
{
    if left < STEP_COST {
        walk(board, events, course, left, trace, out)?;
        return Ok(Round::Spent);
    }
    let kept = all(board.regs());
    let depth = course.depth;
    walk(board, events, course, STEP_COST, trace, out)?;
    put_direct(top.id, board.csrs().mil(), depth + 1, out)?;
    watch.begin(kept);
    Ok(Round::Made(STEP_COST))
}

// A direct service that is due.
fn begin<D: Device, W: Sink>(
    board: &mut Board<D>,
    watch: &mut DirectWatch,
    events: &Events,
    course: &mut Course,
    trace: bool,
    out: &mut W,
    left: u64,
    top: Choice,
) -> Result<Round, SinkFault>
    requires room { HasRoom course.old left }
    requires begun { watch.old.begun + left < 2 ^ 64 }
    requires course { IsOnCourse D.means events.now board.old course.old }
    ensures course { IsOnCourse D.means events.now board.new course.new }
    ensures round { IfOk result (λ told. record { told = told; progress = progress_of board.new course.new; watch = watch.new } ≡ round_begin D.means events.now.list left (progress_of board.old course.old) watch.old top) }
    ensures tells { let due = round_begin D.means events.now.list left (progress_of board.old course.old) watch.old top in
        BeginTells D.means events.now.list trace left top due.told (is_ok result) (progress_of board.old course.old) (progress_of board.new course.new) (W.told out.old) (W.told out.new) }
{
    match test_begin(board, watch, top) {
        Some(kind) => Ok(Round::Failed(kind, 0)),
        None => vector(board, watch, events, course, trace, out, left, top),
    }
}

// MRET, which ends the service: whether a register was lost that the service had kept so.
fn finish<D: Device, W: Sink>(
    board: &mut Board<D>,
    watch: &mut DirectWatch,
    events: &Events,
    course: &mut Course,
    trace: bool,
    out: &mut W,
    left: u64,
    kept: &[u32; 32],
) -> Result<Round, SinkFault>
    requires room { HasRoom course.old left }
    requires course { IsOnCourse D.means events.now board.old course.old }
    ensures course { IsOnCourse D.means events.now board.new course.new }
    ensures made { let due = round_ended D.means events.now.list left (progress_of board.old course.old) watch.old kept.now (nat_le body_cost left) in
        IsMade D.means events.now.list trace left due result (progress_of board.old course.old) (progress_of board.new course.new) watch.new (W.told out.old) (W.told out.new) }
{
    if left < STEP_COST {
        walk(board, events, course, left, trace, out)?;
        return Ok(Round::Spent);
    }
    walk(board, events, course, STEP_COST, trace, out)?;
    watch.end();
    if are_same(kept, board.regs()) {
        Ok(Round::Made(STEP_COST))
    } else {
        Ok(Round::Failed(Broken::RegisterLost, STEP_COST))
    }
}

// An instruction whose tests before its step don't hold, and which stores so many bytes, or none.
fn carry_out<D: Device, W: Sink>(
    board: &mut Board<D>,
    watch: &mut DirectWatch,
    events: &Events,
    course: &mut Course,
    trace: bool,
    out: &mut W,
    left: u64,
    at: u32,
    width: u32,
) -> Result<Round, SinkFault>
    requires room { HasRoom course.old left }
    requires course { IsOnCourse D.means events.now board.old course.old }
    ensures course { IsOnCourse D.means events.now board.new course.new }
    ensures made { let due = round_direct_body D.means events.now.list left (progress_of board.old course.old) watch.old (nat_le body_cost left) (revived_at (place at width) width watch.old.chained.dead) in
        IsMade D.means events.now.list trace left due result (progress_of board.old course.old) (progress_of board.new course.new) watch.new (W.told out.old) (W.told out.new) }
{
    if left < STEP_COST {
        walk(board, events, course, left, trace, out)?;
        return Ok(Round::Spent);
    }
    match try_one(board, events, course, trace, out)? {
        Some(code) => Ok(Round::Failed(Broken::Exception(code), 0)),
        None => {
            watch.chained.revive(at, width);
            Ok(Round::Made(STEP_COST))
        }
    }
}

// An instruction that isn't the service's MRET.
fn go_on<D: Device, W: Sink>(
    board: &mut Board<D>,
    watch: &mut DirectWatch,
    events: &Events,
    course: &mut Course,
    trace: bool,
    out: &mut W,
    left: u64,
    verdict: Verdict,
) -> Result<Round, SinkFault>
    requires room { HasRoom course.old left }
    requires course { IsOnCourse D.means events.now board.old course.old }
    ensures course { IsOnCourse D.means events.now board.new course.new }
    ensures made { let due = round_going D.means events.now.list left (progress_of board.old course.old) watch.old verdict in
        IsMade D.means events.now.list trace left due result (progress_of board.old course.old) (progress_of board.new course.new) watch.new (W.told out.old) (W.told out.new) }
{
    match verdict {
        Verdict::Refused(kind) => Ok(Round::Failed(kind, 0)),
        Verdict::Plain => carry_out(board, watch, events, course, trace, out, left, 0, 0),
        Verdict::Reviving { at, width } => {
            carry_out(board, watch, events, course, trace, out, left, at, width)
        }
    }
}

// An instruction of a direct service, on a board that hasn't halted.
fn make<D: Device, W: Sink>(
    board: &mut Board<D>,
    watch: &mut DirectWatch,
    events: &Events,
    course: &mut Course,
    trace: bool,
    out: &mut W,
    left: u64,
    kept: &[u32; 32],
    verdict: DirectVerdict,
) -> Result<Round, SinkFault>
    requires room { HasRoom course.old left }
    requires course { IsOnCourse D.means events.now board.old course.old }
    ensures course { IsOnCourse D.means events.now board.new course.new }
    ensures made { let due = round_direct_due D.means events.now.list left (progress_of board.old course.old) watch.old kept.now verdict in
        IsMade D.means events.now.list trace left due result (progress_of board.old course.old) (progress_of board.new course.new) watch.new (W.told out.old) (W.told out.new) }
{
    match verdict {
        DirectVerdict::Ends => finish(board, watch, events, course, trace, out, left, kept),
        DirectVerdict::Goes(verdict) => {
            go_on(board, watch, events, course, trace, out, left, verdict)
        }
    }
}

// A round while a direct service is live.
fn serve<D: Device, W: Sink>(
    board: &mut Board<D>,
    watch: &mut DirectWatch,
    events: &Events,
    course: &mut Course,
    trace: bool,
    out: &mut W,
    left: u64,
    kept: &[u32; 32],
) -> Result<Round, SinkFault>
    requires room { HasRoom course.old left }
    requires course { IsOnCourse D.means events.now board.old course.old }
    ensures course { IsOnCourse D.means events.now board.new course.new }
    ensures made { let due = round_serving D.means events.now.list left (progress_of board.old course.old) watch.old kept.now (D.means.halted board.old.outside.device) in
        IsMade D.means events.now.list trace left due result (progress_of board.old course.old) (progress_of board.new course.new) watch.new (W.told out.old) (W.told out.new) }
{
    match board.halted() {
        Some(_) => Ok(Round::Failed(Broken::HaltInHandler, 0)),
        None => {
            let verdict = judge_direct_body(board, &watch.chained);
            make(
                board, watch, events, course, trace, out, left, kept, verdict,
            )
        }
    }
}

// A round of the chained services.
fn chain_on<D: Device, W: Sink>(
    board: &mut Board<D>,
    watch: &mut DirectWatch,
    d: Dispatcher,
    events: &Events,
    course: &mut Course,
    trace: bool,
    out: &mut W,
    left: u64,
) -> Result<Round, SinkFault>
    requires enters { D.means.halted board.old.outside.device ≡ None → EntersFit watch.old.chained (judge_turn d board.old watch.old.chained) }
    requires fuses { D.means.halted board.old.outside.device ≡ None → FusesFit watch.old.chained (judge_turn d board.old watch.old.chained) }
    requires room { HasRoom course.old left }
    requires course { IsOnCourse D.means events.now board.old course.old }
    ensures course { IsOnCourse D.means events.now board.new course.new }
    ensures made { let due = round_chained watch.old (chained_round D.means events.now.list d left (progress_of board.old course.old) watch.old.chained) in
        IsMade D.means events.now.list trace left due result (progress_of board.old course.old) (progress_of board.new course.new) watch.new (W.told out.old) (W.told out.new) }
{
    round(
        board,
        &mut watch.chained,
        d,
        events,
        course,
        trace,
        out,
        left,
    )
}

/// A round, of which at most so many steps are made that are left: of the direct service that is live,
/// or that begins, or else of the chained services.
#[tactic(auto, unfolding(crate::specs::DirectRounds::direct_round))]
pub fn direct_round<D: Device, W: Sink>(
    board: &mut Board<D>,
    watch: &mut DirectWatch,
    d: Dispatcher,
    events: &Events,
    course: &mut Course,
    trace: bool,
    out: &mut W,
    left: u64,
) -> Result<Round, SinkFault>
    requires enters { watch.old.kept ≡ None → hard_due D.means board.old ≡ None → D.means.halted board.old.outside.device ≡ None → EntersFit watch.old.chained (judge_turn d board.old watch.old.chained) }
    requires fuses { watch.old.kept ≡ None → hard_due D.means board.old ≡ None → D.means.halted board.old.outside.device ≡ None → FusesFit watch.old.chained (judge_turn d board.old watch.old.chained) }
    requires room { HasRoom course.old left }
    requires begun { watch.old.begun + left < 2 ^ 64 }
    requires course { IsOnCourse D.means events.now board.old course.old }
    ensures course { IsOnCourse D.means events.now board.new course.new }
    ensures made { let due = direct_round D.means events.now.list d left (progress_of board.old course.old) watch.old in
        IsDirectMade D.means events.now.list trace left watch.old.kept (hard_due D.means board.old) due result (progress_of board.old course.old) (progress_of board.new course.new) watch.new (W.told out.old) (W.told out.new) }
{
    match watch.kept() {
        Some(kept) => serve(board, watch, events, course, trace, out, left, &kept),
        None => match hard_due(board) {
            Some(top) => begin(board, watch, events, course, trace, out, left, top),
            None => chain_on(board, watch, d, events, course, trace, out, left),
        },
    }
}
