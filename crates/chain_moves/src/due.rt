// The move that is due, by the board and what is kept beside it.
ghost use Rattle.std.specs.Prelude.{◌≡◌, ◌<◌, ◌==◌, true, false, length, IfOk};
ghost use Rattle.hart_memory.specs.Memory.{Memory};
ghost use Rattle.hart_memory.specs.Fetch.{fetched};
ghost use Rattle.clic_select.specs.Top.{top};
ghost use Rattle.clic_trap.specs.Due.{due};
ghost use Rattle.chain_moves.specs.Slot.{back};
ghost use Rattle.chain_moves.specs.Servicing.{innermost_level};
ghost use Rattle.chain_moves.specs.Body.{is_long_at};
ghost use Rattle.chain_moves.specs.Cost.{is_fused};
ghost use Rattle.chain_moves.specs.Judge.{refused_or, judge_fetched, judge_body, claims_above, judge_fused, judge_leave, judge_turn};
ghost use Rattle.chain_moves.specs.Ready.{verdict_by, verdict_of, is_open, is_body_due, turn_of};
ghost use Rattle.hart_board.specs.Prepared.{IsPrepared};
ghost use Rattle.chain_moves.specs.Watched.{outside_of};
ghost use Rattle.chain_moves.specs.declared.moves.Move.TheVariants.{Leave as LeaveMove};

use crate::broken::Broken;
use crate::dispatcher::Dispatcher;
use crate::entering::claims_above;
use crate::next::Next;
use crate::slot::{BACK, BASE, SLOT_END};
use crate::watch::Watch;
use clic_trap::due;
use device_model::Device;
use hart_board::{Board, FETCH_FAULT, ILLEGAL_INSTRUCTION, Prepared};
use hart_exec::Effect;
use hart_memory::{BANK_LEN, Fetched, fetch};

// The stack pointer.
const SP: u8 = 2;

/// Whether a second half-word was fetched, or is the one that is missing.
#[tactic(auto, using(crate::proofs::Fetching::long_word, crate::proofs::Fetching::long_half))]
pub fn is_long(found: Fetched, pc: u32) -> bool
    ensures { (m : Memory) → found ≡ fetched m pc → result ≡ is_long_at m pc }
{
    match found {
        Fetched::Bits { length, .. } => length == 4,
        Fetched::Missing(at) => at != pc,
    }
}

// The test of the instruction at pc that holds, if one does: whether it is permitted, or of its access.
#[inline(always)]
fn instruction_test<D: Device>(
    board: &Board<D>,
    watch: &Watch,
    prepared: &Prepared,
) -> Option<Broken>
    requires { IsPrepared board.now prepared.now }
    ensures { refused_or result (verdict_by prepared.now.effect) ≡ judge_fetched board.now watch.now (fetched board.now.memory board.now.pc) }
{
    let _ = board;
    match prepared.effect {
        Effect::System => watch.system_test(&prepared.operation),
        _ => watch.access_test(prepared.effect),
    }
}

// The tests of the instruction that was fetched.
fn judge_fetched<D: Device>(
    board: &mut Board<D>,
    watch: &Watch,
    found: Fetched,
) -> Result<Prepared, Broken>
    requires { found ≡ fetched board.old.memory board.old.pc }
    ensures verdict { verdict_of result ≡ judge_fetched board.old watch.now found }
    ensures prepared { IfOk result (λ prepared. IsPrepared board.old prepared) }
    ensures same { board.new ≡ board.old }
{
    let (bits, length) = match found {
        Fetched::Bits { bits, length } => (bits, length),
        Fetched::Missing(_) => return Err(Broken::Exception(FETCH_FAULT)),
    };
    match board.prepare(bits, length) {
        Some(prepared) => match instruction_test(board, watch, &prepared) {
            Some(kind) => Err(kind),
            None => Ok(prepared),
        },
        None => Err(Broken::Exception(ILLEGAL_INSTRUCTION)),
    }
}

/// Whether no test can hold of the half-words at pc and after it: all four bytes are in ROM, outside the
/// slot.
#[inline(always)]
pub fn is_open(pc: u32) -> bool
    ensures { result ≡ is_open pc }
{
    (pc >= SLOT_END && pc <= BANK_LEN - 4) || pc <= BASE - 4
}

/// The tests of a body that are made before its step, and its instruction where none of them holds. The
/// state is the same.
#[tactic(auto, unfolding(crate::specs::Judge::judge_body))]
pub fn judge_body<D: Device>(board: &mut Board<D>, watch: &Watch) -> Result<Prepared, Broken>
    ensures verdict { verdict_of result ≡ judge_body board.old watch.now }
    ensures prepared { IfOk result (λ prepared. IsPrepared board.old prepared) }
    ensures same { board.new ≡ board.old }
{
    let pc = board.pc();
    if let Some(kind) = watch.first_test(pc) {
        return Err(kind);
    }
    let found = fetch(board.banks(), pc);
    match watch.second_test(is_long(found, pc), pc) {
        Some(kind) => Err(kind),
        None => judge_fetched(board, watch, found),
    }
}

/// The test of a body that holds, if one does, where its place is open and its instruction is known.
#[inline(always)]
#[tactic(auto, using(crate::proofs::Opened::judged_open))]
pub fn open_test<D: Device>(board: &Board<D>, watch: &Watch, prepared: &Prepared) -> Option<Broken>
    requires open { is_open board.now.pc ≡ true }
    requires prepared { IsPrepared board.now prepared.now }
    ensures { refused_or result (verdict_by prepared.now.effect) ≡ judge_body board.now watch.now }
{
    instruction_test(board, watch, prepared)
}

// Whether a Leave goes on with the Enter that could be made at once.
fn goes_on(d: Dispatcher, claims: bool) -> bool
    ensures { result ≡ is_fused d LeaveMove claims }
{
    match d {
        Dispatcher::Looping => claims,
        Dispatcher::Returning => false,
    }
}

// A Leave, or a fused pair.
fn judge_return<D: Device>(d: Dispatcher, board: &Board<D>, watch: &Watch) -> Next
    requires { 0 < length watch.now.live }
    ensures { let b = board.now in
        let outside = outside_of watch.now.live in
        turn_of result ≡ judge_fused b watch.now outside (top b.outside.clic) (is_fused d LeaveMove (claims_above (top b.outside.clic) (innermost_level outside) b.csrs.th)) }
{
    let csrs = board.csrs();
    let top = board.select().top();
    let fused = goes_on(d, claims_above(top, watch.level_outside(), csrs.th()));
    match top {
        Some(choice) => {
            if fused {
                Next::Fuse(watch.entry_fused(choice, csrs.mtvec_base(), csrs.mtvt(), board.reg(SP)))
            } else {
                Next::Leave
            }
        }
        None => Next::Leave,
    }
}

// The move that is due where no Enter and no body is.
fn judge_leave<D: Device>(d: Dispatcher, board: &Board<D>, watch: &Watch) -> Next
    requires calm { due board.now.csrs (top board.now.outside.clic) ≡ false }
    requires other { is_body_due board.now watch.now ≡ false }
    ensures { turn_of result ≡ judge_leave d board.now watch.now watch.now.live (board.now.pc == back) }
{
    judge_return(d, board, watch)
}

/// Whether a body is due on a board that hasn't halted: no interrupt is, and no handler returns.
#[inline(always)]
pub fn is_body_due<D: Device>(board: &Board<D>, watch: &Watch) -> bool
    ensures { result ≡ is_body_due board.now watch.now }
{
    if due(board.csrs(), board.select().top()) {
        return false;
    }
    board.pc() != BACK || watch.is_foreground()
}

/// The move that is due on a board that hasn't halted, where it isn't a body.
#[tactic(auto, unfolding(crate::specs::Judge::judge_turn))]
pub fn judge_dispatch<D: Device>(d: Dispatcher, board: &Board<D>, watch: &Watch) -> Next
    requires { is_body_due board.now watch.now ≡ false }
    ensures { turn_of result ≡ judge_turn d board.now watch.now }
{
    let csrs = board.csrs();
    let top = board.select().top();
    let enters = due(csrs, top);
    match top {
        Some(choice) => {
            if enters {
                Next::Enter(watch.entry_of(
                    choice,
                    csrs.mtvec_base(),
                    csrs.mtvt(),
                    board.reg(SP),
                    csrs.mscratch(),
                ))
            } else {
                judge_leave(d, board, watch)
            }
        }
        None => judge_leave(d, board, watch),
    }
}
