// The tests of a direct service: as it begins, of its instructions, and of its registers at its end.
ghost use Rattle.std.specs.Prelude.{◌≡◌, ◌<◌, ◌==◌, ℕ};
ghost use Rattle.hart_words.specs.Registers.{register};
ghost use Rattle.hart_memory.specs.Fetch.{fetched};
ghost use Rattle.hart_exec.specs.Effect.{effect as effect_of};
ghost use Rattle.hart_board.specs.State.{State};
ghost use Rattle.hart_board.specs.Prepared.{IsPrepared};
ghost use Rattle.chain_moves.specs.Tests.{first_broken};
ghost use Rattle.chain_moves.specs.Enter.{table_address};
ghost use Rattle.chain_moves.specs.Judge.{HasBytes};
ghost use Rattle.chain_direct.specs.DirectBody.{direct_instruction_tests, are_same};
ghost use Rattle.chain_direct.specs.DirectJudge.{direct_or, judge_direct_made, judge_direct_fetched, judge_direct_body};
ghost use Rattle.chain_direct.specs.DirectMoves.{begin_tests};
ghost use Rattle.chain_direct.specs.DirectRounds.{hard_due};

use crate::direct_verdict::DirectVerdict;
use crate::direct_watch::DirectWatch;
use chain_moves::due::is_open;
use chain_moves::{Broken, Verdict, Watch, is_long, table_address};
use clic_select::Choice;
use clic_trap::due;
use device_model::Device;
use hart_board::{Board, FETCH_FAULT, ILLEGAL_INSTRUCTION, Prepared};
use hart_exec::{Effect, instruction_of};
use hart_memory::{Fetched, fetch, place_of};
use hart_words::Regs;
use rv_encoding::Ins;

/// The tests of a direct service that begins, by the address of its word in the table.
#[tactic(auto, unfolding(chain_moves::specs::Tests::first_broken))]
pub fn test_word(watch: &Watch, at: u32) -> Option<Broken>
    ensures { result ≡ first_broken (begin_tests watch.now.dead at) }
{
    if !place_of(at, 4).is_in_memory() {
        return Some(Broken::BadTable);
    }
    if watch.hides(at, 4) {
        return Some(Broken::BadTable);
    }
    None
}

/// The tests of a direct service of that input, which begins.
pub fn test_begin<D: Device>(board: &Board<D>, watch: &DirectWatch, top: Choice) -> Option<Broken>
    ensures { result ≡ first_broken (begin_tests watch.now.chained.dead (table_address board.now.csrs.mtvt top.id)) }
{
    test_word(&watch.chained, table_address(board.csrs().mtvt(), top.id))
}

// Whether a register is as it was.
fn is_same(kept: &[u32; 32], registers: &Regs, r: u8) -> bool
    requires { r < 32 }
    ensures { result ≡ (register registers.now r == register kept.now r) }
{
    registers.get(r) == kept[usize::from(r)]
}

/// Whether each register is as it was.
pub fn are_same(kept: &[u32; 32], registers: &Regs) -> bool
    ensures { result ≡ are_same kept.now registers.now 32 }
{
    for r in 0..32u8 {
        if !is_same(kept, registers, r) {
            return false;
        }
    }
    true
}

// The tests of an instruction that is spelled, and of what it asks for.
#[tactic(auto, unfolding(chain_moves::specs::Tests::first_broken))]
fn judge_instruction(watch: &Watch, ins: &Ins, effect: Effect) -> DirectVerdict
    requires { HasBytes effect }
    ensures { (b : State) (length : ℕ) → effect ≡ effect_of ins.now length b.registers b.pc → result ≡ direct_or (first_broken (direct_instruction_tests ins.now)) (judge_direct_made b watch.now length ins.now) }
{
    match *ins {
        Ins::Csr { .. } => DirectVerdict::Goes(Verdict::Refused(Broken::CsrTouched)),
        Ins::Mret => DirectVerdict::Ends,
        _ => DirectVerdict::Goes(watch.judge_effect(effect)),
    }
}

// The tests of the instruction at pc.
fn judge_prepared<D: Device>(board: &Board<D>, watch: &Watch, prepared: &Prepared) -> DirectVerdict
    requires { IsPrepared board.now prepared.now }
    ensures { result ≡ judge_direct_fetched board.now watch.now (fetched board.now.memory board.now.pc) }
{
    let _ = board;
    match instruction_of(&prepared.operation) {
        Some(ins) => judge_instruction(watch, &ins, prepared.effect),
        None => unreachable!(),
    }
}

// The tests of the instruction that was fetched. The state is the same.
fn judge_fetched<D: Device>(board: &mut Board<D>, watch: &Watch, found: Fetched) -> DirectVerdict
    requires { found ≡ fetched board.old.memory board.old.pc }
    ensures verdict { result ≡ judge_direct_fetched board.old watch.now found }
    ensures same { board.new ≡ board.old }
{
    let (bits, length) = match found {
        Fetched::Bits { bits, length } => (bits, length),
        Fetched::Missing(_) => {
            return DirectVerdict::Goes(Verdict::Refused(Broken::Exception(FETCH_FAULT)));
        }
    };
    match board.prepare(bits, length) {
        Some(prepared) => judge_prepared(board, watch, &prepared),
        None => DirectVerdict::Goes(Verdict::Refused(Broken::Exception(ILLEGAL_INSTRUCTION))),
    }
}

// The tests of an instruction, whatever place it has. The state is the same.
#[tactic(auto, unfolding(crate::specs::DirectJudge::judge_direct_body))]
fn judge_anywhere<D: Device>(board: &mut Board<D>, watch: &Watch) -> DirectVerdict
    ensures verdict { result ≡ judge_direct_body board.old watch.now }
    ensures same { board.new ≡ board.old }
{
    let pc = board.pc();
    if let Some(kind) = watch.first_test(pc) {
        return DirectVerdict::Goes(Verdict::Refused(kind));
    }
    let found = fetch(board.banks(), pc);
    match watch.second_test(is_long(found, pc), pc) {
        Some(kind) => DirectVerdict::Goes(Verdict::Refused(kind)),
        None => judge_fetched(board, watch, found),
    }
}

/// The tests of a direct service's instruction that are made before its step. The state is the same.
#[tactic(auto, using(crate::proofs::OpenTests::judged_open))]
pub fn judge_direct_body<D: Device>(board: &mut Board<D>, watch: &Watch) -> DirectVerdict
    ensures verdict { result ≡ judge_direct_body board.old watch.now }
    ensures same { board.new ≡ board.old }
{
    if !is_open(board.pc()) {
        return judge_anywhere(board, watch);
    }
    match board.known() {
        Some(prepared) => judge_prepared(board, watch, &prepared),
        None => judge_anywhere(board, watch),
    }
}

/// The hardware-vectored input whose direct service is due, on a board that hasn't halted.
#[tactic(auto, unfolding(crate::specs::DirectRounds::hard_due))]
pub fn hard_due<D: Device>(board: &Board<D>) -> Option<Choice>
    ensures { result ≡ hard_due D.means board.now }
{
    if board.halted().is_some() {
        return None;
    }
    let top = board.select().top();
    let enters = due(board.csrs(), top);
    match top {
        Some(choice) => {
            if enters && choice.shv {
                Some(choice)
            } else {
                None
            }
        }
        None => None,
    }
}
