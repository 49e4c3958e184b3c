// The tests of a body, made on what is kept beside the board.
ghost use Rattle.std.specs.Prelude.{◌≡◌, Some};
ghost use Rattle.rv_encoding.specs.declared.instruction.Ins.{Ins};
ghost use Rattle.hart_exec.specs.Operation.{instruction};
ghost use Rattle.chain_moves.specs.Tests.{first_broken, half_tests, first_tests, second_tests, instruction_tests};
ghost use Rattle.chain_moves.specs.Judge.{HasBytes, refused_or, judge_effect};
ghost use Rattle.chain_moves.specs.Ready.{verdict_by};

use crate::broken::Broken;
use crate::convention::is_permitted;
use crate::slot::{BASE, SLOT_END};
use crate::verdict::Verdict;
use crate::watch::Watch;
use hart_board::FETCH_FAULT;
use hart_exec::{Effect, Operation, instruction_of};
use hart_memory::place_of;

// What no test refuses, by what the instruction asks for.
fn verdict_by(effect: Effect) -> Verdict
    ensures { result ≡ verdict_by effect }
{
    match effect {
        Effect::Store { at, width, .. } => Verdict::Reviving { at, width },
        Effect::Go { .. } | Effect::Load { .. } | Effect::System => Verdict::Plain,
    }
}

impl Watch {
    // The tests of a half-word that is fetched.
    #[tactic(auto, unfolding(crate::specs::Tests::first_broken))]
    fn half_test(&self, at: u32) -> Option<Broken>
        ensures { result ≡ first_broken (half_tests self.now.dead at) }
    {
        if !place_of(at, 2).is_in_memory() {
            return Some(Broken::Exception(FETCH_FAULT));
        }
        if self.hides(at, 2) {
            return Some(Broken::ReadsDispatch);
        }
        None
    }

    /// The tests of pc and of the half-word there.
    #[tactic(auto, unfolding(crate::specs::Tests::first_broken))]
    pub fn first_test(&self, pc: u32) -> Option<Broken>
        ensures { result ≡ first_broken (first_tests self.now.dead pc) }
    {
        if pc >= BASE && pc < SLOT_END {
            return Some(Broken::EnteredDispatch);
        }
        self.half_test(pc)
    }

    /// The tests of the half-word after it, by whether it is fetched.
    #[tactic(auto, unfolding(crate::specs::Tests::first_broken))]
    pub fn second_test(&self, is_long: bool, pc: u32) -> Option<Broken>
        ensures { result ≡ first_broken (second_tests is_long self.now.dead pc) }
    {
        if is_long {
            self.half_test(pc.wrapping_add(2))
        } else {
            None
        }
    }

    /// The tests of an access, by what the instruction asks for. One whose address isn't aligned
    /// raises, and is left to the step.
    #[inline(always)]
    #[tactic(auto, unfolding(crate::specs::Tests::first_broken))]
    pub(crate) fn access_test(&self, effect: Effect) -> Option<Broken>
        requires { HasBytes effect }
        ensures { refused_or result (verdict_by effect) ≡ judge_effect self.now effect }
    {
        match effect {
            Effect::Load { at, width, .. } => {
                if self.hides(at, width) && at % width == 0 {
                    Some(Broken::ReadsDispatch)
                } else {
                    None
                }
            }
            Effect::Store { at, width, .. } => {
                if self.meets(at, width) && at % width == 0 {
                    Some(Broken::WritesFrame)
                } else {
                    None
                }
            }
            Effect::Go { .. } | Effect::System => None,
        }
    }

    /// The same, with the bytes that it stores where no test holds.
    pub fn judge_effect(&self, effect: Effect) -> Verdict
        requires { HasBytes effect }
        ensures { result ≡ judge_effect self.now effect }
    {
        match self.access_test(effect) {
            Some(kind) => Verdict::Refused(kind),
            None => verdict_by(effect),
        }
    }

    /// The test of an instruction that is left to the system. A place for the operation is made here, so
    /// that the test of another makes none.
    #[inline(always)]
    pub(crate) fn system_test(&self, operation: &Operation) -> Option<Broken>
        ensures { (ins : Ins) → instruction operation.now ≡ Some ins → result ≡ first_broken (instruction_tests self.now.live ins) }
    {
        let operation = *operation;
        let told = self.convention_test(&operation);
        told
    }

    // Whether the convention permits the instruction that an operation stands for.
    #[inline(never)]
    #[tactic(auto, unfolding(crate::specs::Tests::first_broken))]
    fn convention_test(&self, operation: &Operation) -> Option<Broken>
        ensures { (ins : Ins) → instruction operation.now ≡ Some ins → result ≡ first_broken (instruction_tests self.now.live ins) }
    {
        match instruction_of(operation) {
            Some(ins) => {
                if is_permitted(self.is_foreground(), &ins) {
                    None
                } else {
                    Some(Broken::CsrTouched)
                }
            }
            None => None,
        }
    }
}
