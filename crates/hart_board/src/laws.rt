// Laws on the definitions, for every device.
ghost use Rattle.std.specs.Prelude.{◌≡◌, ℕ, ◌+◌, ◌<◌, ◌≤◌, ◌⊎◌, Bool, false, List, [], ◌∷◌, length, slice_index_or, Some, None, Ok, Err, IsTrue};
ghost use Rattle.clic_regs.specs.ClicState.{line_of};
ghost use Rattle.hart_board.specs.State.{Outside, State};
ghost use Rattle.hart_board.specs.Outside.{with_device};
ghost use Rattle.hart_board.specs.declared.outside.TheConstants.{FIRST_DEVICE_INPUT};
ghost use Rattle.hart_board.specs.Step.{Turn, step, settled, tried};
ghost use Rattle.hart_board.specs.Kinds.{FindsNoVector, IsStep, IsOfOneKindAlone, KeepsAll, HasLinesOf};
ghost use Rattle.clic_select.specs.Top.{top};
ghost use Rattle.clic_trap.specs.Due.{due};
ghost use Rattle.hart_board.specs.Attempt.{attempt};
ghost use Rattle.hart_board.specs.Valid.{IsBoard};
ghost use Rattle.hart_board.specs.declared.trap.Trap.{Trap};
ghost use Rattle.rvc_encoding.specs.declared.encoding.Encoding.{Encoding};
ghost use Rattle.hart_board.specs.Event.{is_free, IsInput, AreEventsFrom, applied, arrived, with_events};
ghost use Rattle.hart_board.specs.Run.{run_of, steps_of};
ghost use Rattle.hart_board.specs.Steps.{EndsAs, board_at, told_to};
ghost use Rattle.hart_board.specs.declared.event.Event.{Event};
ghost use Rattle.hart_board.specs.declared.what.What.{What};
ghost use Rattle.hart_report.specs.declared.stepped.Stepped.{Stepped};
ghost use Rattle.hart_report.specs.declared.stepped.Stepped.TheVariants.{Retired, Raised, Halted, VectorFault};

use device_model::Device;

/// In each state that hasn't halted exactly one kind of step is possible, and the step is of it: the
/// kinds exclude each other.
pub fn step_is_of_one_kind<D: Device>()
    ensures is { (s : State) → D.means.halted s.outside.device ≡ None → IsStep D.means s (step D.means s) }
    ensures only { (s : State) (turn : Turn) → D.means.halted s.outside.device ≡ None → IsStep D.means s turn → turn ≡ step D.means s }
    ensures alone { (s : State) (turn : Turn) → IsOfOneKindAlone D.means s turn }
{}

/// The board had halted exactly where the step says so, and the interrupt of a hardware-vectored
/// input whose word in the table isn't in memory is due exactly where it says that. Both change
/// nothing.
pub fn halts_and_missing_vectors_change_nothing<D: Device>()
    ensures halted { (s : State) (code : ℕ) → (step D.means s).told ≡ Halted code → D.means.halted s.outside.device ≡ Some code }
    ensures halts { (s : State) (code : ℕ) → D.means.halted s.outside.device ≡ Some code → step D.means s ≡ record { told = Halted code; state = s } }
    ensures missing { (s : State) (id : ℕ) → (step D.means s).told ≡ VectorFault id → (D.means.halted s.outside.device ≡ None) × FindsNoVector s id }
    ensures misses { (s : State) (id : ℕ) → D.means.halted s.outside.device ≡ None → FindsNoVector s id → step D.means s ≡ record { told = VectorFault id; state = s } }
{}

/// Where the board hasn't halted and no interrupt is due, a step is what the instruction at pc comes
/// to, and so is a step that is tried.
pub fn step_is_the_instruction<D: Device>()
    ensures step { (s : State) → D.means.halted s.outside.device ≡ None → due s.csrs (top s.outside.clic) ≡ false → step D.means s ≡ settled s (attempt D.means s) }
    ensures retires { (s : State) (made : Encoding × State) → D.means.halted s.outside.device ≡ None → due s.csrs (top s.outside.clic) ≡ false → attempt D.means s ≡ Ok made
        → tried D.means s ≡ record { told = Retired s.pc made.0.bits made.0.length; state = made.1 } }
    ensures raises { (s : State) (trap : Trap) → D.means.halted s.outside.device ≡ None → due s.csrs (top s.outside.clic) ≡ false → attempt D.means s ≡ Err trap
        → tried D.means s ≡ record { told = Raised s.pc trap.code; state = s } }
{}

/// A step that is tried is the step, but where that is an exception nothing changes.
pub fn tried_step_is_the_step<D: Device>()
    ensures raised { (s : State) (pc code : ℕ) → (step D.means s).told ≡ Raised pc code → tried D.means s ≡ record { told = Raised pc code; state = s } }
    ensures other { (s : State) → ((pc code : ℕ) → (step D.means s).told ≡ Raised pc code → ⊥) → tried D.means s ≡ step D.means s }
{}

/// Steps and what comes from outside lead from a valid state to a valid one.
pub fn states_stay_valid<D: Device>()
    ensures step { (s : State) → IsBoard D.means s → IsBoard D.means (step D.means s).state }
    ensures tried { (s : State) → IsBoard D.means s → IsBoard D.means (tried D.means s).state }
    ensures apply { (s : State) (what : What) → IsTrue (is_free s.outside.clic.shape.inputs what) → IsInput what → IsBoard D.means s → IsBoard D.means (applied D.means s what) }
    ensures events { (s : State) (es : List Event) (count from : ℕ) → AreEventsFrom s.outside.clic.shape.inputs from es → IsBoard D.means s → IsBoard D.means (with_events D.means count es s) }
{}

/// The controller's shape never changes.
pub fn shape_stays<D: Device>()
    ensures step { (s : State) → (step D.means s).state.outside.clic.shape ≡ s.outside.clic.shape }
    ensures apply { (s : State) (what : What) → (applied D.means s what).outside.clic.shape ≡ s.outside.clic.shape }
    ensures events { (s : State) (es : List Event) (count : ℕ) → (with_events D.means count es s).outside.clic.shape ≡ s.outside.clic.shape }
{}

/// An exception keeps the registers, memory, the controller and the device.
pub fn exception_keeps_all_else<D: Device>()
    ensures { (s : State) (pc code : ℕ) → (step D.means s).told ≡ Raised pc code → KeepsAll s (step D.means s).state }
{}

/// No step changes ROM.
pub fn rom_stays<D: Device>()
    ensures { (s : State) → (step D.means s).state.memory.rom ≡ s.memory.rom }
{}

/// A step leaves the controller's lines, but for those that are the device's.
pub fn lines_stay<D: Device>()
    ensures { (s : State) → HasLinesOf D.means s.outside.clic (step D.means s).state.outside }
{}

/// Once the device's lines are sampled, the inputs that they drive are as the lines are, and every
/// other input's line is as it was.
pub fn sampled_inputs_follow_the_device<D: Device>()
    ensures own { (o : Outside) (device : List ℕ) (k : ℕ) → k < length (D.means.lines device) → FIRST_DEVICE_INPUT + length (D.means.lines device) ≤ length o.clic.line
        → line_of (with_device D.means o device).clic (FIRST_DEVICE_INPUT + k) ≡ slice_index_or (D.means.lines device) k false }
    ensures others { (o : Outside) (device : List ℕ) (i : ℕ) → (i < FIRST_DEVICE_INPUT) ⊎ (FIRST_DEVICE_INPUT + length (D.means.lines device) ≤ i)
        → line_of (with_device D.means o device).clic i ≡ line_of o.clic i }
{}

/// The events of a count come one after the other. Those of other counts don't come, and none comes
/// to a board that has halted.
pub fn events_come_in_order<D: Device>()
    ensures none { (s : State) (count : ℕ) → with_events D.means count [] s ≡ s }
    ensures due { (s : State) (count : ℕ) (e : Event) (es : List Event) → e.at ≡ count → with_events D.means count (e ∷ es) s ≡ with_events D.means count es (arrived D.means s e.what) }
    ensures other { (s : State) (count : ℕ) (e : Event) (es : List Event) → (e.at ≡ count → ⊥) → with_events D.means count (e ∷ es) s ≡ with_events D.means count es s }
    ensures halted { (s : State) (count code : ℕ) (es : List Event) → D.means.halted s.outside.device ≡ Some code → with_events D.means count es s ≡ s }
{}

/// A run ends at the first count at which the board has halted, else at the bound, else at a step
/// that finds no vector. It stands after so many steps, with the events of each count that was
/// reached, and tells what became of each step. `rises` says with which steps the count rises.
pub fn run_is_steps<D: Device>()
    ensures ends { (rises : Stepped → Bool) (es : List Event) (bound : ℕ) (s : State) → EndsAs D.means rises es s bound (run_of D.means rises es bound s).end }
    ensures state { (rises : Stepped → Bool) (es : List Event) (bound : ℕ) (s : State) → (run_of D.means rises es bound s).state ≡ board_at D.means rises es s (steps_of bound (run_of D.means rises es bound s).end) }
    ensures steps { (rises : Stepped → Bool) (es : List Event) (bound : ℕ) (s : State) → (run_of D.means rises es bound s).steps ≡ told_to D.means rises es s (steps_of bound (run_of D.means rises es bound s).end) }
{}

/// Steps, what comes from outside, and runs leave the states that are kept.
pub fn kept_states_stay<D: Device>()
    ensures step { (s : State) → (step D.means s).state.kept ≡ s.kept }
    ensures tried { (s : State) → (tried D.means s).state.kept ≡ s.kept }
    ensures apply { (s : State) (what : What) → (applied D.means s what).kept ≡ s.kept }
    ensures run { (rises : Stepped → Bool) (es : List Event) (bound : ℕ) (s : State) → (run_of D.means rises es bound s).state.kept ≡ s.kept }
{}
