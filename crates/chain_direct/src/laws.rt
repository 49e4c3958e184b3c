// What holds of the servicing machine with direct services, for every device and all events.
ghost use Rattle.std.specs.Prelude.{◌≡◌, ℕ, ◌+◌, ◌-◌, ◌*◌, ◌≤◌, Bool, true, false, List, [], ◌∷◌, None, length};
ghost use Rattle.rv_encoding.specs.Rows.{spelled};
ghost use Rattle.rv_encoding.specs.declared.instruction.Ins.TheVariants.{Mret};
ghost use Rattle.hart_memory.specs.Fetch.{fetched};
ghost use Rattle.hart_memory.specs.declared.fetched.Fetched.TheVariants.{Bits};
ghost use Rattle.clic_select.specs.Top.{top};
ghost use Rattle.clic_select.specs.declared.choice.Choice.{Choice};
ghost use Rattle.hart_report.specs.declared.stepped.Stepped.TheVariants.{Interrupted, Retired};
ghost use Rattle.hart_board.specs.State.{State};
ghost use Rattle.hart_board.specs.Step.{step};
ghost use Rattle.hart_board.specs.Event.{AreEventsFrom};
ghost use Rattle.hart_board.specs.declared.event.Event.{Event};
ghost use Rattle.chain_moves.specs.Servicing.{Servicing, marks};
ghost use Rattle.chain_moves.specs.Tests.{first_broken};
ghost use Rattle.chain_moves.specs.Enter.{takes_interrupts, is_enter_due, table_address};
ghost use Rattle.chain_moves.specs.Beside.{Rest, board_of};
ghost use Rattle.chain_moves.specs.Related.{Related};
ghost use Rattle.chain_moves.specs.Watched.{watched_of};
ghost use Rattle.chain_moves.specs.Slot.{base, slot_end};
ghost use Rattle.chain_moves.specs.Machine.{When, Before, Within, After, Makes, Breaks, Ends};
ghost use Rattle.chain_moves.specs.Run.{Made, On, run_to, after_moves, Leads, IsRun};
ghost use Rattle.chain_moves.specs.Cost.{cost};
ghost use Rattle.chain_core.specs.Counts.{counts};
ghost use Rattle.chain_core.specs.End.{end_at, EndsAs, services_within, IsListed};
ghost use Rattle.chain_core.specs.Chain.{chain_end, chain_text};
ghost use Rattle.chain_core.specs.Both.{with_slot_bytes, Starts};
ghost use Rattle.chain_moves.specs.declared.broken.Broken.{Broken};
ghost use Rattle.chain_moves.specs.declared.broken.Broken.TheVariants.{HardVectored, RegisterLost, BadTable, HaltInHandler, Exception};
ghost use Rattle.chain_moves.specs.declared.dispatcher.Dispatcher.{Dispatcher};
ghost use Rattle.chain_moves.specs.declared.dispatcher.Dispatcher.TheVariants.{Looping, Returning};
ghost use Rattle.chain_core.specs.declared.chain_end.ChainEnd.{ChainEnd};
ghost use Rattle.chain_core.specs.declared.chain_end.ChainEnd.TheVariants.{Done, BudgetSpent, Broken as BrokenOff};
ghost use Rattle.chain_direct.specs.Kind.{Kind};
ghost use Rattle.chain_direct.specs.Directed.{Direct, Directed};
ghost use Rattle.chain_direct.specs.DirectMoves.{begin_tests, vectored, direct_move, direct_machine};
ghost use Rattle.chain_direct.specs.DirectKinds.{IsDirectMove};
ghost use Rattle.chain_direct.specs.DirectCounts.{as_moves, begins_in};
ghost use Rattle.chain_direct.specs.DirectText.{direct_end, direct_text, NeverHardVectored};
ghost use Rattle.chain_direct.specs.DirectBeside.{direct_board_of, rest_returned};
ghost use Rattle.chain_direct.specs.DirectRelated.{DirectRelated};
ghost use Rattle.chain_direct.specs.DirectJudge.{judge_direct_body};
ghost use Rattle.chain_direct.specs.DirectSteps.{new_direct, BeginsSo, DirectBodyMeans};
ghost use Rattle.chain_direct.specs.DirectBoth.{BothDirectAgree};
ghost use Rattle.chain_core.specs.Example.{nothing, halted, events};
ghost use Rattle.chain_direct.specs.DirectExample.{starting, hidden_table, dead_table, in_direct, direct_shown};

use device_model::Device;

/// What is made is one of the four moves, and what is one of them is made; none is two of them.
pub fn a_move_is_one_of_four<D: Device>()
    ensures is { (es : List Event) (s : Directed) (kind : Kind) (t : Directed) → direct_move D.means es s ≡ Makes kind t → IsDirectMove D.means es s kind t }
    ensures only { (es : List Event) (s : Directed) (kind : Kind) (t : Directed) → IsDirectMove D.means es s kind t → direct_move D.means es s ≡ Makes kind t }
    ensures alone { (es : List Event) (s : Directed) (one other : Kind) (t u : Directed) → IsDirectMove D.means es s one t → IsDirectMove D.means es s other u → one ≡ other }
{}

/// The first moves of a run are a list of moves, and every list of moves is a run.
pub fn a_run_is_a_list_of_moves<D: Device>()
    ensures is { (es : List Event) (s : Directed) (n : ℕ) → IsRun (direct_machine D.means es) s (run_to (direct_machine D.means es) s n) }
    ensures only { (es : List Event) (s : Directed) (made : List (Made Kind)) (t : Directed) → Leads (direct_machine D.means es) made s t → run_to (direct_machine D.means es) s (length made) ≡ On made t }
{}

/// A run's moves are counted by its state, and its cost follows from the counts: a direct service costs
/// one step besides its bodies.
pub fn a_run_costs_its_moves<D: Device>()
    ensures bodies { (es : List Event) (s t : Directed) (made : List (Made Kind)) → Leads (direct_machine D.means es) made s t → t.chained.bodies + begins_in made ≡ s.chained.bodies + (counts (as_moves made)).bodies }
    ensures services { (es : List Event) (s t : Directed) (made : List (Made Kind)) → Leads (direct_machine D.means es) made s t → length t.services ≡ length s.services + (counts (as_moves made)).enters + begins_in made }
    ensures depth { (es : List Event) (s t : Directed) (made : List (Made Kind)) → Leads (direct_machine D.means es) made s t → length t.chained.live + (counts (as_moves made)).leaves ≡ length s.chained.live + (counts (as_moves made)).enters }
    ensures returning { (es : List Event) (s t : Directed) (made : List (Made Kind)) → Leads (direct_machine D.means es) made s t → cost (direct_machine D.means es) Returning made + s.chained.bodies ≡ t.chained.bodies + 14 * (counts (as_moves made)).enters + 16 * (counts (as_moves made)).leaves + begins_in made }
    ensures looping { (es : List Event) (s t : Directed) (made : List (Made Kind)) → Leads (direct_machine D.means es) made s t → direct_move D.means es t ≡ Ends → cost (direct_machine D.means es) Looping made + 23 * (counts (as_moves made)).pairs ≡ cost (direct_machine D.means es) Returning made }
{}

/// A run with a bound ends in one way, and only in that way.
pub fn a_run_ends_so<D: Device>()
    ensures is { (es : List Event) (d : Dispatcher) (bound : ℕ) (s : Directed) → EndsAs (direct_machine D.means es) d bound s (end_at (direct_machine D.means es) d bound s).end }
    ensures only { (es : List Event) (d : Dispatcher) (bound : ℕ) (s : Directed) (end : ChainEnd) → EndsAs (direct_machine D.means es) d bound s end → (end_at (direct_machine D.means es) d bound s).end ≡ end }
{}

/// The services within a bound are those after the last moves that the bound reaches to.
pub fn services_are_listed<D: Device>()
    ensures { (es : List Event) (d : Dispatcher) (bound : ℕ) (s : Directed) → IsListed (direct_machine D.means es) d bound s (services_within (direct_machine D.means es) d bound s) }
{}

/// With direct services no move is refused since its top is hardware-vectored, and no chain ends so.
pub fn no_end_is_hard_vectored<D: Device>()
    ensures breaks { (es : List Event) (s : Directed) (when : When) (n : ℕ) → direct_move D.means es s ≡ Breaks when HardVectored n → ⊥ }
    ensures end { NeverHardVectored D.means }
{}

/// Where a chain without direct services doesn't end at a hardware-vectored top, it ends with them as it
/// does without, and writes the same.
pub fn soft_chains_stay<D: Device>()
    ensures end { (es : List Event) (d : Dispatcher) (bound : ℕ) (b : State) → ((n : ℕ) → (chain_end D.means es d bound b).end ≡ BrokenOff HardVectored n → ⊥) → direct_end D.means es d bound b ≡ chain_end D.means es d bound b }
    ensures text { (es : List Event) (d : Dispatcher) (trace : Bool) (bound : ℕ) (b : State) → Starts D.means es d b → ((n : ℕ) → (chain_end D.means es d bound b).end ≡ BrokenOff HardVectored n → ⊥) → direct_text D.means es d trace bound b ≡ chain_text D.means es d trace bound b }
{}

/// Where a chain is done under either dispatcher, on boards that differ in the slot's bytes alone and
/// with one list of events, the moves, the services that are read off both boards' runs, the bodies and the
/// machine's state at the end are the same, and both boards are the same but for dispatch code, dead bytes
/// and what the last trap saved. Going back costs 23 steps more for each Enter straight after a Leave.
pub fn both_dispatchers_agree<D: Device>()
    ensures { (es : List Event) (one other : ℕ) (b : State) (bytes : List ℕ) (steps bodies services more also listed : ℕ) → length bytes ≡ slot_end - base → Starts D.means es Looping b → Starts D.means es Returning (with_slot_bytes bytes b)
        → (direct_end D.means es Looping one b).end ≡ Done steps bodies services → (direct_end D.means es Returning other (with_slot_bytes bytes b)).end ≡ Done more also listed
        → BothDirectAgree D.means es b (with_slot_bytes bytes b) one other steps more bodies also services listed }
{}

/// A chain with direct services that is broken under both dispatchers, on boards that differ in the
/// slot's bytes alone and with one list of events, is broken by the same test, after as many bodies.
pub fn a_chain_is_broken_alike<D: Device>()
    ensures { (es : List Event) (d e : Dispatcher) (one other : ℕ) (b : State) (bytes : List ℕ) (kind also : Broken) (bodies more : ℕ) → slot_end ≤ length b.memory.rom → length bytes ≡ slot_end - base
        → (direct_end D.means es d one b).end ≡ BrokenOff kind bodies → (direct_end D.means es e other (with_slot_bytes bytes b)).end ≡ BrokenOff also more → (kind ≡ also) × (bodies ≡ more) }
{}

/// Where an Enter of a hardware-vectored top would be due and the table's word may be used, the board
/// beside the machine takes the input in one step, with its saved pc, cause and level, and stands beside
/// the machine in which its service is live. Where the word may not be used, the table is broken.
pub fn a_direct_service_begins_in_one_step<D: Device>()
    ensures step { (d : Dispatcher) (s : Directed) (x : Rest) (t : Choice) → Related D.means d s.chained x → D.means.halted s.chained.outside.device ≡ None → top s.chained.outside.clic ≡ Some t → is_enter_due s.chained (Some t) ≡ true → t.shv ≡ true → first_broken (begin_tests s.chained.dead (table_address s.chained.table t.id)) ≡ None
        → step D.means (board_of s.chained x) ≡ record { told = Interrupted s.chained.pc t.id; state = direct_board_of (vectored s t).chained (new_direct s t) x } }
    ensures beside { (es : List Event) (d : Dispatcher) (s : Directed) (x : Rest) (t : Choice) → s.direct ≡ None → D.means.halted s.chained.outside.device ≡ None → top s.chained.outside.clic ≡ Some t → is_enter_due s.chained (Some t) ≡ true → t.shv ≡ true → Related D.means d s.chained x → first_broken (begin_tests s.chained.dead (table_address s.chained.table t.id)) ≡ None
        → BeginsSo D.means es d s x t }
    ensures breaks { (es : List Event) (s : Directed) (t : Choice) (kind : Broken) → s.direct ≡ None → D.means.halted s.chained.outside.device ≡ None → top s.chained.outside.clic ≡ Some t → is_enter_due s.chained (Some t) ≡ true → t.shv ≡ true → first_broken (begin_tests s.chained.dead (table_address s.chained.table t.id)) ≡ Some kind
        → direct_move D.means es s ≡ Breaks Before BadTable s.chained.bodies }
{}

/// While a direct service is live, its tests on the board beside the machine, and a step that is tried,
/// say what becomes of its next instruction: a test refuses it, or it raises and the board stays, or it
/// is made, or it is MRET, which loses a register or takes the board back beside the chained services.
pub fn a_direct_body_is_one_step<D: Device>()
    ensures { (es : List Event) (d : Dispatcher) (s : Directed) (v : Direct) (x : Rest) (from : ℕ) → AreEventsFrom s.chained.outside.clic.shape.inputs from es → DirectRelated D.means d s.chained v x → D.means.halted s.chained.outside.device ≡ None
        → DirectBodyMeans D.means es d s v x (judge_direct_body (direct_board_of s.chained v x) (watched_of s.chained)) }
{}

/// MRET takes the board back in one step to one beside the machine at the pc that the service
/// suspended, where it began from a board that took interrupts.
pub fn a_direct_service_returns_in_one_step<D: Device>()
    ensures { (s : Servicing) (v : Direct) (x : Rest) (w : ℕ) → D.means.halted s.outside.device ≡ None → s.was ≡ true → takes_interrupts (marks s.live) s.on ≡ true → fetched (direct_board_of s v x).memory s.pc ≡ Bits w 4 → spelled w ≡ Some Mret
        → step D.means (direct_board_of s v x) ≡ record { told = Retired s.pc w 4; state = board_of (record s { pc = v.pc }) (rest_returned s v x) } }
{}

/// A small program: input 2 is taken, and the hardware-vectored input 3 while its handler runs. That is
/// an Enter, three bodies, the direct service with its MRET, three bodies and a Leave. A direct service
/// that changes t0 or ra loses a register; its table's word may neither be in the slot nor dead; a board
/// may not halt in it, an instruction that raises breaks it, and no input that waits is taken in it.
pub fn a_small_program_runs_so()
    ensures nested { direct_shown (after_moves (direct_machine nothing events) (starting 0xFC) 10) ≡ record { pc = 0xD0; sp = 0x2000_0200; t0 = 7; scratch = 0x2000_0080; bodies = 7; live = []; direct = None; services = record { direct = false; service = record { number = 2; level = 127; depth = 1 } } ∷ record { direct = true; service = record { number = 3; level = 255; depth = 2 } } ∷ [] } }
    ensures lost { end_at (direct_machine nothing events) Looping 20 (starting 0x100) ≡ record { end = BrokenOff RegisterLost 5; steps = 20 } }
    ensures lost_ra { end_at (direct_machine nothing events) Returning 20 (starting 0x108) ≡ record { end = BrokenOff RegisterLost 5; steps = 20 } }
    ensures beyond { end_at (direct_machine nothing events) Looping 19 (starting 0x100) ≡ record { end = BudgetSpent; steps = 19 } }
    ensures hidden { direct_move nothing [] hidden_table ≡ Breaks Before BadTable 0 }
    ensures dead { direct_move nothing [] dead_table ≡ Breaks Before BadTable 0 }
    ensures halts { direct_move halted [] in_direct ≡ Breaks Before HaltInHandler 0 }
    ensures raises { direct_move nothing [] in_direct ≡ Breaks Within (Exception 11) 0 }
{}
