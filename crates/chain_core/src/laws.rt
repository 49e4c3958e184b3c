// What holds of the servicing machine, for every device and all events.
ghost use Rattle.std.specs.Prelude.{◌≡◌, ℕ, ◌+◌, ◌-◌, ◌*◌, ◌^◌, ◌<◌, ◌≤◌, false, List, [], ◌∷◌, length};
ghost use Rattle.hart_words.specs.Registers.{register};
ghost use Rattle.hart_board.specs.State.{State};
ghost use Rattle.hart_board.specs.Valid.{IsBoard};
ghost use Rattle.hart_board.specs.Event.{AreEventsFrom};
ghost use Rattle.hart_board.specs.declared.event.Event.{Event};
ghost use Rattle.clic_select.specs.declared.choice.Choice.{Choice};
ghost use Rattle.chain_moves.specs.Slot.{base, slot_end};
ghost use Rattle.chain_moves.specs.Servicing.{Servicing, marks, innermost_level};
ghost use Rattle.chain_moves.specs.Machine.{Before, Within, Makes, Breaks, Ends};
ghost use Rattle.chain_moves.specs.Run.{Made, On, run_to, after_moves, Leads, IsRun};
ghost use Rattle.chain_moves.specs.Cost.{cost};
ghost use Rattle.chain_core.specs.Counts.{counts};
ghost use Rattle.chain_core.specs.End.{end_at, EndsAs, services_within, IsListed};
ghost use Rattle.chain_moves.specs.Enter.{entered};
ghost use Rattle.chain_moves.specs.Leave.{left_by};
ghost use Rattle.chain_moves.specs.Ranges.{IsInRange};
ghost use Rattle.chain_moves.specs.Moves.{move, servicing_machine};
ghost use Rattle.chain_moves.specs.Kinds.{IsMove, LeavesAlone, GivesBack};
ghost use Rattle.chain_moves.specs.Nesting.{AreRising, AreApart};
ghost use Rattle.chain_moves.specs.Start.{with_slot, begun};
ghost use Rattle.chain_core.specs.ChainRun.{read_to};
ghost use Rattle.chain_core.specs.Text.{service_lines, added_to};
ghost use Rattle.chain_core.specs.Chain.{chain_end};
ghost use Rattle.chain_core.specs.Both.{with_slot_bytes, Starts, BothAgree};
ghost use Rattle.chain_core.specs.Example.{nothing, halted, start, at_ecall, in_handler, events, shown};
ghost use Rattle.chain_moves.specs.declared.broken.Broken.{Broken};
ghost use Rattle.chain_moves.specs.declared.broken.Broken.TheVariants.{HaltInHandler, Exception};
ghost use Rattle.chain_moves.specs.declared.moves.Move.{Move};
ghost use Rattle.chain_moves.specs.declared.dispatcher.Dispatcher.{Dispatcher};
ghost use Rattle.chain_moves.specs.declared.dispatcher.Dispatcher.TheVariants.{Looping, Returning};
ghost use Rattle.chain_core.specs.declared.chain_end.ChainEnd.{ChainEnd};
ghost use Rattle.chain_core.specs.declared.chain_end.ChainEnd.TheVariants.{Done, Broken as BrokenOff};

use device_model::Device;

/// What is made is one of the three moves, and what is one of them is made; none is two of them.
pub fn a_move_is_one_of_three<D: Device>()
    ensures is { (es : List Event) (s : Servicing) (kind : Move) (t : Servicing) → move D.means es s ≡ Makes kind t → IsMove D.means es s kind t }
    ensures only { (es : List Event) (s : Servicing) (kind : Move) (t : Servicing) → IsMove D.means es s kind t → move D.means es s ≡ Makes kind t }
    ensures alone { (es : List Event) (s : Servicing) (one other : Move) (t u : Servicing) → IsMove D.means es s one t → IsMove D.means es s other u → one ≡ other }
{}

/// The first moves of a run are a list of moves, and every list of moves is a run.
pub fn a_run_is_a_list_of_moves<D: Device>()
    ensures is { (es : List Event) (s : Servicing) (n : ℕ) → IsRun (servicing_machine D.means es) s (run_to (servicing_machine D.means es) s n) }
    ensures only { (es : List Event) (s : Servicing) (made : List (Made Move)) (t : Servicing) → Leads (servicing_machine D.means es) made s t → run_to (servicing_machine D.means es) s (length made) ≡ On made t }
{}

/// What a move leaves as it was.
pub fn moves_leave_the_rest<D: Device>()
    ensures { (es : List Event) (s : Servicing) (kind : Move) (t : Servicing) → IsMove D.means es s kind t → LeavesAlone kind s t }
{}

/// Where a service ends as it begins, all comes back but the pending bit of its input, that
/// interrupts were on before, and that the bytes of its frame are dead.
pub fn an_empty_service_gives_back()
    ensures { (s : Servicing) (choice : Choice) → length s.registers ≡ 32 → register s.registers 2 < 2 ^ 32 → s.scratch < 2 ^ 32 → GivesBack s (left_by (entered s choice) (entered s choice).live) }
{}

/// Levels strictly rise with the depth, so that the depth is at most the innermost level; and live
/// frames have no byte in common.
pub fn services_nest<D: Device>()
    ensures rising { (es : List Event) (s t : Servicing) (n : ℕ) (made : List (Made Move)) → s.live ≡ [] → run_to (servicing_machine D.means es) s n ≡ On made t → AreRising (marks t.live) }
    ensures depth { (es : List Event) (s t : Servicing) (n : ℕ) (made : List (Made Move)) → s.live ≡ [] → run_to (servicing_machine D.means es) s n ≡ On made t → length t.live ≤ innermost_level (marks t.live) }
    ensures apart { (es : List Event) (s t : Servicing) (n : ℕ) (made : List (Made Move)) → s.live ≡ [] → run_to (servicing_machine D.means es) s n ≡ On made t → AreApart (marks t.live) }
{}

/// Boards that differ in the slot alone start alike, so that all their moves are the same.
pub fn the_slot_is_not_read<D: Device>()
    ensures { (es : List Event) (b : State) (bytes : List ℕ) → slot_end ≤ length b.memory.rom → length bytes ≡ slot_end - base → begun D.means es (record b { memory = record b.memory { rom = with_slot bytes b.memory.rom } }) ≡ begun D.means es b }
{}

/// A run's moves are counted by its state, and its cost follows from the counts.
pub fn a_run_costs_its_moves<D: Device>()
    ensures bodies { (es : List Event) (s t : Servicing) (made : List (Made Move)) → Leads (servicing_machine D.means es) made s t → t.bodies ≡ s.bodies + (counts made).bodies }
    ensures services { (es : List Event) (s t : Servicing) (made : List (Made Move)) → Leads (servicing_machine D.means es) made s t → length t.services ≡ length s.services + (counts made).enters }
    ensures depth { (es : List Event) (s t : Servicing) (made : List (Made Move)) → Leads (servicing_machine D.means es) made s t → length t.live + (counts made).leaves ≡ length s.live + (counts made).enters }
    ensures returning { (es : List Event) (s t : Servicing) (made : List (Made Move)) → Leads (servicing_machine D.means es) made s t → cost (servicing_machine D.means es) Returning made ≡ (counts made).bodies + 14 * (counts made).enters + 16 * (counts made).leaves }
    ensures looping { (es : List Event) (s t : Servicing) (made : List (Made Move)) → Leads (servicing_machine D.means es) made s t → move D.means es t ≡ Ends → cost (servicing_machine D.means es) Looping made + 23 * (counts made).pairs ≡ cost (servicing_machine D.means es) Returning made }
{}

/// A run with a bound ends in one way, and only in that way.
pub fn a_run_ends_so<D: Device>()
    ensures is { (es : List Event) (d : Dispatcher) (bound : ℕ) (s : Servicing) → EndsAs (servicing_machine D.means es) d bound s (end_at (servicing_machine D.means es) d bound s).end }
    ensures only { (es : List Event) (d : Dispatcher) (bound : ℕ) (s : Servicing) (end : ChainEnd) → EndsAs (servicing_machine D.means es) d bound s end → (end_at (servicing_machine D.means es) d bound s).end ≡ end }
{}

/// The services within a bound are those after the last moves that the bound reaches to.
pub fn services_are_listed<D: Device>()
    ensures { (es : List Event) (d : Dispatcher) (bound : ℕ) (s : Servicing) → IsListed (servicing_machine D.means es) d bound s (services_within (servicing_machine D.means es) d bound s) }
{}

/// Without a trace, the lines of a chain before its report are those of the services that are read off
/// the board's steps, in their order.
pub fn lines_are_of_listed_services<D: Device>()
    ensures { (es : List Event) (b : State) (n : ℕ) → added_to D.means es false b n ≡ service_lines (read_to D.means es b n).services }
{}

/// Where a board is valid, so is the hart of the machine that starts from it, and it stays so along a
/// run.
pub fn numbers_stay_in_range<D: Device>()
    ensures start { (es : List Event) (from : ℕ) (b : State) → AreEventsFrom b.outside.clic.shape.inputs from es → IsBoard D.means b → IsInRange D.means (begun D.means es b) }
    ensures run { (es : List Event) (from : ℕ) (s t : Servicing) (n : ℕ) (made : List (Made Move)) → AreEventsFrom s.outside.clic.shape.inputs from es → IsInRange D.means s → run_to (servicing_machine D.means es) s n ≡ On made t → IsInRange D.means t }
{}

/// At most 255 services are live.
pub fn the_depth_is_at_most_255<D: Device>()
    ensures { (es : List Event) (from : ℕ) (s t : Servicing) (n : ℕ) (made : List (Made Move)) → AreEventsFrom s.outside.clic.shape.inputs from es → IsInRange D.means s → s.live ≡ [] → run_to (servicing_machine D.means es) s n ≡ On made t → length t.live ≤ 255 }
{}

/// A small program: input 2 is taken, and input 3 while its handler runs. That is an Enter, three
/// bodies, an Enter, six bodies, a Leave, three bodies and a Leave. A board that halts in a handler
/// breaks the convention, and so does an instruction that raises.
pub fn a_small_program_runs_so()
    ensures nested { shown (after_moves (servicing_machine nothing events) start 16) ≡ record { pc = 0xD0; sp = 0x2000_0200; t0 = 7; a0 = 11; scratch = 0x2000_0080; bodies = 12; live = []; services = record { number = 2; level = 127; depth = 1 } ∷ record { number = 3; level = 255; depth = 2 } ∷ [] } }
    ensures halts { move halted [] in_handler ≡ Breaks Before HaltInHandler 0 }
    ensures raises { move nothing [] at_ecall ≡ Breaks Within (Exception 11) 0 }
{}

/// Where a chain is done under either dispatcher, on boards that differ in the slot's bytes alone and
/// with one list of events, the services are the same, and so are the bodies, the registers, pc, mstatus
/// and every byte outside the slot and the dead bytes. Going back between the services costs 23 steps
/// more for each that begins straight after another.
pub fn both_dispatchers_agree<D: Device>()
    ensures { (es : List Event) (one other : ℕ) (b : State) (bytes : List ℕ) (steps bodies services at more also listed then : ℕ) → length bytes ≡ slot_end - base → Starts D.means es Looping b → Starts D.means es Returning (with_slot_bytes bytes b)
        → chain_end D.means es Looping one b ≡ record { end = Done steps bodies services; steps = at } → chain_end D.means es Returning other (with_slot_bytes bytes b) ≡ record { end = Done more also listed; steps = then }
        → BothAgree D.means es b (with_slot_bytes bytes b) one other steps more bodies also services listed }
{}

/// A chain that is broken under both dispatchers, on boards that differ in the slot's bytes alone and
/// with one list of events, is broken by the same test, after as many bodies.
pub fn a_chain_is_broken_alike<D: Device>()
    ensures { (es : List Event) (d e : Dispatcher) (one other : ℕ) (b : State) (bytes : List ℕ) (kind also : Broken) (bodies more : ℕ) → slot_end ≤ length b.memory.rom → length bytes ≡ slot_end - base
        → (chain_end D.means es d one b).end ≡ BrokenOff kind bodies → (chain_end D.means es e other (with_slot_bytes bytes b)).end ≡ BrokenOff also more → (kind ≡ also) × (bodies ≡ more) }
{}
