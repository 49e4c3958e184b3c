// The command.
ghost use Rattle.std.specs.Prelude.{◌≡◌, ℕ, ◌<◌, ◌⊎◌, true, [], None, Some, IfSome};
ghost use Rattle.board_outside.specs.Counts.{Rose};
ghost use Rattle.board_outside.specs.Sink.{Writes};
ghost use Rattle.hart_board.specs.declared.run_end.RunEnd.TheVariants.{Halted, BudgetSpent, VectorFault};
ghost use Rattle.tool_frame.specs.Plan.{due_of, outcome_of, HoldsAll};
ghost use Rattle.tool_frame.specs.Answers.{FollowsWith, Leaves, IsCalm, HasDone, IsReady, Succeeds};
ghost use Rattle.tool_frame.specs.Causes.{NoneRose, AtFile, IsAbsentFile, IsFailedFile, IsRefusedFile, StopsShort};
ghost use Rattle.chain_core.specs.declared.chain_end.ChainEnd.TheVariants as ends;
ghost use Rattle.chain_moves.specs.declared.broken.Broken.{Broken as BrokenBy};
ghost use Rattle.tool_work.specs.Bench.{empty_bench};
ghost use Rattle.tool_words.specs.Run.{RunWords};
ghost use Rattle.tool_words.specs.Chain.{ChainWords};
ghost use Rattle.tool_words.specs.Monitor.{MonitorWords};
ghost use Rattle.tool_words.specs.Gen.{GenWords};
ghost use Rattle.tool_words.specs.Lint.{LintWords};
ghost use Rattle.tool_words.specs.Bound.{BoundWords};
ghost use Rattle.tool_words.specs.Order.{Runs, Chains, Monitors, Gens, Lints, Bounds, order_of, view};
ghost use Rattle.clic_tool.specs.Usage.{Misuses};
ghost use Rattle.clic_tool.specs.Plan.{plan_of};
ghost use Rattle.clic_tool.specs.RunCauses.{RanTo};
ghost use Rattle.tool_work.specs.Served.{IsServedTo};
ghost use Rattle.tool_work.specs.Gen.{AreServed};
ghost use Rattle.tool_frame.specs.Code.{OfCommand, origin_of};
ghost use Rattle.clic_tool.specs.ChainCauses.{ChainedTo};
ghost use Rattle.clic_tool.specs.GenCauses.{GeneratedTo, AreDone};
ghost use Rattle.clic_tool.specs.MonitorCauses.{WantsInScript};
ghost use Rattle.clic_tool.specs.LintCauses.{LintedTo, BoundTo, IsYes, IsNo, IsBounded, IsRefused};

use crate::usage::end_usage;
use board_outside::{Shelf, Sink, Words};
use std::alloc::Global;
use tool_frame::{Status, status_in};
use tool_words::{Order, read_order};
use tool_work::{
    Bench, assemble_file, bound_file, chain_files, disassemble_file, generate, lint_file, mem_file,
    monitor_files, run_files, unmem_file,
};

// Does what was asked for.
fn follow<F: Shelf, W: Sink>(
    alloc: Global,
    order: &Order<'_>,
    shelf: &mut F,
    bench: &mut Bench,
    out: &mut W,
) -> Status
    requires empty { bench.old ≡ empty_bench }
    ensures served { (chain : ChainWords) → view order.now ≡ Chains chain → IsServedTo chain result (F.told shelf.old) (F.told shelf.new) }
    ensures served_generated { (gen : GenWords) → view order.now ≡ Gens gen → origin_of result ≡ OfCommand → AreServed gen.number_is }
    ensures follows { FollowsWith empty_bench result (plan_of (Some (view order.now))) (F.told shelf.old) (F.told shelf.new) (W.told out.old) (W.told out.new) bench.new }
{
    match order {
        Order::Run(run) => status_in(run_files(alloc, run, shelf, out)),
        Order::Chain(chain) => status_in(chain_files(alloc, chain, shelf, bench, out)),
        Order::Monitor(script) => status_in(monitor_files(alloc, script, shelf, out)),
        Order::Gen(numbered) => generate(alloc, numbered, bench, out),
        Order::Assemble(assembly) => status_in(assemble_file(alloc, assembly, shelf, out)),
        Order::Disassemble(disassembly) => {
            status_in(disassemble_file(alloc, disassembly, shelf, out))
        }
        Order::Mem(mem) => status_in(mem_file(alloc, mem, shelf, out)),
        Order::Unmem(unmem) => status_in(unmem_file(alloc, unmem, shelf, out)),
        Order::Lint(lint) => status_in(lint_file(alloc, lint, shelf, out)),
        Order::Bound(bound) => status_in(bound_file(alloc, bound, shelf, out)),
    }
}

// Does what the words say.
fn answer<F: Shelf, W: Sink>(
    alloc: Global,
    words: &Words,
    shelf: &mut F,
    bench: &mut Bench,
    out: &mut W,
) -> Status
    requires empty { bench.old ≡ empty_bench }
    ensures served { (chain : ChainWords) → order_of words.now ≡ Some (Chains chain) → IsServedTo chain result (F.told shelf.old) (F.told shelf.new) }
    ensures served_generated { (gen : GenWords) → order_of words.now ≡ Some (Gens gen) → origin_of result ≡ OfCommand → AreServed gen.number_is }
    ensures follows { FollowsWith empty_bench result (plan_of (order_of words.now)) (F.told shelf.old) (F.told shelf.new) (W.told out.old) (W.told out.new) bench.new }
{
    match read_order(alloc, words) {
        Ok(Some(order)) => follow(alloc, &order, shelf, bench, out),
        Ok(None) => end_usage(out),
        Err(_) => Status::Memory,
    }
}

/// Does what the words say, and answers how it ended. The words are those after the program's name. What the
/// bench held before is dropped.
pub fn clic_main<F: Shelf, W: Sink>(
    alloc: Global,
    words: &Words,
    shelf: &mut F,
    bench: &mut Bench,
    out: &mut W,
) -> Status
    // Words that are no command.
    ensures usage { order_of words.now ≡ None → Misuses result (F.told shelf.old) (F.told shelf.new) (W.told out.old) (W.told out.new) }
    // Any words: what the command does with its files, by what the shelf gave, with every cause, and the boards that
    // it leaves.
    ensures command { FollowsWith empty_bench result (plan_of (order_of words.now)) (F.told shelf.old) (F.told shelf.new) (W.told out.old) (W.told out.new) bench.new }
    // A chain that was made had the services of the servicing machine, which knows no dispatcher, and where it was done
    // the board agrees with that machine in all but dispatch code, dead bytes and what the last trap saved. Where the
    // chains of its files are done under both dispatchers, chaining handlers without going back between them changed
    // nothing else, and saved 23 steps for each handler that began straight after another. So it is of both chains of
    // `gen`.
    ensures served { (chain : ChainWords) → order_of words.now ≡ Some (Chains chain) → IsServedTo chain result (F.told shelf.old) (F.told shelf.new) }
    ensures served_generated { (gen : GenWords) → order_of words.now ≡ Some (Gens gen) → origin_of result ≡ OfCommand → AreServed gen.number_is }
    // Where no fault was counted, it is what the files give that the shelf holds, unless memory was wanting.
    ensures due { IsCalm (F.told shelf.old).faults (F.told shelf.new).faults → IsCalm (W.told out.old).faults (W.told out.new).faults
        → IfSome (F.told shelf.old).files (λ files. HasDone result (W.told out.old).written (W.told out.new).written (due_of (plan_of (order_of words.now)) files)) }
    // The boards that a caller may look at are then those of the files that the shelf holds, where their chains ended:
    // with the status that is due, and with none else.
    ensures boards { IsCalm (F.told shelf.old).faults (F.told shelf.new).faults
        → IfSome (F.told shelf.old).files (λ files. Leaves empty_bench result (outcome_of (plan_of (order_of words.now)) files) bench.new) }
    // What is due by the files of a steady shelf, and fits the sink's room, is written whole, unless memory was wanting.
    ensures complete { (ready : IsReady (plan_of (order_of words.now)) (F.told shelf.old) (W.told out.old))
        → Succeeds (plan_of (order_of words.now)) (F.told shelf.old) (W.told out.old) (W.told out.new) ready result }

    // Where the shelf holds all files that are asked for besides, no count rises.
    ensures complete_counts { (ready : IsReady (plan_of (order_of words.now)) (F.told shelf.old) (W.told out.old))
        → HoldsAll (plan_of (order_of words.now)) ready.files → NoneRose (F.told shelf.old) (F.told shelf.new) (W.told out.old) (W.told out.new) }

    // Each status comes only for its cause. Memory is free, and then nothing is written, but in a script some of its
    // commands' texts.
    ensures status_done { result ≡ Status.Done → NoneRose (F.told shelf.old) (F.told shelf.new) (W.told out.old) (W.told out.new) }
    ensures status_done_halted { (run : RunWords) → order_of words.now ≡ Some (Runs run) → result ≡ Status.Done → RanTo (λ end. (code : ℕ) × (steps : ℕ) × (end ≡ Halted code steps)) (order_of words.now) (F.told shelf.old) (F.told shelf.new) }
    ensures status_done_chained { (chain : ChainWords) → order_of words.now ≡ Some (Chains chain) → result ≡ Status.Done → ChainedTo (λ end. (steps : ℕ) × (bodies : ℕ) × (services : ℕ) × (end ≡ ends.Done steps bodies services)) (order_of words.now) (F.told shelf.old) (F.told shelf.new) }
    ensures status_done_generated { (gen : GenWords) → order_of words.now ≡ Some (Gens gen) → result ≡ Status.Done → AreDone gen.number_is }
    ensures status_done_linted { (handler : LintWords) → order_of words.now ≡ Some (Lints handler) → result ≡ Status.Done → LintedTo IsYes (order_of words.now) (F.told shelf.old) (F.told shelf.new) }
    ensures status_done_bounded { (table : BoundWords) → order_of words.now ≡ Some (Bounds table) → result ≡ Status.Done → BoundTo IsBounded (order_of words.now) (F.told shelf.old) (F.told shelf.new) }
    ensures status_budget_spent { result ≡ Status.BudgetSpent
        → RanTo (λ end. end ≡ BudgetSpent) (order_of words.now) (F.told shelf.old) (F.told shelf.new)
        ⊎ (ChainedTo (λ end. end ≡ ends.BudgetSpent) (order_of words.now) (F.told shelf.old) (F.told shelf.new)
        ⊎ GeneratedTo (λ end. end ≡ ends.BudgetSpent) (order_of words.now)) }
    ensures status_broken { result ≡ Status.Broken
        → ChainedTo (λ end. (kind : BrokenBy) × (bodies : ℕ) × (end ≡ ends.Broken kind bodies)) (order_of words.now) (F.told shelf.old) (F.told shelf.new)
        ⊎ GeneratedTo (λ end. (kind : BrokenBy) × (bodies : ℕ) × (end ≡ ends.Broken kind bodies)) (order_of words.now) }
    ensures status_usage { result ≡ Status.Usage → order_of words.now ≡ None }
    ensures status_absent { result ≡ Status.Absent → AtFile (IsAbsentFile (W.told out.old) (W.told out.new)) (plan_of (order_of words.now)) (F.told shelf.old) (F.told shelf.new) }
    ensures status_shelf_failed { result ≡ Status.ShelfFailed → AtFile (IsFailedFile (W.told out.old) (W.told out.new)) (plan_of (order_of words.now)) (F.told shelf.old) (F.told shelf.new) }
    ensures status_refused { result ≡ Status.Refused → AtFile (IsRefusedFile (W.told out.old) (W.told out.new)) (plan_of (order_of words.now)) (F.told shelf.old) (F.told shelf.new) }
    ensures status_sink_failed { result ≡ Status.SinkFailed → Rose (W.told out.old).faults (W.told out.new).faults }
    ensures status_memory { ((script : MonitorWords) → order_of words.now ≡ Some (Monitors script) → ⊥) → result ≡ Status.Memory → Writes true (W.told out.old) (W.told out.new) [] }
    ensures status_memory_in_script { (script : MonitorWords) → order_of words.now ≡ Some (Monitors script) → result ≡ Status.Memory → WantsInScript script (F.told shelf.old) (F.told shelf.new) (W.told out.old) (W.told out.new) }
    ensures status_rejected { result ≡ Status.Rejected
        → LintedTo IsNo (order_of words.now) (F.told shelf.old) (F.told shelf.new)
        ⊎ BoundTo IsRefused (order_of words.now) (F.told shelf.old) (F.told shelf.new) }
    ensures status_vector_fault { result ≡ Status.VectorFault → RanTo (λ end. (id : ℕ) × (steps : ℕ) × (end ≡ VectorFault id steps)) (order_of words.now) (F.told shelf.old) (F.told shelf.new) }

    // Faults of the outside decide the status, those of the sink first. Where they rose, a front of the text due was
    // written, or of the line of a file that couldn't be read.
    ensures sink_faults_rose { (W.told out.old).faults < (W.told out.new).faults
        → StopsShort (plan_of (order_of words.now)) result (F.told shelf.old) (F.told shelf.new) (W.told out.old) (W.told out.new) }
    ensures shelf_faults_rose { IsCalm (W.told out.old).faults (W.told out.new).faults
        → (F.told shelf.old).faults < (F.told shelf.new).faults → result ≡ Status.ShelfFailed }
    ensures absences_rose { IsCalm (W.told out.old).faults (W.told out.new).faults
        → (F.told shelf.old).absences < (F.told shelf.new).absences → result ≡ Status.Absent }
{
    *bench = Bench::new();
    answer(alloc, words, shelf, bench, out)
}
