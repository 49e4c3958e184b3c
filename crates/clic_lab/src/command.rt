// The command.
ghost use Rattle.std.specs.Prelude.{◌≡◌, ◌<◌, ◌⊎◌, true, [], None, Some, IfSome};
ghost use Rattle.board_outside.specs.Counts.{Rose};
ghost use Rattle.board_outside.specs.Sink.{Writes};
ghost use Rattle.tool_frame.specs.Plan.{due_of, HoldsAll};
ghost use Rattle.tool_frame.specs.Answers.{Follows, IsCalm, HasDone, IsReady, Succeeds};
ghost use Rattle.tool_frame.specs.Causes.{NoneRose, AtFile, IsAbsentFile, IsFailedFile, IsRefusedFile, StopsShort};
ghost use Rattle.lab_words.specs.Sweep.{SweepWords};
ghost use Rattle.lab_words.specs.Trace.{TraceWords};
ghost use Rattle.lab_words.specs.Order.{Sweeps, Traces, order_of, view};
ghost use Rattle.lab_work.specs.Sweep.{IsBroken, IsSpent, AreWhole};
ghost use Rattle.lab_work.specs.Trace.{IsPlain};
ghost use Rattle.clic_lab.specs.Usage.{Misuses};
ghost use Rattle.clic_lab.specs.Plan.{plan_of};
ghost use Rattle.clic_lab.specs.SweepCauses.{SweptTo};
ghost use Rattle.clic_lab.specs.TraceCauses.{IsOver, IsAtBound, IsBrokenOff, HasNoVector, TracedTo};

use crate::usage::end_usage;
use board_outside::{Shelf, Sink, Words};
use lab_sweep::Progress;
use lab_words::{Order, read_order};
use lab_work::{image_of_file, names_of_file, sweep_files, trace_files};
use std::alloc::Global;
use tool_frame::{Status, status_in};

// Does what was asked for.
fn follow<F: Shelf, W: Sink, P: Progress>(
    alloc: Global,
    order: &Order<'_>,
    shelf: &mut F,
    out: &mut W,
    progress: &mut P,
) -> Status
    requires parts { (sweep : SweepWords) → view order.now ≡ Sweeps sweep → 0 < sweep.part_is.parts }
    ensures { Follows tt result (plan_of (Some (view order.now))) (F.told shelf.old) (F.told shelf.new) (W.told out.old) (W.told out.new) }
{
    match order {
        Order::Elf(elf) => status_in(image_of_file(alloc, elf, shelf, out)),
        Order::Names(names) => status_in(names_of_file(alloc, names, shelf, out)),
        Order::Trace(trace) => status_in(trace_files(alloc, trace, shelf, out)),
        Order::Sweep(sweep) => status_in(sweep_files(alloc, sweep, shelf, out, progress)),
    }
}

// Does what the words say.
fn answer<F: Shelf, W: Sink, P: Progress>(
    alloc: Global,
    words: &Words,
    shelf: &mut F,
    out: &mut W,
    progress: &mut P,
) -> Status
    ensures { Follows tt result (plan_of (order_of words.now)) (F.told shelf.old) (F.told shelf.new) (W.told out.old) (W.told out.new) }
{
    match read_order(alloc, words) {
        Ok(Some(order)) => follow(alloc, &order, shelf, out, progress),
        Ok(None) => end_usage(out),
        Err(_) => Status::Memory,
    }
}

/// Does what the words say, and answers how it ended. The words are those after the program's name. Of a
/// sweep it tells how far it has come.
pub fn lab_main<F: Shelf, W: Sink, P: Progress>(
    alloc: Global,
    words: &Words,
    shelf: &mut F,
    out: &mut W,
    progress: &mut P,
) -> Status
    // Words that are no command.
    ensures usage { order_of words.now ≡ None → Misuses result (F.told shelf.old) (F.told shelf.new) (W.told out.old) (W.told out.new) }
    // Any words: what the command does with its files, by what the shelf gave, with every cause.
    ensures command { Follows tt result (plan_of (order_of words.now)) (F.told shelf.old) (F.told shelf.new) (W.told out.old) (W.told out.new) }
    // Where no fault was counted, it is what the files give that the shelf holds, unless memory was wanting.
    ensures due { IsCalm (F.told shelf.old).faults (F.told shelf.new).faults → IsCalm (W.told out.old).faults (W.told out.new).faults
        → IfSome (F.told shelf.old).files (λ files. HasDone result (W.told out.old).written (W.told out.new).written (due_of (plan_of (order_of words.now)) files)) }
    // What is due by the files of a steady shelf, and fits the sink's room, is written whole, unless memory was wanting.
    ensures complete { (ready : IsReady (plan_of (order_of words.now)) (F.told shelf.old) (W.told out.old))
        → Succeeds (plan_of (order_of words.now)) (F.told shelf.old) (W.told out.old) (W.told out.new) ready result }
    // Where the shelf holds all files that are asked for besides, no count rises.
    ensures complete_counts { (ready : IsReady (plan_of (order_of words.now)) (F.told shelf.old) (W.told out.old))
        → HoldsAll (plan_of (order_of words.now)) ready.files → NoneRose (F.told shelf.old) (F.told shelf.new) (W.told out.old) (W.told out.new) }

    // Of a trace, what is left when the names and instructions are taken away is the text of the same run or chain.
    ensures plain { (trace : TraceWords) → order_of words.now ≡ Some (Traces trace) → IsPlain trace }

    // Each status comes only for its cause. Memory is free, and then nothing is written.
    ensures status_done { result ≡ Status.Done → NoneRose (F.told shelf.old) (F.told shelf.new) (W.told out.old) (W.told out.new) }
    ensures status_done_swept { (sweep : SweepWords) → order_of words.now ≡ Some (Sweeps sweep) → result ≡ Status.Done → SweptTo AreWhole (order_of words.now) (F.told shelf.old) (F.told shelf.new) }
    ensures status_done_traced { (trace : TraceWords) → order_of words.now ≡ Some (Traces trace) → result ≡ Status.Done → TracedTo IsOver (order_of words.now) (F.told shelf.old) (F.told shelf.new) }
    ensures status_budget_spent { result ≡ Status.BudgetSpent
        → SweptTo IsSpent (order_of words.now) (F.told shelf.old) (F.told shelf.new)
        ⊎ TracedTo IsAtBound (order_of words.now) (F.told shelf.old) (F.told shelf.new) }
    ensures status_broken { result ≡ Status.Broken
        → SweptTo IsBroken (order_of words.now) (F.told shelf.old) (F.told shelf.new)
        ⊎ TracedTo IsBrokenOff (order_of words.now) (F.told shelf.old) (F.told shelf.new) }
    ensures status_usage { result ≡ Status.Usage → order_of words.now ≡ None }
    ensures status_absent { result ≡ Status.Absent → AtFile (IsAbsentFile (W.told out.old) (W.told out.new)) (plan_of (order_of words.now)) (F.told shelf.old) (F.told shelf.new) }
    ensures status_shelf_failed { result ≡ Status.ShelfFailed → AtFile (IsFailedFile (W.told out.old) (W.told out.new)) (plan_of (order_of words.now)) (F.told shelf.old) (F.told shelf.new) }
    ensures status_refused { result ≡ Status.Refused → AtFile (IsRefusedFile (W.told out.old) (W.told out.new)) (plan_of (order_of words.now)) (F.told shelf.old) (F.told shelf.new) }
    ensures status_sink_failed { result ≡ Status.SinkFailed → Rose (W.told out.old).faults (W.told out.new).faults }
    ensures status_memory { result ≡ Status.Memory → Writes true (W.told out.old) (W.told out.new) [] }
    ensures status_vector_fault { result ≡ Status.VectorFault → TracedTo HasNoVector (order_of words.now) (F.told shelf.old) (F.told shelf.new) }
    ensures status_rejected { result ≡ Status.Rejected → ⊥ }

    // Faults of the outside decide the status, those of the sink first. Where they rose, a front of the text due was
    // written, or of the line of a file that couldn't be read.
    ensures sink_faults_rose { (W.told out.old).faults < (W.told out.new).faults
        → StopsShort (plan_of (order_of words.now)) result (F.told shelf.old) (F.told shelf.new) (W.told out.old) (W.told out.new) }
    ensures shelf_faults_rose { IsCalm (W.told out.old).faults (W.told out.new).faults
        → (F.told shelf.old).faults < (F.told shelf.new).faults → result ≡ Status.ShelfFailed }
    ensures absences_rose { IsCalm (W.told out.old).faults (W.told out.new).faults
        → (F.told shelf.old).absences < (F.told shelf.new).absences → result ≡ Status.Absent }
{
    answer(alloc, words, shelf, out, progress)
}
