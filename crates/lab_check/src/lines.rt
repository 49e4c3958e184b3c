// A line for each pair.
ghost use Rattle.std.specs.Prelude.{◌≡◌, ◌≤◌, is_ok};
ghost use Rattle.board_outside.specs.Sink.{Writes};
ghost use Rattle.lab_check.specs.Lines.{answer_line, answer_lines, answer_text, handler_at, refused_text};

use crate::parts::{no_start, pair_start, put_handler, put_place};
use board_outside::{Sink, SinkFault};
use chain_flow::{LintWhy, Verdict};
use chain_lint::{Pair, TableBound, table_line, verdict_line, word_at};
use chain_search::PairAnswer;
use hart_memory::Banks;
use hart_words::even;
use lab_names::Names;

// The handler that the table's word at a place names.
fn handler_at(code: &Banks, place: u32) -> Option<u32>
    ensures { result ≡ handler_at code.now.present.rom place }
{
    match word_at(code, place) {
        Some(word) => Some(even(word)),
        None => None,
    }
}

// The rule that refuses, and where.
fn put_refused<W: Sink>(names: &Names, why: LintWhy, at: u32, out: &mut W) -> Result<(), SinkFault>
    ensures { Writes (is_ok result) (W.told out.old) (W.told out.new) (refused_text names.now why at) }
{
    out.put(no_start(why, at).bytes())?;
    put_place(names, at, out)?;
    out.put(b"\n")
}

// What is told of a handler.
fn put_answer<W: Sink>(names: &Names, answer: PairAnswer, out: &mut W) -> Result<(), SinkFault>
    ensures { Writes (is_ok result) (W.told out.old) (W.told out.new) (answer_text names.now answer) }
{
    match answer {
        PairAnswer::Accepted(uses) => out.put(verdict_line(Verdict::Yes { uses }).bytes()),
        PairAnswer::BadTable(at) => out.put(table_line(TableBound::BadTable(at)).bytes()),
        PairAnswer::Refused { why, at } => put_refused(names, why, at, out),
    }
}

// The line of a pair.
fn put_line<W: Sink>(
    names: &Names,
    handler: Option<u32>,
    pair: Pair,
    answer: PairAnswer,
    out: &mut W,
) -> Result<(), SinkFault>
    ensures { Writes (is_ok result) (W.told out.old) (W.told out.new) (answer_line names.now handler pair answer) }
{
    out.put(pair_start(pair).bytes())?;
    put_handler(names, handler, out)?;
    out.put(b" ")?;
    put_answer(names, answer, out)
}

/// A line for each pair that has an answer.
pub fn put_lines<W: Sink>(
    names: &Names,
    code: &Banks,
    table: u32,
    pairs: &[Pair],
    answers: &[PairAnswer],
    out: &mut W,
) -> Result<(), SinkFault>
    requires { table ≤ 0x1_0000 }
    ensures { Writes (is_ok result) (W.told out.old) (W.told out.new) (answer_lines names.now code.now.present.rom table pairs.now answers.now) }
{
    for i in 0..pairs.len() {
        if i >= answers.len() {
            return Ok(());
        }
        let handler = handler_at(code, table + 4 * u32::from(pairs[i].input));
        put_line(names, handler, pairs[i], answers[i], out)?;
    }
    Ok(())
}
