// The lines of a sweep.
ghost use Rattle.std.specs.Prelude.{◌≡◌, is_ok};
ghost use Rattle.board_outside.specs.Sink.{Writes};
ghost use Rattle.lab_sweep.specs.Texts.{tally_text, row_line, rows_text};

use crate::outcomes::Outcomes;
use crate::tally::Tally;
use board_outside::{Sink, SinkFault};
use hart_words::Line;

// Writes how many counts gave an outcome, and the first.
#[tactic(auto, unfolding(crate::specs::Texts::tally_text))]
fn put_tally<W: Sink>(tally: Tally, out: &mut W) -> Result<(), SinkFault>
    ensures { Writes (is_ok result) (W.told out.old) (W.told out.new) (tally_text tally.counts tally.first) }
{
    let mut line = Line::new();
    line.put_dec(tally.counts);
    line.put_text(" ");
    line.put_dec(tally.first);
    line.put_text(" ");
    out.put(line.bytes())
}

// Writes the line of an outcome.
#[tactic(auto, unfolding(crate::specs::Texts::row_line))]
fn put_row<W: Sink>(outcome: &[u8], tally: Tally, out: &mut W) -> Result<(), SinkFault>
    ensures { Writes (is_ok result) (W.told out.old) (W.told out.new) (row_line (record { outcome = outcome.now; counts = tally.counts; first = tally.first })) }
{
    put_tally(tally, out)?;
    out.put(outcome)?;
    out.put(b"\n")
}

/// Writes a line for each outcome.
pub fn put_outcomes<W: Sink>(outcomes: &Outcomes, out: &mut W) -> Result<(), SinkFault>
    ensures { Writes (is_ok result) (W.told out.old) (W.told out.new) (rows_text outcomes.now) }
{
    for i in 0..outcomes.len() {
        let (outcome, tally) = outcomes.row(i);
        put_row(outcome, tally, out)?;
    }
    Ok(())
}
