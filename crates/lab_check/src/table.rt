// All that is told of a table.
ghost use Rattle.std.specs.Prelude.{◌≡◌, ◌≤◌, is_ok};
ghost use Rattle.board_outside.specs.Sink.{Writes};
ghost use Rattle.chain_search.specs.Tables.{bound_told};
ghost use Rattle.lab_check.specs.Lines.{bound_text, table_text};

use crate::lines::put_lines;
use board_outside::{Sink, SinkFault};
use chain_lint::{Pair, TableBound, table_line};
use chain_search::PairAnswer;
use hart_memory::Banks;
use lab_names::Names;

// The line of the bound, where there is one.
fn put_bound<W: Sink>(bytes: Option<u32>, out: &mut W) -> Result<(), SinkFault>
    ensures { Writes (is_ok result) (W.told out.old) (W.told out.new) (bound_text bytes) }
{
    match bytes {
        Some(bytes) => out.put(table_line(TableBound::Bound(bytes)).bytes()),
        None => Ok(()),
    }
}

/// Writes a line for each pair of the table, and the bytes that all handlers use together, where each is accepted.
pub fn put_table<W: Sink>(
    names: &Names,
    code: &Banks,
    table: u32,
    pairs: &[Pair],
    answers: &[PairAnswer],
    bytes: Option<u32>,
    out: &mut W,
) -> Result<(), SinkFault>
    requires table { table ≤ 0x1_0000 }
    requires bound { bytes ≡ bound_told pairs.now answers.now }
    ensures { Writes (is_ok result) (W.told out.old) (W.told out.new) (table_text names.now code.now.present.rom table pairs.now answers.now) }
{
    put_lines(names, code, table, pairs, answers, out)?;
    put_bound(bytes, out)
}
