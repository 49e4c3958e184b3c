// The names of an ELF file.
ghost use Rattle.tool_frame.specs.Answers.{EndsOrWants, Follows, status_in};
ghost use Rattle.lab_words.specs.Names.{view_names};
ghost use Rattle.lab_work.specs.Names.{names_due, names_plan};

use crate::listed_names::ListedNames;
use crate::symbols_file::SymbolsFile;
use board_outside::{Shelf, Sink};
use lab_names::text_of_names;
use lab_words::NamesOrder;
use std::alloc::Global;
use tool_frame::{Status, ended, read_file};

// Writes the lines of names.
fn write_names<W: Sink>(alloc: Global, listed: &ListedNames, out: &mut W) -> Status
    ensures { EndsOrWants result (W.told out.old) (W.told out.new) (names_due listed.now) }
{
    match text_of_names(alloc, &listed.names) {
        Ok(text) => ended(out.put(text.bytes()), Status::Done),
        Err(_) => Status::Memory,
    }
}

/// Reads the ELF file and writes the names of its symbols.
pub fn names_of_file<F: Shelf, W: Sink>(
    alloc: Global,
    order: &NamesOrder<'_>,
    shelf: &mut F,
    out: &mut W,
) -> Result<Status, Status>
    ensures { Follows tt (status_in result) (names_plan (view_names order.now)) (F.told shelf.old) (F.told shelf.new) (W.told out.old) (W.told out.new) }
{
    let kind = SymbolsFile { code: order.code };
    let listed = read_file(alloc, &kind, order.file, shelf, out)?;
    Ok(write_names(alloc, &listed, out))
}
