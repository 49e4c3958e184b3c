// What is written of an assembled source.
ghost use Rattle.std.specs.Prelude.{◌≡◌, ◌++◌, IfOk, OnOk};
ghost use Rattle.rv_assembler.specs.Symbols.{Symbol};
ghost use Rattle.tool_frame.specs.Answers.{EndsOrWants, Follows, status_in};
ghost use Rattle.tool_work.specs.Bench.{empty_bench};
ghost use Rattle.tool_words.specs.Assemble.{view_assemble};
ghost use Rattle.tool_work.specs.Assemble.{symbol_line, symbols_text, program_text, program_due, assemble_plan};

use crate::image_file::text_of_image;
use crate::source_file::SourceFile;
use board_outside::{Shelf, Sink};
use hart_words::{Text, WantOfMemory};
use lab_names::put_name;
use rv_assembler::{Assembled, Symbols};
use std::alloc::Global;
use tool_frame::{Status, ended, read_file};
use tool_words::AssembleOrder;

// Adds the line of a label.
fn put_symbol(text: &mut Text, name: &str, address: u32) -> Result<(), WantOfMemory>
    ensures { OnOk result (text.new ≡ text.old ++ symbol_line (record { name = name.now; address = address })) }
{
    put_name(text, address, name.as_bytes())
}

fn text_of_symbols(alloc: Global, symbols: &Symbols) -> Result<Text, WantOfMemory>
    ensures { IfOk result (λ text. text ≡ symbols_text symbols.now) }
{
    let count = symbols.len();
    let mut text = Text::new(alloc);
    for i in 0..count {
        put_symbol(&mut text, symbols.name(i), symbols.address(i))?;
    }
    Ok(text)
}

// The labels, or the image's file.
fn text_of_program(
    alloc: Global,
    symbols: bool,
    assembled: &Assembled,
) -> Result<Text, WantOfMemory>
    ensures { IfOk result (λ text. text ≡ program_text symbols assembled.now) }
{
    if symbols {
        text_of_symbols(alloc, &assembled.symbols)
    } else {
        text_of_image(alloc, &assembled.image)
    }
}

// Writes the image of an assembled source, or its labels, as the words say.
fn write_program<W: Sink>(
    alloc: Global,
    order: &AssembleOrder<'_>,
    assembled: &Assembled,
    out: &mut W,
) -> Status
    ensures { EndsOrWants result (W.told out.old) (W.told out.new) (program_due (view_assemble order.now) assembled.now) }
{
    match text_of_program(alloc, order.symbols, assembled) {
        Ok(text) => ended(out.put(text.bytes()), Status::Done),
        Err(_) => Status::Memory,
    }
}

/// Reads the source and assembles it.
pub fn assemble_file<F: Shelf, W: Sink>(
    alloc: Global,
    order: &AssembleOrder<'_>,
    shelf: &mut F,
    out: &mut W,
) -> Result<Status, Status>
    ensures { Follows empty_bench (status_in result) (assemble_plan (view_assemble order.now)) (F.told shelf.old) (F.told shelf.new) (W.told out.old) (W.told out.new) }
{
    let assembled = read_file(alloc, &SourceFile, order.source, shelf, out)?;
    Ok(write_program(alloc, order, &assembled, out))
}
