// What is written of an image.
ghost use Rattle.tool_frame.specs.Answers.{EndsOrWants, Follows, status_in};
ghost use Rattle.tool_work.specs.Bench.{empty_bench};
ghost use Rattle.tool_words.specs.Disassemble.{view_disassemble};
ghost use Rattle.tool_work.specs.Disassemble.{listing_due, disassemble_plan};

use crate::image_file::ImageFile;
use board_outside::{Shelf, Sink};
use hart_memory::Image;
use rv_disasm::disassemble_image;
use std::alloc::Global;
use tool_frame::{Status, ended, read_file};
use tool_words::DisassembleOrder;

// Writes the source of an image.
fn write_listing<W: Sink>(alloc: Global, image: &Image, out: &mut W) -> Status
    ensures { EndsOrWants result (W.told out.old) (W.told out.new) (listing_due image.now) }
{
    match disassemble_image(alloc, image) {
        Ok(text) => ended(out.put(text.bytes()), Status::Done),
        Err(_) => Status::Memory,
    }
}

/// Reads the image and lists it.
pub fn disassemble_file<F: Shelf, W: Sink>(
    alloc: Global,
    disassembly: &DisassembleOrder<'_>,
    shelf: &mut F,
    out: &mut W,
) -> Result<Status, Status>
    ensures { Follows empty_bench (status_in result) (disassemble_plan (view_disassemble disassembly.now)) (F.told shelf.old) (F.told shelf.new) (W.told out.old) (W.told out.new) }
{
    let image = read_file(alloc, &ImageFile, disassembly.image, shelf, out)?;
    Ok(write_listing(alloc, &image, out))
}
