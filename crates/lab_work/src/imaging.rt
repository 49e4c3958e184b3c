// The image of an ELF file.
ghost use Rattle.tool_frame.specs.Answers.{Follows, status_in};
ghost use Rattle.lab_words.specs.Elf.{view_elf};
ghost use Rattle.lab_work.specs.Elf.{elf_plan};

use crate::elf_file::ElfFile;
use board_outside::{Shelf, Sink};
use lab_words::ElfOrder;
use std::alloc::Global;
use tool_frame::{Status, read_file};
use tool_work::put_image;

/// Reads the ELF file and writes its image.
pub fn image_of_file<F: Shelf, W: Sink>(
    alloc: Global,
    order: &ElfOrder<'_>,
    shelf: &mut F,
    out: &mut W,
) -> Result<Status, Status>
    ensures { Follows tt (status_in result) (elf_plan (view_elf order.now)) (F.told shelf.old) (F.told shelf.new) (W.told out.old) (W.told out.new) }
{
    let image = read_file(alloc, &ElfFile, order.file, shelf, out)?;
    Ok(put_image(alloc, &image, out))
}
