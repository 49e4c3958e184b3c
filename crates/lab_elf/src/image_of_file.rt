// The image of a file.
ghost use Rattle.std.specs.Prelude.{◌≡◌, ◌<◌, ◌≤◌, ◌^◌, length, IfOk};
ghost use Rattle.hart_memory.specs.declared.image.TheConstants.{MAX_SEGMENTS};
ghost use Rattle.lab_elf.specs.Fault.{Gives};
ghost use Rattle.lab_elf.specs.Loading.{ArePiecesFrom, AreRising, IsImageOf, image_with, image_of};

use crate::elf_error::ElfError;
use crate::header::check_header;
use crate::loading::load_sections;
use crate::numbers::word_at;
use crate::piece::Piece;
use hart_memory::Image;
use hart_words::WantOfMemory;
use std::alloc::Global;

// The image of pieces in rising order.
fn image_with(alloc: Global, bytes: &[u8], pieces: &[Piece]) -> Result<Image, WantOfMemory>
    requires long { 52 ≤ length bytes.now }
    requires few { length pieces.now ≤ MAX_SEGMENTS }
    requires sound { ArePiecesFrom 0 bytes.now pieces.now }
    ensures { IfOk result (λ image. image ≡ image_with bytes.now pieces.now) }
{
    let mut image = Image::new(alloc, word_at(bytes, 24));
    for piece in pieces {
        let first = piece.offset as usize;
        image.add(piece.at, &bytes[first..first + piece.size as usize])?;
    }
    Ok(image)
}

/// The image of what an ELF file loads: a segment for each section that is loaded, at its load address, and the entry as the
/// file has it.
#[tactic(auto, unfolding(crate::specs::Loading::image_of))]
pub fn read_elf(alloc: Global, bytes: &[u8]) -> Result<Image, ElfError>
    requires { length bytes.now < 2 ^ 32 }
    // It has the bytes of the sections that are loaded, each at its load address.
    ensures found { IfOk result (λ image. IsImageOf bytes.now image) }
    // Segments stand in rising order of addresses.
    ensures rising { IfOk result (λ image. AreRising image.segments) }
    // The file's image, or the first refusal with its place.
    ensures exact { Gives (λ image. image) result (image_of bytes.now) }
{
    check_header(bytes)?;
    let pieces = load_sections(alloc, bytes)?;
    Ok(image_with(alloc, bytes, &pieces)?)
}
