// The sections that are loaded.
ghost use Rattle.std.specs.Prelude.{◌≡◌, ◌<◌, ◌≤◌, ◌^◌, [], length, filter};
ghost use Rattle.lab_elf.specs.Fault.{Gives, Becomes};
ghost use Rattle.lab_elf.specs.Header.{IsWhole};
ghost use Rattle.lab_elf.specs.Headers.{sections};
ghost use Rattle.lab_elf.specs.Loading.{is_loaded, with_piece, with_section, with_sections};

use crate::elf_error::{ElfError, refused};
use crate::elf_why::ElfWhy;
use crate::header::SECTION_LEN;
use crate::numbers::{half_at, is_inside, word_at};
use crate::piece::Piece;
use crate::program::load_address;
use crate::section::{Section, section_at};
use hart_memory::{MAX_SEGMENTS, place_of};
use std::alloc::Global;

// Takes a piece; `place` is where its section's header stands.
fn take_piece(place: u32, piece: Piece, taken: &mut Vec<Piece>) -> Result<(), ElfError>
    ensures { Becomes taken.new.items result (with_piece place piece taken.old.items) }
{
    if !place_of(piece.at, piece.size).is_in_memory() {
        return refused(place, ElfWhy::OutsideMemory);
    }
    if piece.meets_any(taken) {
        return refused(place, ElfWhy::Overlap);
    }
    piece.put_in(taken)?;
    Ok(())
}

// Takes a section that is loaded.
#[tactic(auto, unfolding(crate::specs::Loading::with_section))]
fn take_section(bytes: &[u8], section: &Section, taken: &mut Vec<Piece>) -> Result<(), ElfError>
    requires whole { IsWhole bytes.now }
    requires short { length bytes.now < 2 ^ 32 }
    ensures { Becomes taken.new.items result (with_section bytes.now section.now taken.old.items) }
{
    if taken.len() >= MAX_SEGMENTS {
        return refused(section.place, ElfWhy::TooMany);
    }
    if !is_inside(bytes, section.offset, section.size) {
        return refused(section.place, ElfWhy::Truncated);
    }
    let Some(at) = load_address(bytes, section) else {
        return refused(section.place, ElfWhy::Unplaced);
    };
    let piece = Piece {
        at,
        offset: section.offset,
        size: section.size,
    };
    take_piece(section.place, piece, taken)
}

// The pieces of memory that the file's sections fill, in rising order.
pub(crate) fn load_sections(alloc: Global, bytes: &[u8]) -> Result<Vec<Piece>, ElfError>
    requires whole { IsWhole bytes.now }
    requires short { length bytes.now < 2 ^ 32 }
    ensures { Gives (λ pieces. pieces.items) result (with_sections bytes.now (filter is_loaded (sections bytes.now)) []) }
{
    let mut taken = Vec::new(alloc);
    let first = word_at(bytes, 32);
    for k in 0..u32::from(half_at(bytes, 48)) {
        let section = section_at(bytes, first + SECTION_LEN * k);
        if section.is_loaded() {
            take_section(bytes, &section, &mut taken)?;
        }
    }
    Ok(taken)
}
