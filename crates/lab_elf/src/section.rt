// Sections.
ghost use Rattle.std.specs.Prelude.{◌≡◌, ◌+◌, ◌<◌, ◌≤◌, ◌^◌, length, IsTrue};
ghost use Rattle.std.specs.List.{slice_get};
ghost use Rattle.lab_elf.specs.Header.{IsWhole};
ghost use Rattle.lab_elf.specs.Headers.{section_at, sections, has_flags};
ghost use Rattle.lab_elf.specs.Loading.{is_loaded};

use crate::header::SECTION_LEN;
use crate::numbers::{half_at, word_at};

// It stands in memory while the program runs, and has instructions.
pub(crate) const ALLOC: u32 = 2;

pub(crate) const EXECUTABLE: u32 = 4;

// No section, and one without bytes in the file.
const NULL: u32 = 0;

const NO_BITS: u32 = 8;

// What a section header says, and the place in the file where it stands.
#[derive(Clone, Copy, Drop)]
pub(crate) struct Section {
    pub(crate) place: u32,
    pub(crate) kind: u32,
    pub(crate) flags: u32,
    pub(crate) address: u32,
    pub(crate) offset: u32,
    pub(crate) size: u32,
    pub(crate) link: u32,
    pub(crate) entry_size: u32,
}

impl Section {
    // Whether it has all of these flags.
    pub(crate) fn has_flags(&self, wanted: u32) -> bool
        ensures { result ≡ has_flags wanted self.now }
    {
        self.flags & wanted == wanted
    }

    // Whether it has bytes that memory is to have.
    pub(crate) fn is_loaded(&self) -> bool
        ensures { result ≡ is_loaded self.now }
    {
        self.has_flags(ALLOC) && self.kind != NULL && self.kind != NO_BITS && self.size != 0
    }
}

// The section whose header stands at a place.
#[tactic(auto, unfolding(crate::specs::Headers::section_at))]
pub(crate) fn section_at(bytes: &[u8], place: u32) -> Section
    requires inside { place + 40 ≤ length bytes.now }
    requires short { length bytes.now < 2 ^ 32 }
    ensures { result ≡ section_at place bytes.now }
{
    Section {
        place,
        kind: word_at(bytes, place + 4),
        flags: word_at(bytes, place + 8),
        address: word_at(bytes, place + 12),
        offset: word_at(bytes, place + 16),
        size: word_at(bytes, place + 20),
        link: word_at(bytes, place + 24),
        entry_size: word_at(bytes, place + 36),
    }
}

// The section of a number, where there is one.
pub(crate) fn section_of(bytes: &[u8], number: u32) -> Option<Section>
    requires whole { IsWhole bytes.now }
    requires short { length bytes.now < 2 ^ 32 }
    ensures { result ≡ slice_get (sections bytes.now) number }
{
    if number >= u32::from(half_at(bytes, 48)) {
        return None;
    }
    Some(section_at(bytes, word_at(bytes, 32) + SECTION_LEN * number))
}
