// Segments, which program headers tell of.
ghost use Rattle.std.specs.Prelude.{◌≡◌, ◌+◌, ◌<◌, ◌≤◌, ◌^◌, length, true};
ghost use Rattle.lab_elf.specs.Header.{IsWhole};
ghost use Rattle.lab_elf.specs.Headers.{program_at, programs};
ghost use Rattle.lab_elf.specs.Loading.{is_among, has_section, load_address_in, load_address};

use crate::header::PROGRAM_LEN;
use crate::numbers::{half_at, word_at};
use crate::section::Section;

// A segment that is loaded.
const LOAD: u32 = 1;

// What a program header says.
#[derive(Clone, Copy, Drop)]
pub(crate) struct Program {
    pub(crate) kind: u32,
    pub(crate) offset: u32,
    pub(crate) virtual_address: u32,
    pub(crate) physical_address: u32,
    pub(crate) file_size: u32,
    pub(crate) memory_size: u32,
}

// Whether so many bytes from a place on are among these.
fn is_among(at: u32, size: u32, first: u32, room: u32) -> bool
    ensures { result ≡ is_among at size first room }
{
    first <= at && u64::from(at) + u64::from(size) <= u64::from(first) + u64::from(room)
}

impl Program {
    // Whether the section lies in it, in the file and in memory.
    #[tactic(auto, unfolding(crate::specs::Loading::has_section))]
    fn has(&self, section: &Section) -> bool
        ensures { result ≡ has_section section.now self.now }
    {
        if self.kind != LOAD {
            return false;
        }
        is_among(section.offset, section.size, self.offset, self.file_size)
            && is_among(
                section.address,
                section.size,
                self.virtual_address,
                self.memory_size,
            )
    }

    // Where the section's bytes go.
    #[tactic(auto, unfolding(crate::specs::Loading::has_section))]
    fn load_address(&self, section: &Section) -> u32
        requires { has_section section.now self.now ≡ true }
        ensures { result ≡ load_address_in section.now self.now }
    {
        self.physical_address
            .wrapping_add(section.offset - self.offset)
    }
}

// The segment whose program header stands at a place.
#[tactic(auto, unfolding(crate::specs::Headers::program_at))]
fn program_at(bytes: &[u8], place: u32) -> Program
    requires inside { place + 32 ≤ length bytes.now }
    requires short { length bytes.now < 2 ^ 32 }
    ensures { result ≡ program_at place bytes.now }
{
    Program {
        kind: word_at(bytes, place),
        offset: word_at(bytes, place + 4),
        virtual_address: word_at(bytes, place + 8),
        physical_address: word_at(bytes, place + 12),
        file_size: word_at(bytes, place + 16),
        memory_size: word_at(bytes, place + 20),
    }
}

// The load address of a section: that of the first segment in which it lies.
pub(crate) fn load_address(bytes: &[u8], section: &Section) -> Option<u32>
    requires whole { IsWhole bytes.now }
    requires short { length bytes.now < 2 ^ 32 }
    ensures { result ≡ load_address section.now (programs bytes.now) }
{
    let first = word_at(bytes, 28);
    for k in 0..u32::from(half_at(bytes, 44)) {
        let program = program_at(bytes, first + PROGRAM_LEN * k);
        if program.has(section) {
            return Some(program.load_address(section));
        }
    }
    None
}
