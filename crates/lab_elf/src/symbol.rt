// Symbols.
ghost use Rattle.std.specs.Prelude.{◌≡◌, ◌+◌, ◌<◌, ◌≤◌, ◌^◌, length};
ghost use Rattle.lab_elf.specs.Header.{IsWhole};
ghost use Rattle.lab_elf.specs.Symbols.{symbol_at, is_listed};

use crate::numbers::{half_at, word_at};
use crate::section::section_of;

// The kinds below this one are no kind, an object and a function.
const LISTED_KINDS: u8 = 3;

// What an entry of the symbol table says, and the place in the file where it stands.
#[derive(Clone, Copy, Drop)]
pub(crate) struct Symbol {
    pub(crate) place: u32,
    // Where its name begins among the strings.
    pub(crate) name: u32,
    pub(crate) value: u32,
    pub(crate) kind: u8,
    pub(crate) section: u16,
}

// The symbol that stands at a place.
#[tactic(auto, unfolding(crate::specs::Symbols::symbol_at))]
pub(crate) fn symbol_at(bytes: &[u8], place: u32) -> Symbol
    requires inside { place + 16 ≤ length bytes.now }
    requires short { length bytes.now < 2 ^ 32 }
    ensures { result ≡ symbol_at place bytes.now }
{
    Symbol {
        place,
        name: word_at(bytes, place),
        value: word_at(bytes, place + 4),
        kind: bytes[place as usize + 12] % 16,
        section: half_at(bytes, place + 14),
    }
}

impl Symbol {
    // Whether it has a name, is of a kind that is listed, and stands in a section with these flags.
    pub(crate) fn is_listed(&self, wanted: u32, bytes: &[u8]) -> bool
        requires whole { IsWhole bytes.now }
        requires short { length bytes.now < 2 ^ 32 }
        ensures { result ≡ is_listed wanted bytes.now self.now }
    {
        if self.kind >= LISTED_KINDS || self.name == 0 {
            return false;
        }
        match section_of(bytes, u32::from(self.section)) {
            Some(section) => section.has_flags(wanted),
            None => false,
        }
    }
}
