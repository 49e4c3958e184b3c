// The symbol table and its strings.
ghost use Rattle.std.specs.Prelude.{◌≡◌, ◌+◌, ◌<◌, ◌≤◌, ◌^◌, length, OnOk, IfOk};
ghost use Rattle.lab_elf.specs.Fault.{Gives, first_of};
ghost use Rattle.lab_elf.specs.Header.{IsWhole};
ghost use Rattle.lab_elf.specs.Headers.{sections};
ghost use Rattle.lab_elf.specs.Symbols.{first_of_kind, table_kind, table_tests, strings_in, tables_of, AreInFile};

use crate::elf_error::{ElfError, refused};
use crate::elf_why::ElfWhy;
use crate::header::SECTION_LEN;
use crate::numbers::{half_at, is_inside, word_at};
use crate::section::{Section, section_at, section_of};

// Kinds of sections: a symbol table, and strings.
const SYMBOL_TABLE: u32 = 2;

const STRINGS: u32 = 3;

// The length of a symbol.
pub(crate) const SYMBOL_LEN: u32 = 16;

// A symbol table and its strings.
#[derive(Clone, Copy, Drop)]
pub(crate) struct Tables {
    pub(crate) table: Section,
    pub(crate) strings: Section,
}

// The first symbol table.
fn first_table(bytes: &[u8]) -> Option<Section>
    requires whole { IsWhole bytes.now }
    requires short { length bytes.now < 2 ^ 32 }
    ensures { result ≡ first_of_kind table_kind (sections bytes.now) }
{
    let first = word_at(bytes, 32);
    for k in 0..u32::from(half_at(bytes, 48)) {
        let section = section_at(bytes, first + SECTION_LEN * k);
        if section.kind == SYMBOL_TABLE {
            return Some(section);
        }
    }
    None
}

// Refuses a table whose symbols haven't the standard's size, or that isn't all in the file.
fn check_table(bytes: &[u8], table: &Section) -> Result<(), ElfError>
    ensures { Gives (λ done. done) result (first_of (table_tests table.now bytes.now)) }
{
    if table.entry_size != SYMBOL_LEN || table.size % SYMBOL_LEN != 0 {
        return refused(table.place, ElfWhy::BadHeader);
    }
    if !is_inside(bytes, table.offset, table.size) {
        return refused(table.place, ElfWhy::Truncated);
    }
    Ok(())
}

// The strings of a table.
fn strings_of(bytes: &[u8], table: &Section, strings: Option<Section>) -> Result<Section, ElfError>
    ensures { Gives (λ s. s) result (strings_in table.now strings bytes.now) }
{
    let Some(strings) = strings else {
        return refused(table.place, ElfWhy::BadLink);
    };
    if strings.kind != STRINGS {
        return refused(table.place, ElfWhy::BadLink);
    }
    if !is_inside(bytes, strings.offset, strings.size) {
        return refused(strings.place, ElfWhy::Truncated);
    }
    Ok(strings)
}

// The file's first symbol table, with its strings.
#[tactic(auto, unfolding(crate::specs::Symbols::tables_of))]
pub(crate) fn tables_of(bytes: &[u8]) -> Result<Tables, ElfError>
    requires whole { IsWhole bytes.now }
    requires short { length bytes.now < 2 ^ 32 }
    ensures gives { Gives (λ t. t) result (tables_of bytes.now) }
    ensures inside { IfOk result (λ t. AreInFile t bytes.now) }
{
    let Some(table) = first_table(bytes) else {
        return refused(48, ElfWhy::NoSymbols);
    };
    check_table(bytes, &table)?;
    let strings = strings_of(bytes, &table, section_of(bytes, table.link))?;
    Ok(Tables { table, strings })
}
