// The names of a file's symbols.
ghost use Rattle.std.specs.Prelude.{◌≡◌, ◌/◌, ◌<◌, ◌^◌, ◌==◌, ◌++◌, ◌∷◌, [], position, take, length, option_map, OnOk};
ghost use Rattle.lab_elf.specs.Fault.{Gives, Becomes};
ghost use Rattle.lab_elf.specs.Header.{IsWhole};
ghost use Rattle.lab_elf.specs.Symbols.{AreInFile, strings_of, name_bytes, is_hidden, name_in, with_name, with_symbol, with_symbols, symbols_from, wanted_flags, symbols_of};

use crate::elf_error::{ElfError, refused};
use crate::elf_why::ElfWhy;
use crate::header::check_header;
use crate::section::{ALLOC, EXECUTABLE};
use crate::symbol::{Symbol, symbol_at};
use crate::symbol_table::{SYMBOL_LEN, Tables, tables_of};
use hart_words::WantOfMemory;
use lab_names::{Name, are_name_bytes};
use std::alloc::Global;

/// The greatest number of names that are read.
pub const MAX_SYMBOLS: usize = 65_536;

// A byte more than the longest name has.
const NAME_END: usize = 1_025;

// So many bytes of a text, or all.
fn start_of(text: &[u8], most: usize) -> &[u8]
    ensures { result.now ≡ take most text.now }
{
    if text.len() <= most {
        text
    } else {
        &text[..most]
    }
}

// What stands from a name on among the strings.
fn name_bytes(name: u32, strings: &[u8]) -> &[u8]
    ensures { result.now ≡ name_bytes name strings.now }
{
    let first = name as usize;
    if first >= strings.len() {
        return &[];
    }
    start_of(&strings[first..], NAME_END)
}

// No name, a mark of the assembler's, or a label of its own.
fn is_hidden(text: &[u8]) -> bool
    ensures { result ≡ is_hidden text.now }
{
    match text {
        [0 | b'$', ..] => true,
        [b'.', b'L', ..] => true,
        _ => false,
    }
}

// The place of the first byte 0.
fn end_of(text: &[u8]) -> Option<usize>
    ensures { result ≡ position (λ byte. byte == 0) text.now }
{
    text.iter().position(|byte| *byte == 0)
}

// The name up to the first byte 0.
#[tactic(auto, unfolding(crate::specs::Symbols::name_in))]
fn name_in(text: &[u8]) -> Option<&[u8]>
    ensures { option_map (λ name. name.now) result ≡ name_in text.now }
{
    match end_of(text) {
        Some(end) => {
            let name = &text[..end];
            if are_name_bytes(name) {
                Some(name)
            } else {
                None
            }
        }
        None => None,
    }
}

fn push_name(
    alloc: Global,
    address: u32,
    name: &[u8],
    names: &mut Vec<Name>,
) -> Result<(), WantOfMemory>
    ensures { OnOk result (names.new.items ≡ names.old.items ++ record { address = address; name = name.now } ∷ []) }
{
    let name = Name::new(alloc, address, name)?;
    Ok(names.push(name)?)
}

// Takes the name of a symbol.
fn take_name(
    alloc: Global,
    symbol: &Symbol,
    name: Option<&[u8]>,
    names: &mut Vec<Name>,
) -> Result<(), ElfError>
    ensures { Becomes names.new.items result (with_name symbol.now (option_map (λ n. n.now) name.entry) names.old.items) }
{
    let Some(name) = name else {
        return refused(symbol.place, ElfWhy::BadName);
    };
    if names.len() >= MAX_SYMBOLS {
        return refused(symbol.place, ElfWhy::TooMany);
    }
    push_name(alloc, symbol.value, name, names)?;
    Ok(())
}

// Takes a symbol, or passes it over.
#[tactic(auto, unfolding(crate::specs::Symbols::with_symbol))]
fn take_symbol(
    alloc: Global,
    bytes: &[u8],
    strings: &[u8],
    wanted: u32,
    symbol: &Symbol,
    names: &mut Vec<Name>,
) -> Result<(), ElfError>
    requires whole { IsWhole bytes.now }
    requires short { length bytes.now < 2 ^ 32 }
    ensures { Becomes names.new.items result (with_symbol wanted strings.now bytes.now symbol.now names.old.items) }
{
    if !symbol.is_listed(wanted, bytes) {
        return Ok(());
    }
    let text = name_bytes(symbol.name, strings);
    if is_hidden(text) {
        return Ok(());
    }
    take_name(alloc, symbol, name_in(text), names)
}

// The names of a table's symbols, in its order.
fn take_symbols(
    alloc: Global,
    bytes: &[u8],
    tables: &Tables,
    wanted: u32,
) -> Result<Vec<Name>, ElfError>
    requires whole { IsWhole bytes.now }
    requires short { length bytes.now < 2 ^ 32 }
    requires inside { AreInFile tables.now bytes.now }
    ensures { Gives (λ names. names.items) result (with_symbols wanted (strings_of tables.now.strings bytes.now) bytes.now (symbols_from (tables.now.table.size / 16) tables.now.table.offset bytes.now) []) }
{
    let first = tables.strings.offset as usize;
    let strings = &bytes[first..first + tables.strings.size as usize];
    let mut names = Vec::new(alloc);
    for k in 0..tables.table.size / SYMBOL_LEN {
        let symbol = symbol_at(bytes, tables.table.offset + SYMBOL_LEN * k);
        take_symbol(alloc, bytes, strings, wanted, &symbol, &mut names)?;
    }
    Ok(names)
}

// The flags of the sections whose symbols are wanted.
fn wanted_flags(is_code_only: bool) -> u32
    ensures { result ≡ wanted_flags is_code_only }
{
    if is_code_only {
        ALLOC + EXECUTABLE
    } else {
        ALLOC
    }
}

/// The names of an ELF file's symbols with their values, in the order of its symbol table: of all sections that stand in memory, or
/// of those with instructions alone.
#[tactic(auto, unfolding(crate::specs::Symbols::symbols_of))]
pub fn read_symbols(alloc: Global, bytes: &[u8], is_code_only: bool) -> Result<Vec<Name>, ElfError>
    requires { length bytes.now < 2 ^ 32 }
    // The file's names, or the first refusal with its place.
    ensures exact { Gives (λ names. names.items) result (symbols_of is_code_only bytes.now) }
{
    check_header(bytes)?;
    let tables = tables_of(bytes)?;
    take_symbols(alloc, bytes, &tables, wanted_flags(is_code_only))
}
