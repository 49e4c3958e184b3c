// Reads names.
ghost use Rattle.std.specs.Prelude.{◌≡◌, ◌+◌, ◌<◌, ◌≤◌, ◌^◌, ◌++◌, ◌∷◌, List, [], length, option_map, Ok, Err, IfOk, IfErr, OnOk, OnErr};
ghost use Rattle.asm_text.specs.Numbers.{digits_after};
ghost use Rattle.hart_words.specs.Lines.{lines_left, left};
ghost use Rattle.lab_names.specs.Name.{NameView, is_name};
ghost use Rattle.lab_names.specs.Table.{table_of};
ghost use Rattle.lab_names.specs.NamesFile.{IsNamesFile, IsTableOfFile};
ghost use Rattle.lab_names.specs.FirstWrong.{RefusesFirst};
ghost use Rattle.lab_names.specs.NamesReading.{Gives, Becomes, has_parts, name_in, with_one, with_line, listed, names_of};
ghost use Rattle.lab_names.specs.declared.names_error.NamesError.TheVariants.{Refused};

use crate::name::Name;
use crate::name_text::are_name_bytes;
use crate::names::Names;
use crate::names_error::NamesError;
use crate::names_why::NamesWhy;
use hart_words::{WantOfMemory, cut_line};
use std::alloc::Global;

/// The greatest number of names in a file.
pub const MAX_NAMES: usize = 65_536;

// Refuses a line.
fn refused(line: u32, why: NamesWhy) -> Result<(), NamesError>
    ensures { result ≡ Err (Refused line why) }
{
    Err(NamesError::Refused { line, why })
}

// The number of eight hexadecimal digits.
fn number_of(digits: &[u8]) -> Option<u32>
    requires { length digits.now ≡ 8 }
    ensures { result ≡ digits_after 16 0 digits.now }
{
    let mut value = 0u64;
    for byte in digits {
        let Some(digit) = char::from(*byte).to_digit(16) else {
            return None;
        };
        value = value * 16 + u64::from(digit);
    }
    Some(value as u32)
}

// A space follows the eight digits, and a name the space.
fn has_parts(line: &[u8]) -> bool
    ensures parts { result ≡ has_parts line.now }
{
    line.len() > 9 && line[8] == b' ' && are_name_bytes(&line[9..])
}

// The address and the name of a line.
#[tactic(auto, unfolding(crate::specs::NamesReading::name_in))]
fn name_in(line: &[u8]) -> Option<(u32, &[u8])>
    ensures { option_map (λ n. record { address = n.0; name = n.1.now }) result ≡ name_in line.now }
{
    if !has_parts(line) {
        return None;
    }
    match number_of(&line[..8]) {
        Some(address) => Some((address, &line[9..])),
        None => None,
    }
}

// Adds the name of a line.
fn take_name(
    alloc: Global,
    address: u32,
    name: &[u8],
    number: u32,
    names: &mut Vec<Name>,
) -> Result<(), NamesError>
    ensures { Becomes names.old.items names.new.items result (with_one (record { address = address; name = name.now }) number names.old.items) }
{
    if names.len() >= MAX_NAMES {
        return refused(number, NamesWhy::TooMany);
    }
    push_name(alloc, address, name, names)?;
    Ok(())
}

fn push_name(
    alloc: Global,
    address: u32,
    name: &[u8],
    names: &mut Vec<Name>,
) -> Result<(), WantOfMemory>
    ensures ok { OnOk result (names.new.items ≡ names.old.items ++ record { address = address; name = name.now } ∷ []) }
    ensures err { OnErr result (names.new.items ≡ names.old.items) }
{
    let name = Name::new(alloc, address, name)?;
    Ok(names.push(name)?)
}

// Takes one line.
#[tactic(auto, unfolding(crate::specs::NamesReading::with_line))]
fn take_line(
    alloc: Global,
    line: &[u8],
    number: u64,
    names: &mut Vec<Name>,
) -> Result<(), NamesError>
    requires { number + length line.now ≤ 2 ^ 32 }
    ensures { Becomes names.old.items names.new.items result (with_line line.now number names.old.items) }
{
    if line.is_empty() {
        return Ok(());
    }
    match name_in(line) {
        Some((address, name)) => take_name(alloc, address, name, number as u32, names),
        None => refused(number as u32, NamesWhy::BadLine),
    }
}

// The names of a file, in its order.
#[tactic(auto, unfolding(crate::specs::NamesReading::listed))]
fn read_lines(alloc: Global, bytes: &[u8]) -> Result<Vec<Name>, NamesError>
    requires { length bytes.now < 2 ^ 32 }
    ensures { Gives (λ names. names.items) result (listed bytes.now) }
{
    let mut names = Vec::new(alloc);
    let mut number = 1;
    let mut rest = Some(bytes);
    while let Some(text) = rest {
        let (line, after) = cut_line(text);
        take_line(alloc, line, number, &mut names)?;
        number += 1;
        rest = after;
    }
    Ok(names)
}

// The table of names that are given in any order.
fn table_of(alloc: Global, names: &[Name]) -> Result<Names, WantOfMemory>
    ensures { IfOk result (λ table. table ≡ table_of names.now) }
{
    let mut table = Names::new(alloc);
    for name in names {
        table.put(name.address(), name.bytes())?;
    }
    Ok(table)
}

#[tactic(auto, unfolding(crate::specs::NamesReading::names_of))]
fn names_in_file(alloc: Global, bytes: &[u8]) -> Result<Names, NamesError>
    requires { length bytes.now < 2 ^ 32 }
    ensures { Gives (λ table. table) result (names_of bytes.now) }
{
    let names = read_lines(alloc, bytes)?;
    Ok(table_of(alloc, &names)?)
}

/// The table of the names in a file.
pub fn read_names(alloc: Global, bytes: &[u8]) -> Result<Names, NamesError>
    requires { length bytes.now < 2 ^ 32 }
    // What is read is the table of the file's names.
    ensures found { IfOk result (λ table. IsTableOfFile bytes.now table) }
    // The names of a file are read, unless memory was wanting.
    ensures only { (ns : List NameView) → IsNamesFile bytes.now ns → Gives (λ table. table) result (Ok (table_of ns)) }
    // Otherwise it is the first line in which something is wrong, and what that is.
    ensures first { IfErr result (λ e. RefusesFirst bytes.now e) }
    // All of it in one equation.
    ensures exact { Gives (λ table. table) result (names_of bytes.now) }
{
    names_in_file(alloc, bytes)
}
