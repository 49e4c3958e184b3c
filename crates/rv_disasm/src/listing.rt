// The listing of bytes.
ghost use Rattle.std.specs.Prelude.{◌≡◌, ◌++◌, ◌+◌, ◌*◌, ◌<◌, ◌≤◌, ◌^◌, [], length, drop, slice_index, true, OnOk};
ghost use Rattle.hart_memory.specs.Memory.{AreBytes};
ghost use Rattle.asm_text.specs.Pieces.{printed};
ghost use Rattle.rvc_encoding.specs.Rows.{spelled16};
ghost use Rattle.rv_disasm.specs.Fitting.{statement_fits};
ghost use Rattle.rv_disasm.specs.Printing.{line_pieces};
ghost use Rattle.rv_disasm.specs.Listing.{short_or, word_statement, first_statement, size_of, line_text, listing};

use crate::printing::put_statement;
use crate::statement::Statement;
use hart_words::{Line, Text, WantOfMemory};
use rv_encoding::{decode32, is_canonical};
use rvc_encoding::{decode16, length_of};

fn half_at(bytes: &[u8], at: usize) -> u16
    requires { at + 1 < length bytes.now }
    ensures { result ≡ slice_index bytes.now at + 256 * slice_index bytes.now (at + 1) }
{
    u16::from(bytes[at]) + 256 * u16::from(bytes[at + 1])
}

fn word_at(bytes: &[u8], at: usize) -> u32
    requires { at + 3 < length bytes.now }
    ensures { result ≡ slice_index bytes.now at + 256 * slice_index bytes.now (at + 1) + 65536 * (slice_index bytes.now (at + 2) + 256 * slice_index bytes.now (at + 3)) }
{
    u32::from(half_at(bytes, at)) + 0x1_0000 * u32::from(half_at(bytes, at + 2))
}

// The instruction of a half-word, or the half-word where no row spells it.
#[tactic(auto, unfolding(crate::specs::Fitting::statement_fits))]
fn short_or_half(half: u16) -> Statement
    ensures is { result ≡ short_or (spelled16 half) half }
    ensures fits { statement_fits result ≡ true }
    ensures size { size_of result ≡ 2 }
{
    match decode16(half) {
        Some(instruction) => Statement::Short(instruction),
        None => Statement::Half(half),
    }
}

// The instruction of a word that is canonical, or the word.
#[tactic(auto, unfolding(crate::specs::Listing::word_statement, crate::specs::Fitting::statement_fits))]
fn long_or_word(word: u32) -> Statement
    ensures is { result ≡ word_statement word }
    ensures fits { statement_fits result ≡ true }
    ensures size { size_of result ≡ 4 }
{
    match decode32(word) {
        Some(instruction) => {
            if is_canonical(word) {
                Statement::Long(instruction)
            } else {
                Statement::Word(word)
            }
        }
        None => Statement::Word(word),
    }
}

/// Puts the line of a word at a place, without a line feed: its instruction, or the word where it is none.
pub fn put_word(line: &mut Line, word: u32, place: u32)
    requires { line.old ≡ [] }
    ensures bytes { line.new ≡ printed (line_pieces place (word_statement word)) }
    ensures len { length line.new ≤ 81 }
{
    put_statement(line, &long_or_word(word), place);
}

/// Puts the line of a half-word at a place, without a line feed: its instruction, or the half-word where it is none.
pub fn put_half(line: &mut Line, half: u16, place: u32)
    requires { line.old ≡ [] }
    ensures bytes { line.new ≡ printed (line_pieces place (short_or (spelled16 half) half)) }
    ensures len { length line.new ≤ 81 }
{
    put_statement(line, &short_or_half(half), place);
}

// What the bytes from a place on begin with.
#[tactic(auto, unfolding(crate::specs::Fitting::statement_fits), using(crate::proofs::Firsts::firsts))]
fn statement_at(bytes: &[u8], at: usize) -> Statement
    requires { at < length bytes.now }
    ensures is { result ≡ first_statement (slice_index bytes.now at) (drop (at + 1) bytes.now) }
    ensures fits { statement_fits result ≡ true }
    ensures inside { at + size_of result ≤ length bytes.now }
{
    let left = bytes.len() - at;
    if left == 1 {
        return Statement::Byte(bytes[at]);
    }
    let half = half_at(bytes, at);
    if length_of(half) == 2 {
        return short_or_half(half);
    }
    if left < 4 {
        return Statement::Half(half);
    }
    long_or_word(word_at(bytes, at))
}

// How many bytes a line puts.
fn size_of(statement: &Statement) -> usize
    ensures { result ≡ size_of statement.now }
{
    match statement {
        Statement::Entry(_) | Statement::Org(_) => 0,
        Statement::Byte(_) => 1,
        Statement::Half(_) | Statement::Short(_) => 2,
        Statement::Word(_) | Statement::Long(_) => 4,
    }
}

/// Adds the line of a statement at a place.
pub(crate) fn push_line(
    text: &mut Text,
    statement: &Statement,
    place: u32,
) -> Result<(), WantOfMemory>
    requires { statement_fits statement.now ≡ true }
    ensures { OnOk result (text.new ≡ text.old ++ line_text (line_pieces place statement.now)) }
{
    let mut line = Line::new();
    put_statement(&mut line, statement, place);
    line.put_text("\n");
    text.push_bytes(line.bytes())
}

/// Adds the listing of the bytes, which stand from `base` on.
pub(crate) fn push_listing(text: &mut Text, bytes: &[u8], base: u32) -> Result<(), WantOfMemory>
    requires { base + length bytes.now ≤ 2 ^ 32 }
    ensures text { OnOk result (text.new ≡ text.old ++ listing base bytes.now) }
    ensures bytes { OnOk result (AreBytes bytes.now) }
{
    let mut at = 0;
    while at < bytes.len() {
        let statement = statement_at(bytes, at);
        push_line(text, &statement, base + at as u32)?;
        at += size_of(&statement);
    }
    Ok(())
}
