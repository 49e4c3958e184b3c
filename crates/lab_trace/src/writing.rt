// Writes a text with what is added to it.
ghost use Rattle.std.specs.Prelude.{◌≡◌, ◌∷◌, ◌++◌, [], codes, is_ok, option_map};
ghost use Rattle.std.specs.List.{list_any};
ghost use Rattle.board_outside.specs.Sink.{Writes};
ghost use Rattle.lab_names.specs.Name.{is_name};
ghost use Rattle.lab_trace.specs.Added.{spelled, added, is_tab};
ghost use Rattle.lab_trace.specs.Named.{offset_text, name_by, is_shown, instruction_in, instruction_of};

use crate::trace_line::TraceLine;
use board_outside::{Sink, SinkFault};
use hart_words::Line;
use lab_names::are_name_bytes;
use rv_disasm::{put_half, put_word};

fn put_byte<W: Sink>(byte: u8, out: &mut W) -> Result<(), SinkFault>
    ensures { Writes (is_ok result) (W.told out.old) (W.told out.new) (spelled (byte ∷ [])) }
{
    if byte == b'\t' {
        out.put(b"\t\t")
    } else {
        out.put(&[byte])
    }
}

// Byte by byte, from a place on.
fn put_bytes<W: Sink>(bytes: &[u8], out: &mut W) -> Result<(), SinkFault>
    ensures { Writes (is_ok result) (W.told out.old) (W.told out.new) (spelled bytes.now) }
{
    for i in 0..bytes.len() {
        put_byte(bytes[i], out)?;
    }
    Ok(())
}

fn has_tab(bytes: &[u8]) -> bool
    ensures { result ≡ list_any is_tab bytes.now }
{
    bytes.iter().any(|byte| *byte == b'\t')
}

/// Writes a text to which nothing is added.
pub fn put_spelled<W: Sink>(bytes: &[u8], out: &mut W) -> Result<(), SinkFault>
    ensures { Writes (is_ok result) (W.told out.old) (W.told out.new) (spelled bytes.now) }
{
    if has_tab(bytes) {
        put_bytes(bytes, out)
    } else {
        out.put(bytes)
    }
}

fn is_name(text: &[u8]) -> bool
    ensures { result ≡ is_name text.now }
{
    !text.is_empty() && are_name_bytes(text)
}

fn is_shown(text: &[u8]) -> bool
    ensures { result ≡ is_shown text.now }
{
    text.iter().all(|byte| *byte >= b' ')
}

// What stands behind a name.
fn behind(offset: u32) -> Line
    ensures { result ≡ offset_text offset ++ codes ">" }
{
    let mut line = Line::new();
    if offset != 0 {
        line.put_text("+");
        line.put_dec(u64::from(offset));
    }
    line.put_text(">");
    line
}

fn put_parts<W: Sink>(name: &[u8], rest: &[u8], out: &mut W) -> Result<(), SinkFault>
    ensures { Writes (is_ok result) (W.told out.old) (W.told out.new) (codes "\t<" ++ (name.now ++ rest.now)) }
{
    out.put(b"\t<")?;
    out.put(name)?;
    out.put(rest)
}

/// Adds a name and how far behind it, where there is one.
pub fn put_name<W: Sink>(found: Option<(&[u8], u32)>, out: &mut W) -> Result<(), SinkFault>
    ensures { Writes (is_ok result) (W.told out.old) (W.told out.new) (added (name_by (option_map (λ f. (f.0.now, f.1)) found.entry))) }
{
    match found {
        None => Ok(()),
        Some((name, offset)) => {
            if is_name(name) {
                put_parts(name, behind(offset).bytes(), out)
            } else {
                Ok(())
            }
        }
    }
}

// The instruction of a line.
fn instruction_in(told: TraceLine) -> Line
    ensures { result ≡ instruction_in told }
{
    let mut line = Line::new();
    match told {
        TraceLine::Word { pc, bits } => put_word(&mut line, bits, pc),
        TraceLine::Half { pc, bits } => put_half(&mut line, bits, pc),
        TraceLine::Entry { .. } | TraceLine::Service | TraceLine::Other => {}
    }
    line
}

// An addition, where there is one.
fn put_added<W: Sink>(text: &[u8], out: &mut W) -> Result<(), SinkFault>
    ensures { Writes (is_ok result) (W.told out.old) (W.told out.new) (added text.now) }
{
    if text.is_empty() {
        return Ok(());
    }
    out.put(b"\t")?;
    out.put(text)
}

/// Adds the instruction of a line, where it tells one.
pub fn put_instruction<W: Sink>(told: TraceLine, out: &mut W) -> Result<(), SinkFault>
    ensures { Writes (is_ok result) (W.told out.old) (W.told out.new) (added (instruction_of told)) }
{
    let line = instruction_in(told);
    if is_shown(line.bytes()) {
        put_added(line.bytes(), out)
    } else {
        Ok(())
    }
}
