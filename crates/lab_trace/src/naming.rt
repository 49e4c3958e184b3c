// Names in a trace.
ghost use Rattle.std.specs.Prelude.{◌≡◌, is_ok, option_map};
ghost use Rattle.board_outside.specs.Sink.{Writes};
ghost use Rattle.hart_words.specs.Lines.{lines_left};
ghost use Rattle.lab_trace.specs.Added.{added};
ghost use Rattle.lab_trace.specs.Named.{address_first, name_of, named_line, named_piece, named_text, place_text};

use crate::reading::{address_of, line_told};
use crate::trace_line::TraceLine;
use crate::writing::{put_instruction, put_name, put_spelled};
use board_outside::{Sink, SinkFault};
use hart_words::cut_line;
use lab_names::Names;

// Adds the name at or below an address, where there is one.
fn put_place<W: Sink>(names: &Names, at: Option<u32>, out: &mut W) -> Result<(), SinkFault>
    ensures { Writes (is_ok result) (W.told out.old) (W.told out.new) (added (place_text names.now at)) }
{
    match at {
        Some(at) => put_name(names.at_or_below(at), out),
        None => Ok(()),
    }
}

// Adds the name of what a line tells, before a line that tells this address.
fn put_name_of<W: Sink>(
    names: &Names,
    told: TraceLine,
    next: Option<u32>,
    out: &mut W,
) -> Result<(), SinkFault>
    ensures { Writes (is_ok result) (W.told out.old) (W.told out.new) (added (name_of names.now next told)) }
{
    match told {
        TraceLine::Word { pc, .. } | TraceLine::Half { pc, .. } | TraceLine::Entry { pc } => {
            put_name(names.at_or_below(pc), out)
        }
        TraceLine::Service => put_place(names, next, out),
        TraceLine::Other => Ok(()),
    }
}

// Writes a line, which is given without its line feed, before one that tells this address.
#[tactic(auto, unfolding(crate::specs::Named::named_line))]
fn put_line<W: Sink>(
    names: &Names,
    line: &[u8],
    next: Option<u32>,
    out: &mut W,
) -> Result<(), SinkFault>
    ensures { Writes (is_ok result) (W.told out.old) (W.told out.new) (named_line names.now next line.now) }
{
    let told = line_told(line);
    put_spelled(line, out)?;
    put_name_of(names, told, next, out)?;
    put_instruction(told, out)?;
    out.put(b"\n")
}

// Writes a line, or what stands behind the last one.
fn put_piece<W: Sink>(
    names: &Names,
    piece: &[u8],
    next: Option<u32>,
    line: bool,
    out: &mut W,
) -> Result<(), SinkFault>
    ensures { Writes (is_ok result) (W.told out.old) (W.told out.new) (named_piece names.now next line piece.now) }
{
    if line {
        put_line(names, piece, next, out)
    } else {
        put_spelled(piece, out)
    }
}

// The address that the first line of what follows tells.
fn address_behind(after: Option<&[u8]>) -> Option<u32>
    ensures { result ≡ address_first (lines_left (option_map (λ s. s.now) after.entry)) }
{
    match after {
        Some(text) => {
            let (line, _) = cut_line(text);
            address_of(line_told(line))
        }
        None => None,
    }
}

/// Writes a text with what is added to each of its lines.
#[tactic(auto, unfolding(crate::specs::Named::named_text))]
pub fn put_named_text<W: Sink>(names: &Names, text: &[u8], out: &mut W) -> Result<(), SinkFault>
    ensures { Writes (is_ok result) (W.told out.old) (W.told out.new) (named_text names.now text.now) }
{
    let mut rest = Some(text);
    while let Some(text) = rest {
        let (piece, after) = cut_line(text);
        put_piece(names, piece, address_behind(after), after.is_some(), out)?;
        rest = after;
    }
    Ok(())
}
