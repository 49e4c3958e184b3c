// The parts of a line that tell a pair, a handler and a place.
ghost use Rattle.std.specs.Prelude.{◌≡◌, ◌++◌, codes, is_ok, option_map};
ghost use Rattle.board_outside.specs.Sink.{Writes};
ghost use Rattle.hart_words.specs.Hexadecimal.{hex8};
ghost use Rattle.chain_lint.specs.Texts.{why_name};
ghost use Rattle.lab_check.specs.Lines.{handler_text, name_or, no_start, offset_text, pair_start, place_by, place_text};

use crate::why_names::why_name;
use board_outside::{Sink, SinkFault};
use chain_flow::LintWhy;
use chain_lint::Pair;
use hart_words::Line;
use lab_names::Names;

/// An input and its level.
#[tactic(auto, unfolding(crate::specs::Lines::pair_start))]
pub fn pair_start(pair: Pair) -> Line
    ensures { result ≡ pair_start pair }
{
    let mut line = Line::new();
    line.put_dec(u64::from(pair.input));
    line.put_text(" ");
    line.put_dec(u64::from(pair.level));
    line.put_text(" ");
    line
}

/// A rule that refuses, and where.
#[tactic(auto, unfolding(crate::specs::Lines::no_start))]
pub fn no_start(why: LintWhy, at: u32) -> Line
    ensures { result ≡ no_start (why_name why) at }
{
    let mut line = Line::new();
    line.put_text("no ");
    line.put_text(why_name(why));
    line.put_text(" ");
    line.put_hex8(at);
    line
}

fn digits_of(at: u32) -> Line
    ensures { result ≡ hex8 at }
{
    let mut line = Line::new();
    line.put_hex8(at);
    line
}

// A name, or the digits of its address.
fn put_name_or<W: Sink>(at: u32, name: Option<&[u8]>, out: &mut W) -> Result<(), SinkFault>
    ensures { Writes (is_ok result) (W.told out.old) (W.told out.new) (name_or at (option_map (λ s. s.now) name.entry)) }
{
    match name {
        Some(name) => out.put(name),
        None => out.put(digits_of(at).bytes()),
    }
}

/// A handler's name, or its address.
pub fn put_handler<W: Sink>(names: &Names, at: Option<u32>, out: &mut W) -> Result<(), SinkFault>
    ensures { Writes (is_ok result) (W.told out.old) (W.told out.new) (handler_text names.now at) }
{
    match at {
        Some(at) => put_name_or(at, names.at(at), out),
        None => out.put(b"-"),
    }
}

// How far behind a name.
fn behind(offset: u32) -> Line
    ensures { result ≡ offset_text offset }
{
    let mut line = Line::new();
    if offset != 0 {
        line.put_text("+");
        line.put_dec(u64::from(offset));
    }
    line
}

fn put_parts<W: Sink>(name: &[u8], rest: &[u8], out: &mut W) -> Result<(), SinkFault>
    ensures { Writes (is_ok result) (W.told out.old) (W.told out.new) (codes " " ++ (name.now ++ rest.now)) }
{
    out.put(b" ")?;
    out.put(name)?;
    out.put(rest)
}

// A name and how far behind it, where there is one.
fn put_found<W: Sink>(found: Option<(&[u8], u32)>, out: &mut W) -> Result<(), SinkFault>
    ensures { Writes (is_ok result) (W.told out.old) (W.told out.new) (place_by (option_map (λ f. (f.0.now, f.1)) found.entry)) }
{
    match found {
        Some((name, offset)) => put_parts(name, behind(offset).bytes(), out),
        None => Ok(()),
    }
}

/// The name at or below an address, where there is one.
pub fn put_place<W: Sink>(names: &Names, at: u32, out: &mut W) -> Result<(), SinkFault>
    ensures { Writes (is_ok result) (W.told out.old) (W.told out.new) (place_text names.now at) }
{
    put_found(names.at_or_below(at), out)
}
