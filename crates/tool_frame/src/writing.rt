// The lines that any command may write.
ghost use Rattle.std.specs.Prelude.{◌≡◌, ◌++◌, is_ok};
ghost use Rattle.board_outside.specs.Sink.{Writes};
ghost use Rattle.tool_frame.specs.Lines.{named_line};

use board_outside::{Sink, SinkFault};

// Writes one text, and then another.
fn put_both<W: Sink>(first: &[u8], second: &[u8], out: &mut W) -> Result<(), SinkFault>
    ensures { Writes (is_ok result) (W.told out.old) (W.told out.new) (first.now ++ second.now) }
{
    match out.put(first) {
        Ok(()) => out.put(second),
        Err(fault) => Err(fault),
    }
}

/// Writes a line that ends with a name.
pub fn put_named<W: Sink>(start: &[u8], name: &str, out: &mut W) -> Result<(), SinkFault>
    ensures { Writes (is_ok result) (W.told out.old) (W.told out.new) (named_line start.now name.now) }
{
    match put_both(start, name.as_bytes(), out) {
        Ok(()) => out.put(b"\n"),
        Err(fault) => Err(fault),
    }
}
