// The lines of the monitor.
ghost use Rattle.std.specs.Prelude.{◌≡◌, ◌≤◌, ◌++◌, length, is_ok, codes};
ghost use Rattle.board_outside.specs.Sink.{Writes};
ghost use Rattle.hart_words.specs.Hexadecimal.{hex8};
ghost use Rattle.hart_monitor.specs.Texts.{stop_word, stop_line, break_line, back_line};

use crate::stop::Stop;
use board_outside::{Sink, SinkFault};
use hart_words::Line;

fn stop_word(why: Stop) -> &'static str
    ensures text { result.now ≡ stop_word why }
    ensures short { length result.now ≤ 6 }
{
    match why {
        Stop::Halt => "halt",
        Stop::Break => "break",
        Stop::Budget => "budget",
        Stop::Vector => "vector",
    }
}

/// Writes why a run stopped, and pc.
#[tactic(auto, unfolding(crate::specs::Texts::stop_line))]
pub(crate) fn put_stop<W: Sink>(why: Stop, pc: u32, out: &mut W) -> Result<(), SinkFault>
    ensures { Writes (is_ok result) (W.told out.old) (W.told out.new) (stop_line why pc) }
{
    let mut line = Line::new();
    line.put_text("stop ");
    line.put_text(stop_word(why));
    line.put_text(" ");
    line.put_hex8(pc);
    line.put_text("\n");
    out.put(line.bytes())
}

// Writes some words and an address.
fn put_address<W: Sink>(words: &str, at: u32, out: &mut W) -> Result<(), SinkFault>
    requires { length words.now ≤ 6 }
    ensures { Writes (is_ok result) (W.told out.old) (W.told out.new) (words.now ++ hex8 at ++ codes "\n") }
{
    let mut line = Line::new();
    line.put_text(words);
    line.put_hex8(at);
    line.put_text("\n");
    out.put(line.bytes())
}

/// Writes that a breakpoint stands at the address, or that there is no room for it.
#[tactic(auto, unfolding(crate::specs::Texts::break_line))]
pub(crate) fn put_break<W: Sink>(stands: bool, at: u32, out: &mut W) -> Result<(), SinkFault>
    ensures { Writes (is_ok result) (W.told out.old) (W.told out.new) (break_line stands at) }
{
    if stands {
        put_address("break ", at, out)
    } else {
        out.put("breaks full\n".as_bytes())
    }
}

/// Writes that the board went back, and pc, or that nothing was kept.
#[tactic(auto, unfolding(crate::specs::Texts::back_line))]
pub(crate) fn put_back<W: Sink>(went: bool, pc: u32, out: &mut W) -> Result<(), SinkFault>
    ensures { Writes (is_ok result) (W.told out.old) (W.told out.new) (back_line went pc) }
{
    if went {
        put_address("back ", pc, out)
    } else {
        out.put("no earlier state\n".as_bytes())
    }
}
