// The line of a direct service.
ghost use Rattle.std.specs.Prelude.{is_ok};
ghost use Rattle.board_outside.specs.Sink.{Writes};
ghost use Rattle.chain_direct.specs.DirectText.{direct_line};

use board_outside::{Sink, SinkFault};
use chain_core::put_begun;

/// Writes that a direct service begins.
#[tactic(auto, unfolding(crate::specs::DirectText::direct_line))]
pub fn put_direct<W: Sink>(number: u32, level: u8, depth: u64, out: &mut W) -> Result<(), SinkFault>
    ensures { Writes (is_ok result) (W.told out.old) (W.told out.new) (direct_line number level depth) }
{
    put_begun("d ", number, level, depth, out)
}
