// Live frames, the outermost first.
ghost use Rattle.std.specs.Prelude.{◌≡◌, ◌<◌, length, reverse};
ghost use Rattle.chain_moves.specs.Watched.{outside_of};
ghost use Rattle.chain_moves.specs.Bytes.{some_byte, in_live_frame, overlaps};

use crate::mark::Mark;
use crate::slot::FRAME_SIZE;

/// Whether so many bytes meet the frame at an address.
pub fn overlap(at: u32, count: u32, frame: u32) -> bool
    ensures { result ≡ overlaps at count frame }
{
    u64::from(at) < u64::from(frame) + u64::from(FRAME_SIZE)
        && u64::from(frame) < u64::from(at) + u64::from(count)
}

/// Whether one of so many bytes from an address on is in a live frame.
pub fn meets(marks: &[Mark], at: u32, count: u32) -> bool
    requires { 0 < count }
    ensures { result ≡ some_byte (in_live_frame (reverse marks.now)) at count }
{
    for m in marks {
        if overlap(at, count, m.frame) {
            return true;
        }
    }
    false
}

/// The frames outside the innermost one.
#[tactic(auto, using(crate::proofs::Turned::outside))]
pub fn without_last(marks: &[Mark]) -> &[Mark]
    requires { 0 < length marks.now }
    ensures { reverse result.now ≡ outside_of (reverse marks.now) }
{
    &marks[..marks.len() - 1]
}
