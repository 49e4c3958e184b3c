// Whether an image leaves the slot free.
ghost use Rattle.chain_moves.specs.Slot.{IsLeastTaken};

use crate::slot::{BASE, SLOT_END};
use hart_memory::Image;

/// The least address of the slot at which the image has a byte.
pub fn slot_taken(image: &Image) -> Option<u32>
    ensures { IsLeastTaken image.now.segments result }
{
    for at in BASE..SLOT_END {
        if image.meets(at, 1) {
            return Some(at);
        }
    }
    None
}
