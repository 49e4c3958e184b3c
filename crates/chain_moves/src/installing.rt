// A dispatcher in the slot of a board.
ghost use Rattle.std.specs.Prelude.{◌≡◌, ◌-◌, ◌<◌, slice_index};
ghost use Rattle.chain_moves.specs.Slot.{base, slot_end};
ghost use Rattle.chain_moves.specs.Words.{HasDispatcher};
ghost use Rattle.chain_moves.specs.Start.{slot_bytes, installed};

use crate::dispatcher::{Dispatcher, slot_words};
use crate::slot::{BASE, SLOT_END};
use device_model::Device;
use hart_board::Board;

// The interrupt stack's pointer, where the image writes none: the end of RAM.
const FIRST_SCRATCH: u32 = 0x2001_0000;

// A byte of the slot.
fn slot_byte(d: Dispatcher, i: u32) -> u8
    requires { i < slot_end - base }
    ensures { result ≡ slice_index (slot_bytes d) i }
{
    ((slot_words(d)[(i / 4) as usize] >> (8 * (i % 4))) % 256) as u8
}

/// Puts a dispatcher into the slot, and the end of RAM into mscratch.
pub fn install<D: Device>(board: &mut Board<D>, d: Dispatcher)
    ensures board { board.new ≡ installed d board.old }
    ensures has { HasDispatcher d board.new.memory.rom }
{
    board.in_range();
    for i in 0..SLOT_END - BASE {
        board.place(BASE + i, slot_byte(d, i));
    }
    board.set_scratch(FIRST_SCRATCH);
}
