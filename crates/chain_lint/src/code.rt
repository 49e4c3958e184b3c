// The code of an image.
ghost use Rattle.std.specs.Prelude.{◌≡◌, [], length, IfOk, true};
ghost use Rattle.hart_memory.specs.Memory.{zero_memory};
ghost use Rattle.hart_memory.specs.Place.{holds};
ghost use Rattle.board_inputs.specs.ImageLoading.{with_bytes, with_segments};

use hart_memory::{Banks, Image};
use hart_words::WantOfMemory;
use std::alloc::Global;

// Puts bytes from an address on.
#[tactic(auto, unfolding(board_inputs::specs::ImageLoading::with_bytes))]
fn place_bytes(at: u32, bytes: &[u8], banks: &mut Banks)
    requires { holds at (length bytes.now) ≡ true }
    ensures { banks.new ≡ record banks.old { present = with_bytes at bytes.now banks.old.present } }
{
    for (i, byte) in bytes.iter().enumerate() {
        banks.place(at + i as u32, *byte);
    }
}

// Puts each segment's bytes.
#[tactic(auto, unfolding(board_inputs::specs::ImageLoading::with_segments))]
fn place_segments(image: &Image, banks: &mut Banks)
    ensures { banks.new ≡ record banks.old { present = with_segments image.now.segments banks.old.present } }
{
    for i in 0..image.len() {
        place_bytes(image.at(i), image.bytes(i), banks);
    }
}

/// The memory that an image makes.
pub fn memory_of(alloc: Global, image: &Image) -> Result<Banks, WantOfMemory>
    ensures { IfOk result (λ banks. banks ≡ record { present = with_segments image.now.segments zero_memory; kept = [] }) }
{
    let mut banks = Banks::new(alloc)?;
    place_segments(image, &mut banks);
    Ok(banks)
}
