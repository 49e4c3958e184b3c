// Loads an image into a board.
ghost use Rattle.std.specs.Prelude.{◌≡◌, length, true};
ghost use Rattle.hart_memory.specs.Place.{holds};
ghost use Rattle.board_inputs.specs.ImageLoading.{with_bytes, with_segments, loaded, Loads};

use device_model::Device;
use hart_board::Board;
use hart_memory::Image;
use hart_memory::laws::banks_are_whole;

// Puts bytes from an address on.
#[tactic(auto, unfolding(crate::specs::ImageLoading::with_bytes))]
fn place_bytes<D: Device>(at: u32, bytes: &[u8], board: &mut Board<D>)
    requires { holds at (length bytes.now) ≡ true }
    ensures { board.new ≡ record board.old { memory = with_bytes at bytes.now board.old.memory } }
{
    for (i, byte) in bytes.iter().enumerate() {
        board.place(at + i as u32, *byte);
    }
}

// Puts each segment's bytes.
#[tactic(auto, unfolding(crate::specs::ImageLoading::with_segments))]
fn place_segments<D: Device>(image: &Image, board: &mut Board<D>)
    ensures { board.new ≡ record board.old { memory = with_segments image.now.segments board.old.memory } }
{
    for i in 0..image.len() {
        place_bytes(image.at(i), image.bytes(i), board);
    }
}

/// Puts each segment's bytes into the board's memory, ROM or RAM, and goes on at the entry with bit 0 cleared.
pub fn load_image<D: Device>(image: &Image, board: &mut Board<D>)
    ensures exact { board.new ≡ loaded image.now board.old }
    ensures loads { Loads image.now board.old board.new }
{
    let _segments = image.len();
    banks_are_whole(board.banks());
    place_segments(image, board);
    board.set_pc(image.entry());
}
