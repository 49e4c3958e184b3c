// Why no image was read.
ghost use Rattle.std.specs.Prelude.{◌≡◌};
ghost use Rattle.board_inputs.specs.declared.image_error.ImageError.TheVariants.{Memory};

use crate::image_why::ImageWhy;
use hart_words::WantOfMemory;
use thiserror::Error;

/// Why no image was read.
#[derive(Clone, Copy, Debug, PartialEq, Eq, Drop, Error)]
pub enum ImageError {
    #[error("memory was wanting")]
    Memory,
    /// The first thing that is wrong. `place` counts the file's bytes from 0.
    #[error("{why:?} at byte {place}")]
    Refused { place: u32, why: ImageWhy },
}

impl From<WantOfMemory> for ImageError {
    ghost from_gives = { λ _ e. e ≡ Memory };

    fn from(_: WantOfMemory) -> ImageError {
        ImageError::Memory
    }
}
