// Image files.
ghost use Rattle.std.specs.Prelude.{◌≡◌, ◌≤◌, length, IfOk};
ghost use Rattle.board_inputs.specs.ImageFile.{image_text};
ghost use Rattle.tool_frame.specs.Answers.{EndsOrWants};
ghost use Rattle.tool_work.specs.Files.{image_why, image_due};

use board_inputs::{ImageError, ImageWhy, read_image, write_image};
use board_outside::Sink;
use hart_memory::Image;
use hart_words::{Text, WantOfMemory};
use std::alloc::Global;
use tool_frame::{FileKind, Status, Stop, ended, line_of_refusal};

/// Image files: each gives an image.
#[derive(Drop)]
pub struct ImageFile;

fn image_why(why: ImageWhy) -> &'static str
    ensures text { result.now ≡ image_why why }
    ensures short { length result.now ≤ 13 }
{
    match why {
        ImageWhy::BadMagic => "BadMagic",
        ImageWhy::Truncated => "Truncated",
        ImageWhy::OutsideMemory => "OutsideMemory",
        ImageWhy::Overlap => "Overlap",
        ImageWhy::TooMany => "TooMany",
        ImageWhy::Trailing => "Trailing",
    }
}

/// The file of an image.
pub fn text_of_image(alloc: Global, image: &Image) -> Result<Text, WantOfMemory>
    ensures { IfOk result (λ text. text ≡ image_text image.now) }
{
    write_image(alloc, image)
}

/// Writes the file of an image.
pub fn put_image<W: Sink>(alloc: Global, image: &Image, out: &mut W) -> Status
    ensures { EndsOrWants result (W.told out.old) (W.told out.new) (image_due image.now) }
{
    match text_of_image(alloc, image) {
        Ok(text) => ended(out.put(text.bytes()), Status::Done),
        Err(_) => Status::Memory,
    }
}

impl FileKind for ImageFile {
    ghost use Rattle.std.specs.Prelude.{codes};
    ghost use Rattle.std.proofs.Common.{arith};
    ghost use Rattle.tool_work.specs.Files.{image_limit, image_read};

    type Value = Image;

    ghost role = { codes "image" };

    ghost stage = { λ _. image_read };

    ghost LIMIT = { image_limit };

    const LIMIT: u64 = 262_144;

    fn role() -> &'static str {
        "image"
    }

    #[tactic(auto, unfolding(crate::specs::Files::image_read))]
    fn read(&self, alloc: Global, bytes: &[u8]) -> Result<Image, Stop> {
        match read_image(alloc, bytes) {
            Ok(image) => Ok(image),
            Err(ImageError::Memory) => Err(Stop::Memory),
            Err(ImageError::Refused { place, why }) => {
                Err(Stop::Refused(line_of_refusal("image", image_why(why), place)))
            }
        }
    }

    ghost fetched = { omega arith };
}
