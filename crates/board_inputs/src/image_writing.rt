// Writes an image.
ghost use Rattle.std.specs.Prelude.{◌≡◌, ℕ, ◌++◌, ◌<◌, ◌^◌, List, length, Ok, OnOk, IfOk};
ghost use Rattle.byteorder.specs.Endian.{little_bytes};
ghost use Rattle.hart_memory.specs.Image.{AreSound};
ghost use Rattle.board_inputs.specs.ImageFile.{segment_text, image_text, IsImageFile};
ghost use Rattle.board_inputs.specs.ImageReading.{image_of};

use byteorder::{ByteOrder, LittleEndian};
use hart_memory::Image;
use hart_words::{Text, WantOfMemory};
use std::alloc::Global;

// Adds a number in four bytes.
fn put_number(text: &mut Text, number: u32) -> Result<(), WantOfMemory>
    ensures { OnOk result (text.new ≡ text.old ++ little_bytes 4 number) }
{
    let mut bytes = [0; 4];
    LittleEndian::write_u32(&mut bytes, number);
    text.push_bytes(&bytes)
}

// Adds a segment.
fn put_segment(text: &mut Text, at: u32, bytes: &[u8]) -> Result<(), WantOfMemory>
    requires { length bytes.now < 2 ^ 32 }
    ensures { OnOk result (text.new ≡ text.old ++ segment_text (record { address = at; content = bytes.now })) }
{
    put_number(text, at)?;
    put_number(text, bytes.len() as u32)?;
    text.push_bytes(bytes)
}

fn text_of(alloc: Global, image: &Image) -> Result<Text, WantOfMemory>
    ensures text { IfOk result (λ text. text ≡ image_text image.now) }
    ensures entry { image.now.start < 2 ^ 32 }
    ensures sound { AreSound image.now.segments }
{
    let entry = image.entry();
    let count = image.len();
    let mut text = Text::new(alloc);
    text.push_bytes(b"CLC1")?;
    put_number(&mut text, entry)?;
    put_number(&mut text, count as u32)?;
    for i in 0..count {
        put_segment(&mut text, image.at(i), image.bytes(i))?;
    }
    Ok(text)
}

/// The file of an image.
pub fn write_image(alloc: Global, image: &Image) -> Result<Text, WantOfMemory>
    // It is the image's file, and no other text is.
    ensures file { IfOk result (λ text. IsImageFile text image.now) }
    ensures one { IfOk result (λ text. (bytes : List ℕ) → IsImageFile bytes image.now → bytes ≡ text) }
    // Reading it gives the image.
    ensures again { IfOk result (λ text. image_of text ≡ Ok image.now) }
{
    text_of(alloc, image)
}
