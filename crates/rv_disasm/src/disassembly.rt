// The disassembler.
ghost use Rattle.std.specs.Prelude.{◌≡◌, ◌++◌, ◌∷◌, [], ◌+◌, ◌<◌, ◌≤◌, ◌^◌, length, drop, slice_get, true, Ok, OnOk, IfOk, IfSome};
ghost use Rattle.std.specs.List.{flat_map};
ghost use Rattle.hart_memory.specs.Place.{holds};
ghost use Rattle.hart_memory.specs.Image.{AreSound};
ghost use Rattle.hart_memory.specs.Memory.{AreBytes};
ghost use Rattle.rv_assembler.specs.Source.{assembled};
ghost use Rattle.rv_disasm.specs.Listing.{heading, listing, segment_text, image_text};

use crate::listing::{push_line, push_listing};
use crate::statement::Statement;
use hart_memory::Image;
use hart_words::{Text, WantOfMemory};
use std::alloc::Global;

/// The listing of the bytes, which stand from `base` on: a line for each instruction, and a directive for what is none.
///
/// Below an `.entry` and an `.org` line with `base` it is source that is assembled to the bytes.
pub fn disassemble(alloc: Global, bytes: &[u8], base: u32) -> Result<Text, WantOfMemory>
    requires { base + length bytes.now ≤ 2 ^ 32 }
    ensures listing { IfOk result (λ text. text ≡ listing base bytes.now) }
    ensures again { IfOk result (λ text. 0 < length bytes.now → holds base (length bytes.now) ≡ true → assembled (heading base ++ text) ≡ Ok (record { image = record { start = base; segments = record { address = base; content = bytes.now } ∷ [] }; symbols = [] })) }
{
    let mut text = Text::new(alloc);
    push_listing(&mut text, bytes, base)?;
    Ok(text)
}

fn push_segment(text: &mut Text, image: &Image, i: usize) -> Result<(), WantOfMemory>
    requires inside { i < length image.now.segments }
    requires sound { AreSound image.now.segments }
    ensures text { OnOk result (text.new ++ flat_map segment_text (drop (i + 1) image.now.segments) ≡ text.old ++ flat_map segment_text (drop i image.now.segments)) }
    ensures bytes { OnOk result (IfSome (slice_get image.now.segments i) (λ s. AreBytes s.content)) }
{
    let base = image.at(i);
    push_line(text, &Statement::Org(base), 0)?;
    push_listing(text, image.bytes(i), base)
}

/// The source of an image: its entry, and for each segment its place and its listing. It is assembled to the image.
pub fn disassemble_image(alloc: Global, image: &Image) -> Result<Text, WantOfMemory>
    ensures source { IfOk result (λ text. text ≡ image_text image.now) }
    ensures again { IfOk result (λ text. assembled text ≡ Ok (record { image = image.now; symbols = [] })) }
{
    let mut text = Text::new(alloc);
    push_line(&mut text, &Statement::Entry(image.entry()), 0)?;
    for i in 0..image.len() {
        push_segment(&mut text, image, i)?;
    }
    Ok(text)
}
