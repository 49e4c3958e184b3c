// Writes an image as memory text.
ghost use Rattle.std.specs.Prelude.{◌≡◌, ◌++◌, ◌∷◌, [], ◌<◌, ◌≤◌, length, Ok, OnOk, IfOk};
ghost use Rattle.std.specs.List.{All};
ghost use Rattle.hart_memory.specs.Image.{AreSound};
ghost use Rattle.hart_words.specs.Hexadecimal.{hex2, hex8};
ghost use Rattle.mem_text.specs.Items.{IsMemoryText};
ghost use Rattle.mem_text.specs.Reading.{read_text};
ghost use Rattle.mem_text.specs.Writing.{mark_behind, bytes_text, segment_text, memory_text, IsBytes};

use hart_memory::Image;
use hart_words::{Line, Text, WantOfMemory};
use std::alloc::Global;

// How many bytes a line has.
const PER_LINE: usize = 16;

// What stands behind byte k of so many.
fn mark_behind(count: usize, k: usize) -> &'static str
    requires { k < count }
    ensures { result.now ≡ mark_behind count k ∷ [] }
{
    if k % PER_LINE == PER_LINE - 1 || k + 1 == count {
        "\n"
    } else {
        " "
    }
}

fn put_address(text: &mut Text, at: u32) -> Result<(), WantOfMemory>
    ensures { OnOk result (text.new ≡ text.old ++ (64 ∷ hex8 at ++ 10 ∷ [])) }
{
    let mut line = Line::new();
    line.put_text("@");
    line.put_hex8(at);
    line.put_text("\n");
    text.push_bytes(line.bytes())
}

fn put_byte(text: &mut Text, byte: u8, mark: &str) -> Result<(), WantOfMemory>
    requires { length mark.now ≤ 1 }
    ensures { OnOk result (text.new ≡ text.old ++ (hex2 byte ++ mark.now)) }
{
    let mut line = Line::new();
    line.put_hex2(byte);
    line.put_text(mark);
    text.push_bytes(line.bytes())
}

fn put_bytes(text: &mut Text, bytes: &[u8]) -> Result<(), WantOfMemory>
    ensures { OnOk result (text.new ≡ text.old ++ bytes_text (length bytes.now) 0 bytes.now) }
{
    for (k, byte) in bytes.iter().enumerate() {
        put_byte(text, *byte, mark_behind(bytes.len(), k))?;
    }
    Ok(())
}

// Adds a segment.
fn put_segment(text: &mut Text, at: u32, bytes: &[u8]) -> Result<(), WantOfMemory>
    ensures bytes { All (λ b. b < 256) bytes.now }
    ensures text { OnOk result (text.new ≡ text.old ++ segment_text (record { address = at; content = bytes.now })) }
{
    put_address(text, at)?;
    put_bytes(text, bytes)
}

fn text_of(alloc: Global, image: &Image) -> Result<Text, WantOfMemory>
    ensures text { IfOk result (λ text. text ≡ memory_text image.now) }
    ensures sound { AreSound image.now.segments }
    ensures bytes { IfOk result (λ text. All IsBytes image.now.segments) }
{
    let count = image.len();
    let mut text = Text::new(alloc);
    for i in 0..count {
        put_segment(&mut text, image.at(i), image.bytes(i))?;
    }
    Ok(text)
}

/// The memory text of an image. Its entry isn't in it.
pub fn write_mem(alloc: Global, image: &Image) -> Result<Text, WantOfMemory>
    ensures text { IfOk result (λ text. text ≡ memory_text image.now) }
    ensures is { IfOk result (λ text. IsMemoryText text image.now.start image.now) }
    // Reading it gives the image.
    ensures again { IfOk result (λ text. read_text image.now.start text ≡ Ok image.now) }
{
    text_of(alloc, image)
}
