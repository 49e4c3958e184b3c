// The image that `gen` makes.
ghost use Rattle.std.specs.Prelude.{◌≡◌, ◌<◌, ◌++◌, ◌∷◌, [], length, true, false, IfOk, OnOk};
ghost use Rattle.hart_memory.specs.Place.{holds};
ghost use Rattle.hart_memory.specs.Image.{meets_any};
ghost use Rattle.hart_memory.specs.declared.image.TheConstants.{MAX_SEGMENTS};
ghost use Rattle.chain_moves.specs.Start.{words_bytes};
ghost use Rattle.tool_work.specs.GenImage.{segment_of, gen_code, gen_table, gen_image};

use hart_memory::Image;
use hart_words::{Text, WantOfMemory};
use std::alloc::Global;

// Where the code begins.
const START: u32 = 0x200;

// Where each handler stands.
const HANDLER: u32 = 0x270;

// The code, from START on.
#[tactic(auto, unfolding(crate::specs::GenImage::gen_code))]
fn code() -> [u32; 29]
    ensures { result ≡ gen_code }
{
    [
        0x2001_0137, // 200: lui sp, 0x20010
        0x0400_0293, // 204: addi t0, zero, 0x40
        0x3052_9073, // 208: csrrw zero, mtvec, t0
        0x1000_0293, // 20C: addi t0, zero, 0x100
        0x3072_9073, // 210: csrrw zero, mtvt, t0
        0x0200_0337, // 214: lui t1, 0x2000
        0x0040_0293, // 218: addi t0, zero, 4
        0x0053_0023, // 21C: sb t0, 0(t1)
        0x0200_1337, // 220: lui t1, 0x2001
        0x4002_02B7, // 224: lui t0, 0x40020
        0x1002_8293, // 228: addi t0, t0, 0x100
        0x0053_2623, // 22C: sw t0, 12(t1)
        0x0053_2A23, // 230: sw t0, 20(t1)
        0xC002_02B7, // 234: lui t0, 0xC0020
        0x1002_8293, // 238: addi t0, t0, 0x100
        0x0053_2E23, // 23C: sw t0, 28(t1)
        0x0002_02B7, // 240: lui t0, 0x20
        0x1002_8293, // 244: addi t0, t0, 0x100
        0x0253_2223, // 248: sw t0, 36(t1)
        0x8002_02B7, // 24C: lui t0, 0x80020
        0x1002_8293, // 250: addi t0, t0, 0x100
        0x0253_2623, // 254: sw t0, 44(t1)
        0x1F00_2983, // 258: lw s3, 0x1F0(zero)
        0x3004_6073, // 25C: csrrsi zero, mstatus, 8
        0xFFF9_8993, // 260: addi s3, s3, -1
        0xFE09_9EE3, // 264: bne s3, zero, 0x260
        0x1000_32B7, // 268: lui t0, 0x10003
        0x0002_A023, // 26C: sw zero, 0(t0)
        0x0000_8067, // 270: jalr zero, 0(ra)
    ]
}

// Adds a segment of one word.
#[tactic(auto, unfolding(chain_moves::specs::Start::words_bytes))]
fn add_word(image: &mut Image, at: u32, word: u32) -> Result<(), WantOfMemory>
    requires placed { holds at 4 ≡ true }
    requires apart { meets_any at 4 image.old.segments ≡ false }
    requires room { length image.old.segments < MAX_SEGMENTS }
    ensures { OnOk result (image.new ≡ record image.old { segments = image.old.segments ++ segment_of at (word ∷ []) ∷ [] }) }
{
    image.add(at, &word.to_le_bytes())
}

// Words as bytes.
fn text_of(alloc: Global, words: &[u32]) -> Result<Text, WantOfMemory>
    ensures { IfOk result (λ text. text ≡ words_bytes words.now) }
{
    let mut text = Text::new(alloc);
    for word in words {
        text.push_bytes(&word.to_le_bytes())?;
    }
    Ok(text)
}

// The segments of the table.
#[tactic(auto, unfolding(hart_memory::specs::Place::place, chain_moves::specs::Start::words_bytes))]
fn with_table(alloc: Global) -> Result<Image, WantOfMemory>
    ensures { IfOk result (λ image. image ≡ record { start = START; segments = gen_table }) }
{
    let mut image = Image::new(alloc, START);
    add_word(&mut image, 0x10C, HANDLER)?;
    add_word(&mut image, 0x114, HANDLER)?;
    add_word(&mut image, 0x11C, HANDLER)?;
    add_word(&mut image, 0x124, HANDLER)?;
    add_word(&mut image, 0x12C, HANDLER)?;
    Ok(image)
}

/// The image that is made of a number.
#[tactic(auto, unfolding(hart_memory::specs::Place::place, chain_moves::specs::Start::words_bytes, crate::specs::GenImage::gen_code, crate::specs::GenImage::gen_image))]
pub fn generated_image(alloc: Global, number: u16) -> Result<Image, WantOfMemory>
    ensures { IfOk result (λ image. image ≡ gen_image number) }
{
    let mut image = with_table(alloc)?;
    add_word(&mut image, 0x1F0, 8 * u32::from(number) + 100)?;
    let text = text_of(alloc, &code())?;
    image.add(START, text.bytes())?;
    Ok(image)
}
