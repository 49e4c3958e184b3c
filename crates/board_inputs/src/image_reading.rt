// Reads an image.
ghost use Rattle.std.specs.Prelude.{◌≡◌, ℕ, ◌+◌, ◌<◌, ◌≤◌, ◌^◌, List, [], length, Ok, Err, IfOk, OnOk};
ghost use Rattle.hart_memory.specs.Image.{ImageView};
ghost use Rattle.hart_memory.specs.declared.image.TheConstants.{MAX_SEGMENTS};
ghost use Rattle.board_inputs.specs.ImageFile.{IsImageFile};
ghost use Rattle.board_inputs.specs.ImageReading.{Gives, AddsSegment, AddsSegments, is_placed, field_at, magic_at, end_at, segment_at, segments_from, image_of};
ghost use Rattle.board_inputs.specs.declared.image_error.ImageError.TheVariants.{Refused};

use crate::image_error::ImageError;
use crate::image_why::ImageWhy;
use byteorder::{ByteOrder, LittleEndian};
use hart_memory::{Image, MAX_SEGMENTS, place_of};
use std::alloc::Global;

// "CLC1" as a number, its first letter lowest.
const MAGIC: u32 = 0x3143_4C43;

// Refuses what stands at a place.
fn refused<T>(place: u32, why: ImageWhy) -> Result<T, ImageError>
    ensures { result ≡ Err (Refused place why) }
{
    Err(ImageError::Refused { place, why })
}

// The number in the four bytes at a place.
fn field(bytes: &[u8], place: u32) -> Result<u32, ImageError>
    requires { length bytes.now < 2 ^ 32 }
    ensures gives { Gives (λ n. n) result (field_at place bytes.now) }
    ensures inside { OnOk result (place + 4 ≤ length bytes.now) }
{
    let place_at = place as usize;
    if bytes.len() < place_at + 4 {
        return refused(place, ImageWhy::Truncated);
    }
    Ok(LittleEndian::read_u32(&bytes[place_at..]))
}

fn magic(bytes: &[u8]) -> Result<u32, ImageError>
    requires { length bytes.now < 2 ^ 32 }
    ensures { Gives (λ n. n) result (magic_at bytes.now) }
{
    let number = field(bytes, 0)?;
    if number == MAGIC {
        return Ok(number);
    }
    refused(0, ImageWhy::BadMagic)
}

// Whether so many bytes from an address on are at least one, and lie in one memory.
fn is_placed(at: u32, count: u32) -> bool
    ensures { result ≡ is_placed at count }
{
    count > 0 && place_of(at, count).is_in_memory()
}

// Reads the segment whose address stands at a place, adds it, and answers where the next one stands.
#[tactic(auto, unfolding(crate::specs::ImageReading::segment_at))]
fn read_segment(bytes: &[u8], place: u32, image: &mut Image) -> Result<u32, ImageError>
    requires short { length bytes.now < 2 ^ 32 }
    requires room { length image.old.segments < MAX_SEGMENTS }
    ensures adds { AddsSegment place image.old image.new result (segment_at place image.old.segments bytes.now) }
    ensures inside { IfOk result (λ next. next ≤ length bytes.now) }
{
    let at = field(bytes, place)?;
    let count = field(bytes, place + 4)?;
    if !is_placed(at, count) {
        return refused(place, ImageWhy::OutsideMemory);
    }
    if image.meets(at, count) {
        return refused(place, ImageWhy::Overlap);
    }
    let first = place + 8;
    if bytes.len() - (first as usize) < count as usize {
        return refused(first, ImageWhy::Truncated);
    }
    image.add(at, &bytes[first as usize..(first + count) as usize])?;
    Ok(first + count)
}

// Refuses bytes that stand where the file is to end.
fn check_end(bytes: &[u8], place: u32) -> Result<(), ImageError>
    ensures { Gives (λ done. done) result (end_at place bytes.now) }
{
    if bytes.len() > place as usize {
        return refused(place, ImageWhy::Trailing);
    }
    Ok(())
}

// Reads the segments of an image that has none yet.
fn read_segments(bytes: &[u8], count: u32, image: &mut Image) -> Result<(), ImageError>
    requires short { length bytes.now < 2 ^ 32 }
    requires few { count ≤ MAX_SEGMENTS }
    requires none { image.old.segments ≡ [] }
    ensures { AddsSegments image.old image.new result (segments_from count 12 [] bytes.now) }
{
    let mut place = 12;
    for _ in 0..count {
        place = read_segment(bytes, place, image)?;
    }
    check_end(bytes, place)
}

#[tactic(auto, unfolding(crate::specs::ImageReading::image_of))]
fn image_in(alloc: Global, bytes: &[u8]) -> Result<Image, ImageError>
    requires { length bytes.now < 2 ^ 32 }
    ensures { Gives (λ i. i) result (image_of bytes.now) }
{
    magic(bytes)?;
    let entry = field(bytes, 4)?;
    let count = field(bytes, 8)?;
    if count as usize > MAX_SEGMENTS {
        return refused(8, ImageWhy::TooMany);
    }
    let mut image = Image::new(alloc, entry);
    read_segments(bytes, count, &mut image)?;
    Ok(image)
}

/// The image whose file these bytes are.
pub fn read_image(alloc: Global, bytes: &[u8]) -> Result<Image, ImageError>
    requires { length bytes.now < 2 ^ 32 }
    // What is read is the file's image.
    ensures found { IfOk result (λ i. IsImageFile bytes.now i) }
    // The file of an image is read, unless memory was wanting.
    ensures only { (i : ImageView) → IsImageFile bytes.now i → Gives (λ i. i) result (Ok i) }
    // Otherwise it is the first refusal, with its place.
    ensures exact { Gives (λ i. i) result (image_of bytes.now) }
{
    image_in(alloc, bytes)
}
