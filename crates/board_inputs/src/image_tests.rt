use super::*;
use board_devices::shipped;
use clic_regs::Shape;
use hart_board::Board;
use hart_memory::{Image, place_of};
use std::alloc::Global;
use std::process::Abort;
use std::test::Fail;

// What reading answers: the number of segments, or the place and what is wrong there.
fn answer(rt: &impl Abort, alloc: Global, bytes: &[u8]) -> Result<usize, ImageError> {
    assert!(rt; bytes.len() < 0x1_0000_0000);
    Ok(read_image(alloc, bytes)?.len())
}

fn refused(place: u32, why: ImageWhy) -> Result<usize, ImageError> {
    Err(ImageError::Refused { place, why })
}

#[test]
fn heads_that_are_refused(rt: HostRuntime) {
    let cases = [
        (b"".as_slice(), 0, ImageWhy::Truncated),
        (b"CLC".as_slice(), 0, ImageWhy::Truncated),
        (b"XXXX".as_slice(), 0, ImageWhy::BadMagic),
        (b"clc1\0\0\0\0\0\0\0\0".as_slice(), 0, ImageWhy::BadMagic),
        (b"CLC1\0\0".as_slice(), 4, ImageWhy::Truncated),
        (b"CLC1\0\0\0\0\0\0".as_slice(), 8, ImageWhy::Truncated),
        (b"CLC1\0\0\0\0\x41\0\0\0".as_slice(), 8, ImageWhy::TooMany),
        (b"CLC1\0\0\0\0\0\0\0\x01".as_slice(), 8, ImageWhy::TooMany),
        (b"CLC1\0\0\0\0\0\0\0\0\0".as_slice(), 12, ImageWhy::Trailing),
    ];
    for (bytes, place, why) in cases {
        assert_eq!(rt;
            answer(&rt, rt.alloc(), bytes),
            refused(place, why),
            "place {place}"
        );
    }
}

// What follows the head of an image of so many segments.
fn answer_after(
    rt: &impl Abort,
    alloc: Global,
    count: u8,
    rest: &[u8],
) -> Result<Result<usize, ImageError>, Fail> {
    let mut bytes = Vec::from_slice(alloc, b"CLC1\0\x02\0\0")?;
    bytes.extend_from_slice(&[count, 0, 0, 0])?;
    bytes.extend_from_slice(rest)?;
    Ok(answer(rt, alloc, &bytes))
}

// That an image of one segment, whose bytes follow its head, is refused so.
fn assert_segment_refused(
    rt: &impl Abort,
    alloc: Global,
    segment: &[u8],
    place: u32,
    why: ImageWhy,
) -> Result<(), Fail> {
    assert_eq!(rt;
        answer_after(rt, alloc, 1, segment)?,
        refused(place, why),
        "place {place}"
    );
    Ok(())
}

#[test]
fn segments_that_are_cut_or_too_long(rt: HostRuntime) -> Result<(), Fail> {
    let cases = [
        (b"".as_slice(), 12, ImageWhy::Truncated),
        (b"\0\0\0\0\x01\0".as_slice(), 16, ImageWhy::Truncated),
        (
            b"\0\0\0\0\x04\0\0\0\x01\x02".as_slice(),
            20,
            ImageWhy::Truncated,
        ),
        (
            b"\0\0\0\0\x01\0\0\0\x01\x02".as_slice(),
            21,
            ImageWhy::Trailing,
        ),
    ];
    for (segment, place, why) in cases {
        assert_segment_refused(&rt, rt.alloc(), segment, place, why)?;
    }
    Ok(())
}

#[test]
fn segments_outside_memory(rt: HostRuntime) -> Result<(), Fail> {
    let segments = [
        b"\xFE\xFF\0\0\x04\0\0\0\x01\x02\x03\x04".as_slice(),
        b"\xFF\xFF\xFF\xFF\x02\0\0\0\x01\x02".as_slice(),
        b"\0\0\0\0\0\0\0\0".as_slice(),
        b"\xFF\xFF\xFF\x1F\x02\0\0\0\x01\x02".as_slice(),
    ];
    for segment in segments {
        assert_segment_refused(&rt, rt.alloc(), segment, 12, ImageWhy::OutsideMemory)?;
    }
    Ok(())
}

#[test]
fn two_segments(rt: HostRuntime) -> Result<(), Fail> {
    let first = b"\0\0\0\0\x01\0\0\0\x07";
    let cases = [
        (
            b"\0\0\0\0\x01\0\0\0\x07".as_slice(),
            refused(21, ImageWhy::Overlap),
        ),
        (b"\x01\0\0\0\x01\0\0\0\x07".as_slice(), Ok(2)),
        (b"\0\0\0\x20\x01\0\0\0\x07".as_slice(), Ok(2)),
        (
            b"\0\0\0\0\x02\0\0\0".as_slice(),
            refused(21, ImageWhy::Overlap),
        ),
    ];
    for (second, want) in cases {
        let mut rest = Vec::from_slice(rt.alloc(), first)?;
        rest.extend_from_slice(second)?;
        assert_eq!(rt; answer_after(&rt, rt.alloc(), 2, &rest)?, want);
    }
    Ok(())
}

// A segment that is a whole memory.
fn add_whole_memory(bytes: &mut Vec<u8>, highest: u8, count: u32) -> Result<(), Fail> {
    bytes.extend_from_slice(&[0, 0, 0, highest, 0, 0, 1, 0])?;
    for _ in 0..count {
        bytes.push(7)?;
    }
    Ok(())
}

#[test]
fn both_memories_are_filled(rt: HostRuntime) -> Result<(), Fail> {
    let mut rest = Vec::new(rt.alloc());
    add_whole_memory(&mut rest, 0, 65_536)?;
    add_whole_memory(&mut rest, 0x20, 65_535)?;
    let cut = answer_after(&rt, rt.alloc(), 2, &rest)?;
    assert_eq!(rt; cut, refused(65_564, ImageWhy::Truncated));
    rest.push(7)?;
    assert_eq!(rt; answer_after(&rt, rt.alloc(), 2, &rest)?, Ok(2));
    Ok(())
}

// Loads 5 into a0 and halts with it; the second segment is in RAM.
fn small_image(rt: &impl Abort, alloc: Global) -> Result<Image, Fail> {
    let mut image = Image::new(alloc, 0x201);
    assert!(rt; place_of(0, 4).is_in_memory());
    image.add(0, b"\x13\x05\x50\0")?;
    assert!(rt; place_of(0x2000_FFFE, 2).is_in_memory());
    assert!(rt; !image.meets(0x2000_FFFE, 2));
    assert!(rt; image.len() < 64);
    image.add(0x2000_FFFE, b"\xAB\xCD")?;
    Ok(image)
}

const SMALL: &[u8] =
    b"CLC1\x01\x02\0\0\x02\0\0\0\0\0\0\0\x04\0\0\0\x13\x05\x50\0\xFE\xFF\0\x20\x02\0\0\0\xAB\xCD";

#[test]
fn written_and_read_again(rt: HostRuntime) -> Result<(), Fail> {
    let image = small_image(&rt, rt.alloc())?;
    let text = write_image(rt.alloc(), &image)?;
    assert!(rt; text.bytes() == SMALL);
    let again = read_image(rt.alloc(), SMALL)?;
    assert_eq!(rt; again.entry(), 0x201);
    assert_eq!(rt; again.len(), 2);
    assert!(rt; again.bytes(0) == b"\x13\x05\x50\0".as_slice());
    assert_eq!(rt; again.at(1), 0x2000_FFFE);
    Ok(())
}

#[test]
fn loaded_into_a_board(rt: HostRuntime) -> Result<(), Fail> {
    let mut board = Board::new(rt.alloc(), shipped(rt.alloc())?, Shape::plain())?;
    let image = small_image(&rt, rt.alloc())?;
    load_image(&image, &mut board);
    let bytes = [
        (0x0000_0000, 0x13),
        (0x0000_0002, 0x50),
        (0x0000_0004, 0),
        (0x2000_FFFE, 0xAB),
        (0x2000_FFFF, 0xCD),
    ];
    for (at, want) in bytes {
        assert!(rt; board.banks().holds(at, 1));
        assert_eq!(rt; board.byte(at), want, "{at}");
    }
    assert_eq!(rt; board.pc(), 0x200);
    Ok(())
}
