use super::*;
use hart_memory::{Image, place_of};
use std::alloc::Global;
use std::process::Abort;
use std::test::Fail;

// What reading a text in three pieces answers.
fn read_cut(
    rt: &impl Abort,
    alloc: Global,
    text: &[u8],
    first: usize,
    second: usize,
) -> Result<Image, MemError> {
    assert!(rt; text.len() < 0x4000_0000);
    assert!(rt; first <= second && second <= text.len());
    let mut reader = MemReader::new(alloc, 7);
    reader.feed(&text[..first])?;
    reader.feed(&text[first..second])?;
    reader.feed(&text[second..])?;
    reader.finish()
}

fn read(rt: &impl Abort, alloc: Global, text: &[u8]) -> Result<Image, MemError> {
    read_cut(rt, alloc, text, 0, text.len())
}

fn refused(place: u32, why: MemWhy) -> Result<usize, MemError> {
    Err(MemError::Refused { place, why })
}

// The number of segments, or what is wrong.
fn answer(rt: &impl Abort, alloc: Global, text: &[u8]) -> Result<usize, MemError> {
    Ok(read(rt, alloc, text)?.len())
}

const FIRST: &[u8] = b"\x13\x05\x50\x00\xB7\x32\x00\x10\x23\xA0\xA2\x00";

const FIRST_TEXT: &[u8] = b"@00000000\n13 05 50 00 B7 32 00 10 23 A0 A2 00\n";

#[test]
fn cut_after_every_byte(rt: HostRuntime) -> Result<(), Fail> {
    for first in 0..FIRST_TEXT.len() {
        for second in first..FIRST_TEXT.len() {
            let image = read_cut(&rt, rt.alloc(), FIRST_TEXT, first, second)?;
            assert_eq!(rt; image.entry(), 7);
            assert_eq!(rt; image.len(), 1);
            assert_eq!(rt; image.at(0), 0);
            assert!(rt; image.bytes(0) == FIRST);
        }
    }
    Ok(())
}

#[test]
fn texts_that_are_read(rt: HostRuntime) {
    let cases = [
        (b"".as_slice(), 0),
        (b"@20000000 @100\t@5".as_slice(), 0),
        (b"1".as_slice(), 1),
        (b"f_F_ /* 0**/@1_0_\x0C1/**/2//x\r3\n4".as_slice(), 2),
        (b"@0 1 @1 2 @10000000_ @20000000\r\n3".as_slice(), 3),
        (b"@ffff 1 @2000FFFF 2".as_slice(), 2),
    ];
    for (text, segments) in cases {
        assert_eq!(rt; answer(&rt, rt.alloc(), text), Ok(segments), "{segments}");
    }
}

#[test]
fn texts_that_are_refused(rt: HostRuntime) {
    let cases = [
        (b"@FFFF 01 02".as_slice(), 9, MemWhy::OutsideMemory),
        (b"@FFFFFFFF 1x".as_slice(), 10, MemWhy::OutsideMemory),
        (b"1x".as_slice(), 1, MemWhy::BadByte),
        (b"/* a".as_slice(), 4, MemWhy::Truncated),
        (b"/*/".as_slice(), 3, MemWhy::Truncated),
        (b"/".as_slice(), 1, MemWhy::Truncated),
        (b"12/".as_slice(), 3, MemWhy::Truncated),
        (b"@".as_slice(), 1, MemWhy::Truncated),
        (b"@_1".as_slice(), 1, MemWhy::BadByte),
        (b"_1".as_slice(), 0, MemWhy::BadByte),
        (b"123".as_slice(), 2, MemWhy::BadByte),
        (b"1@".as_slice(), 1, MemWhy::BadByte),
        (b"1_2_3".as_slice(), 4, MemWhy::BadByte),
        (b"@123456789".as_slice(), 9, MemWhy::BadByte),
        (b"/x".as_slice(), 1, MemWhy::BadByte),
        (b"1\x0B".as_slice(), 1, MemWhy::BadByte),
        (b"1 2 @1 3".as_slice(), 7, MemWhy::Overlap),
        (b"@1 1 @0 2 3".as_slice(), 10, MemWhy::Overlap),
    ];
    for (text, place, why) in cases {
        assert_eq!(rt;
            answer(&rt, rt.alloc(), text),
            refused(place, why),
            "{place}"
        );
    }
}

// So many segments of one byte each, at every second address; the length of a line is 8.
fn many(alloc: Global, count: u16) -> Result<Vec<u8>, Fail> {
    let mut text = Vec::new(alloc);
    for i in 0..count {
        let line = format!(in alloc; "@{:04X} 7\n", u32::from(i) * 2)?;
        text.extend_from_slice(line.as_bytes())?;
    }
    Ok(text)
}

#[test]
fn one_segment_too_many(rt: HostRuntime) -> Result<(), Fail> {
    let text = many(rt.alloc(), 64)?;
    assert_eq!(rt; answer(&rt, rt.alloc(), &text), Ok(64));
    let text = many(rt.alloc(), 65)?;
    assert_eq!(rt;
        answer(&rt, rt.alloc(), &text),
        refused(64 * 8 + 6, MemWhy::TooMany)
    );
    Ok(())
}

#[test]
fn refused_again(rt: HostRuntime) {
    let mut reader = MemReader::new(rt.alloc(), 0);
    let bad = Err(MemError::Refused {
        place: 2,
        why: MemWhy::BadByte,
    });
    assert_eq!(rt; reader.feed(b"12"), Ok(()));
    assert_eq!(rt; reader.feed(b"3"), bad);
    assert_eq!(rt; reader.feed(b" 4"), bad);
    assert!(rt; reader.finish().is_err());
}

#[test]
fn written_and_read_again(rt: HostRuntime) -> Result<(), Fail> {
    let mut image = Image::new(rt.alloc(), 7);
    assert!(rt; place_of(0, 12).is_in_memory());
    image.add(0, FIRST)?;
    let text = write_mem(rt.alloc(), &image)?;
    assert!(rt; text.bytes() == FIRST_TEXT);
    let more = b"\0\x01\x02\x03\x04\x05\x06\x07\x08\x09\x0A\x0B\x0C\x0D\x0E\x0F\xFF";
    assert!(rt; place_of(0x2000_0000, 17).is_in_memory());
    assert!(rt; !image.meets(0x2000_0000, 17));
    assert!(rt; image.len() < 64);
    image.add(0x2000_0000, more)?;
    let text = write_mem(rt.alloc(), &image)?;
    assert!(rt;
        text.bytes().ends_with(
            b"\n@20000000\n00 01 02 03 04 05 06 07 08 09 0A 0B 0C 0D 0E 0F\nFF\n"
        )
    );
    let again = read(&rt, rt.alloc(), text.bytes())?;
    assert_eq!(rt; again.len(), 2);
    assert!(rt; again.bytes(1) == more.as_slice());
    Ok(())
}
