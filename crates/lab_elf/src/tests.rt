use super::*;
use hart_memory::Image;
use lab_names::text_of_names;
use std::alloc::Global;
use std::process::Abort;
use std::test::Fail;

// The words of a small file: its header, two program headers, six section headers, and three symbols. What lies in the second
// segment is loaded below what lies in the first.
const WORDS: [(usize, u32); 55] = [
    (0, 0x464C_457F),
    (4, 0x0001_0101),
    (16, 0x00F3_0002),
    (20, 1),
    (24, 0x202),
    (28, 52),
    (32, 116),
    (40, 0x0020_0034),
    (44, 0x0028_0002),
    (48, 0x0005_0006),
    (52, 1),
    (56, 356),
    (64, 0x200),
    (68, 4),
    (72, 4),
    (84, 1),
    (88, 360),
    (92, 0x2000_0000),
    (96, 0x100),
    (100, 2),
    (104, 10),
    (160, 1),
    (164, 6),
    (172, 356),
    (176, 4),
    (200, 1),
    (204, 3),
    (208, 0x2000_0000),
    (212, 360),
    (216, 2),
    (240, 8),
    (244, 3),
    (248, 0x2000_0002),
    (252, 362),
    (256, 8),
    (280, 2),
    (292, 364),
    (296, 64),
    (300, 5),
    (312, 16),
    (320, 3),
    (332, 428),
    (336, 15),
    (356, 0x0403_0201),
    (360, 0x0605),
    (380, 1),
    (392, 0x0001_0002),
    (396, 6),
    (408, 0x0001_0000),
    (412, 9),
    (416, 0x2000_0000),
    (424, 0x0002_0001),
    (428, 0x6961_6D00),
    (432, 0x7824_006E),
    (436, 0x616D_7300),
];

// The last bytes of the strings.
const LAST: [u8; 3] = *b"ll\0";

fn small_file(alloc: Global) -> Result<Vec<u8>, Fail> {
    let mut bytes = Vec::new(alloc);
    for (place, word) in WORDS {
        for _ in bytes.len()..place {
            bytes.push(0)?;
        }
        bytes.extend_from_slice(&word.to_le_bytes())?;
    }
    bytes.extend_from_slice(&LAST)?;
    Ok(bytes)
}

fn image_in(rt: &impl Abort, alloc: Global, bytes: &[u8]) -> Result<Image, ElfError> {
    assert!(rt; bytes.len() < 0x1_0000_0000);
    read_elf(alloc, bytes)
}

// The lines of the names.
fn lines_are(
    rt: &impl Abort,
    alloc: Global,
    bytes: &[u8],
    is_code_only: bool,
    wanted: &[u8],
) -> Result<(), Fail> {
    assert!(rt; bytes.len() < 0x1_0000_0000);
    let names = read_symbols(alloc, bytes, is_code_only)?;
    let text = text_of_names(alloc, &names)?;
    assert!(rt; text.bytes() == wanted);
    Ok(())
}

// As objcopy 2.40 and nm have it: the second section is loaded below the first.
#[test]
fn sections_at_their_load_addresses(rt: HostRuntime) -> Result<(), Fail> {
    let bytes = small_file(rt.alloc())?;
    let image = image_in(&rt, rt.alloc(), &bytes)?;
    assert_eq!(rt; image.entry(), 0x202);
    assert_eq!(rt; image.len(), 2);
    assert_eq!(rt; image.at(0), 0x100);
    assert!(rt; image.bytes(0) == b"\x05\x06".as_slice());
    assert_eq!(rt; image.at(1), 0x200);
    assert!(rt; image.bytes(1) == b"\x01\x02\x03\x04".as_slice());
    lines_are(
        &rt,
        rt.alloc(),
        &bytes,
        false,
        b"00000000 main\n20000000 small\n",
    )?;
    lines_are(&rt, rt.alloc(), &bytes, true, b"00000000 main\n")
}

// The small file with another byte at a place is refused so.
fn is_refused(
    rt: &impl Abort,
    alloc: Global,
    (at, byte): (usize, u8),
    place: u32,
    why: ElfWhy,
) -> Result<(), Fail> {
    let mut bytes = small_file(alloc)?;
    assert!(rt; at < bytes.len());
    bytes[at] = byte;
    match image_in(rt, alloc, &bytes) {
        Ok(_) => panic!(rt; "read at {at}"),
        Err(e) => assert_eq!(rt; e, ElfError::Refused { place, why }, "at {at}"),
    }
    Ok(())
}

#[test]
fn what_is_refused(rt: HostRuntime) -> Result<(), Fail> {
    let cases = [
        ((1, b'e'), 0, ElfWhy::BadMagic),
        ((4, 2), 4, ElfWhy::BadClass),
        ((5, 2), 5, ElfWhy::BadOrder),
        ((16, 1), 16, ElfWhy::NotLinked),
        ((18, 62), 18, ElfWhy::NotRiscV),
        ((42, 56), 42, ElfWhy::BadHeader),
        ((31, 0xFF), 28, ElfWhy::Truncated),
        ((48, 0), 48, ElfWhy::NoSections),
        ((46, 64), 46, ElfWhy::BadHeader),
        ((35, 0xFF), 32, ElfWhy::Truncated),
        // Of the second section its bytes, its segment, and where it is loaded.
        ((219, 0xFF), 196, ElfWhy::Truncated),
        ((84, 2), 196, ElfWhy::Unplaced),
        ((98, 1), 196, ElfWhy::OutsideMemory),
        ((97, 2), 196, ElfWhy::Overlap),
    ];
    for (change, place, why) in cases {
        is_refused(&rt, rt.alloc(), change, place, why)?;
    }
    Ok(())
}
