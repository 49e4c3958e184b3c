use super::*;
use std::process::Abort;
use std::test::Fail;

#[test]
fn what_lies_in_one_memory(rt: HostRuntime) {
    let accesses = [
        (0x0000_0000, 4, true),
        (0x0000_FFFC, 4, true),
        (0x0000_FFFE, 4, false),
        (0x0000_FFFF, 1, true),
        (0x0001_0000, 1, false),
        (0x1FFF_FFFE, 4, false),
        (0x2000_0000, 4, true),
        (0x2000_FFFE, 2, true),
        (0x2000_FFFE, 4, false),
        (0x2001_0000, 1, false),
        (0xFFFF_FFFF, 1, false),
        (0xFFFF_FFFF, 2, false),
    ];
    for (at, width, want) in accesses {
        assert_eq!(rt; place_of(at, width).is_in_memory(), want, "{width} at {at}");
    }
}

fn place(rt: &impl Abort, banks: &mut Banks, at: u32, bytes: &[u8]) {
    let mut next = at;
    for byte in bytes {
        assert!(rt; banks.holds(next, 1));
        banks.place(next, *byte);
        next = next.wrapping_add(1);
    }
}

fn store(rt: &impl Abort, banks: &mut Banks, at: u32, width: u32, value: u32) {
    assert!(rt; width == 1 || width == 2 || width == 4);
    assert!(rt; banks.holds(at, width));
    assert!(rt; at >= RAM_BASE);
    banks.store(at, width, value);
}

fn load(rt: &impl Abort, banks: &Banks, at: u32, width: u32) -> u32 {
    assert!(rt; width == 1 || width == 2 || width == 4);
    assert!(rt; banks.holds(at, width));
    banks.load(at, width)
}

// The bytes of the words and half-words are in rising order, as a little-endian memory has them.
#[test]
fn loads_and_stores_at_the_ends(rt: HostRuntime) -> Result<(), Fail> {
    let mut banks = Banks::new(rt.alloc())?;
    place(&rt, &mut banks, ROM_BASE, &[0x44, 0x33, 0x22, 0x11]);
    place(&rt, &mut banks, 0x0000_FFFE, &[0xCD, 0xAB]);
    store(&rt, &mut banks, RAM_BASE, 4, 0xA1B2_C3D4);
    store(&rt, &mut banks, 0x2000_FFFC, 2, 0x1_0605);
    store(&rt, &mut banks, 0x2000_FFFE, 1, 0x107);
    store(&rt, &mut banks, 0x2000_FFFF, 1, 0x08);
    let copy = banks.copy(rt.alloc())?;
    let loads = [
        (ROM_BASE, 4, 0x1122_3344),
        (0x0000_0001, 2, 0x2233),
        (0x0000_FFFC, 4, 0xABCD_0000),
        (0x0000_FFFF, 1, 0xAB),
        (RAM_BASE, 4, 0xA1B2_C3D4),
        (0x2000_0003, 1, 0xA1),
        (0x2000_0004, 4, 0),
        (0x2000_FFFC, 4, 0x0807_0605),
    ];
    for (at, width, want) in loads {
        assert_eq!(rt; load(&rt, &banks, at, width), want, "{width} at {at}");
        assert_eq!(rt;
            load(&rt, &copy, at, width),
            want,
            "{width} at {at} of the copy"
        );
    }
    assert!(rt; banks.holds(0x2000_FFFF, 1));
    assert_eq!(rt; banks.byte(0x2000_FFFF), 0x08);
    Ok(())
}

// Of 17 contents, each with a byte more in a page of its own, the first is gone, and each of the others comes back.
#[test]
fn contents_that_are_kept(rt: HostRuntime) -> Result<(), Fail> {
    let mut banks = Banks::new(rt.alloc())?;
    for k in 0..17u32 {
        store(&rt, &mut banks, RAM_BASE + 256 * k, 1, 1);
        banks.keep()?;
    }
    assert_eq!(rt; banks.kept(), 16);
    assert_eq!(rt; banks.copy(rt.alloc())?.kept(), 0);
    store(&rt, &mut banks, RAM_BASE + 0x1100, 4, 0xA1B2_C3D4);
    for k in 0..16u32 {
        let latest = RAM_BASE + 256 * (16 - k);
        assert!(rt; banks.back());
        assert_eq!(rt; load(&rt, &banks, latest, 1), 1);
        assert_eq!(rt; load(&rt, &banks, latest + 256, 4), 0);
    }
    assert!(rt; !banks.back());
    assert_eq!(rt; load(&rt, &banks, RAM_BASE + 256, 1), 1);
    Ok(())
}

// Bytes of both memories at the ends of the first page and of the memory, and a number that crosses two pages.
#[test]
fn what_is_undone(rt: HostRuntime) -> Result<(), Fail> {
    let mut banks = Banks::new(rt.alloc())?;
    let ends = [0, 255, 256, 0xFFFF];
    for at in ends {
        place(&rt, &mut banks, at, &[1]);
        store(&rt, &mut banks, RAM_BASE + at, 1, 2);
    }
    banks.keep()?;
    for at in ends {
        place(&rt, &mut banks, at, &[3]);
        store(&rt, &mut banks, RAM_BASE + at, 1, 4);
    }
    store(&rt, &mut banks, RAM_BASE + 0x2FE, 4, 0xFFFF_FFFF);
    assert!(rt; banks.back());
    for at in ends {
        assert_eq!(rt; load(&rt, &banks, at, 1), 1);
        assert_eq!(rt; load(&rt, &banks, RAM_BASE + at, 1), 2);
    }
    assert_eq!(rt; load(&rt, &banks, RAM_BASE + 0x2FE, 4), 0);
    Ok(())
}

// addi a0, zero, 5 is 00500513, and c.li a0, 5 is 4515.
#[test]
fn fetches(rt: HostRuntime) -> Result<(), Fail> {
    let mut banks = Banks::new(rt.alloc())?;
    place(&rt, &mut banks, 2, &[0x13, 0x05, 0x50, 0x00]);
    place(&rt, &mut banks, 0x0000_FFFC, &[0x15, 0x45, 0x13, 0x05]);
    place(&rt, &mut banks, 0x2000_FFFE, &[0x15, 0x45]);
    let fetched = [
        (2, bits(0x0050_0513, 4)),
        (6, bits(0, 2)),
        (0x0000_FFFC, bits(0x4515, 2)),
        (0x0000_FFFE, Fetched::Missing(0x0001_0000)),
        (0x0001_0000, Fetched::Missing(0x0001_0000)),
        (0x1FFF_FFFE, Fetched::Missing(0x1FFF_FFFE)),
        (0x2000_FFFE, bits(0x4515, 2)),
        (0xFFFF_FFFE, Fetched::Missing(0xFFFF_FFFE)),
    ];
    for (pc, want) in fetched {
        assert!(rt; pc % 2 == 0);
        assert_eq!(rt; fetch(&banks, pc), want, "at {pc}");
    }
    Ok(())
}

fn bits(bits: u32, length: u32) -> Fetched {
    Fetched::Bits { bits, length }
}

fn add(rt: &impl Abort, image: &mut Image, at: u32, bytes: [u8; 3]) -> Result<(), Fail> {
    assert!(rt; place_of(at, 3).is_in_memory());
    assert!(rt; !image.meets(at, 3));
    assert!(rt; image.len() < MAX_SEGMENTS);
    image.add(at, &bytes)?;
    Ok(())
}

#[test]
fn an_image_of_64_segments(rt: HostRuntime) -> Result<(), Fail> {
    let mut image = Image::new(rt.alloc(), 0x40);
    assert!(rt; image.is_empty());
    for k in 0..64u8 {
        add(&rt, &mut image, RAM_BASE + 3 * u32::from(k), [k, 7, k])?;
    }
    assert_eq!(rt; image.entry(), 0x40);
    assert_eq!(rt; image.len(), 64);
    assert_eq!(rt; image.at(63), 0x2000_00BD);
    assert_eq!(rt; image.bytes(63), [63, 7, 63].as_slice());
    assert!(rt; image.meets(0x2000_00BF, 1));
    assert!(rt; !image.meets(0x2000_00C0, 1));
    Ok(())
}
