use super::*;
use chain_flow::{LintWhy, Region, Verdict};
use hart_memory::{Image, place_of};
use std::alloc::Global;
use std::process::Abort;
use std::test::Fail;

// The upper half of RAM for the stack.
const REGION: Region = Region {
    low: 0x2000_8000,
    high: 0x2001_0000,
};

// The image that has these bytes from an address on.
fn image_of(rt: &impl Abort, alloc: Global, at: u32, bytes: &[u8]) -> Result<Image, Fail> {
    let mut image = Image::new(alloc, 0);
    assert!(rt; !bytes.is_empty() && bytes.len() < 0x1_0000);
    assert!(rt; place_of(at, bytes.len() as u32).is_in_memory());
    assert!(rt; !image.meets(at, bytes.len() as u32));
    assert!(rt; image.len() < 64);
    image.add(at, bytes)?;
    Ok(image)
}

// What a compiler makes of a handler that saves 15 registers in 64 bytes, in instructions of 16 bits.
const SAVES: [u8; 30] =
    *b"\x39\x71\x06\xDE\x16\xDC\x1A\xDA\x1E\xD8\x72\xD6\x76\xD4\x7A\xD2\x7E\xD0\x32\xCE\x36\xCC\x3A\xCA\x3E\xC8\x42\xC6\x46\xC4";

const LOADS: [u8; 34] =
    *b"\xA2\x48\x32\x48\xC2\x47\x52\x47\xE2\x46\x72\x46\x82\x5F\x12\x5F\xA2\x5E\x32\x5E\xC2\x53\x52\x53\xE2\x52\xF2\x50\x21\x61\x82\x80\0\0";

// On that handler at 38E, with these bytes between.
fn verdict(rt: &impl Abort, alloc: Global, between: &[u8]) -> Result<Verdict, Fail> {
    let mut bytes = Vec::from_slice(alloc, &SAVES)?;
    bytes.extend_from_slice(between)?;
    bytes.extend_from_slice(&LOADS)?;
    let image = image_of(rt, alloc, 0x38E, &bytes)?;
    Ok(lint(alloc, &image, 0x38E, REGION)?)
}

#[test]
fn a_handler_of_a_compiler(rt: HostRuntime) -> Result<(), Fail> {
    let yes = Verdict::Yes { uses: 64 };
    assert_eq!(rt; verdict(&rt, rt.alloc(), &[])?, yes);
    // with a call between: auipc ra, 0; jalr ra, -296(ra)
    let no = Verdict::No {
        why: LintWhy::UnknownTarget,
        at: 0x3B0,
    };
    let call = b"\x97\0\0\0\xE7\x80\x80\xED";
    assert_eq!(rt; verdict(&rt, rt.alloc(), call)?, no);
    Ok(())
}

// What is listed is what the checker may accept.
fn bound_of(rt: &impl Abort, list: &[Use]) -> u32 {
    assert!(rt; list.iter().all(|used| used.level >= 1 && used.uses <= 4096));
    stack_bound(list)
}

fn at(level: u8, uses: u32) -> Use {
    Use { level, uses }
}

#[test]
fn the_bound(rt: HostRuntime) {
    assert_eq!(rt; bound_of(&rt, &[]), 0);
    assert_eq!(rt; bound_of(&rt, &[at(127, 16), at(127, 40), at(255, 0)]), 104);
    assert_eq!(rt; bound_of(&rt, &[at(255, 0), at(127, 40), at(127, 16)]), 104);
    assert_eq!(rt;
        bound_of(&rt, &[at(191, 0), at(255, 16), at(63, 4096)]),
        4208
    );
    assert_eq!(rt; bound_of(&rt, &[at(1, 8), at(1, 8), at(1, 8)]), 40);
}

// Of a table at 100, whose inputs 3, 5 and 7 have the handler `ret` at 200, input 6 an address of RAM,
// and the others none.
fn of_table(
    rt: &impl Abort,
    alloc: Global,
    table: u32,
    pairs: &[Pair],
) -> Result<TableBound, Fail> {
    let words = b"\0\x02\0\0\0\0\0\0\x01\x02\0\0\x01\0\0\x20\0\x02\0\0".as_slice();
    let mut image = image_of(rt, alloc, 0x10C, words)?;
    assert!(rt; place_of(0x200, 4).is_in_memory());
    assert!(rt; !image.meets(0x200, 4));
    assert!(rt; image.len() < 64);
    image.add(0x200, b"\x67\x80\0\0")?;
    assert!(rt; table <= 0xFFC0);
    assert!(rt; pairs.iter().all(|pair| pair.level >= 1));
    Ok(bound_of_table(alloc, &image, REGION, table, pairs)?)
}

fn pair(input: u16, level: u8) -> Pair {
    Pair { input, level }
}

#[test]
fn handlers_in_a_table(rt: HostRuntime) -> Result<(), Fail> {
    assert_eq!(rt;
        of_table(&rt, rt.alloc(), 0x100, &[])?,
        TableBound::Bound(0)
    );
    assert_eq!(rt;
        of_table(
            &rt,
            rt.alloc(),
            0x100,
            &[pair(3, 127), pair(5, 127), pair(7, 255)]
        )?,
        TableBound::Bound(64)
    );
    assert_eq!(rt;
        of_table(&rt, rt.alloc(), 0x100, &[pair(3, 127), pair(4, 127)])?,
        TableBound::Refused {
            why: LintWhy::NotSpelled,
            at: 0
        }
    );
    assert_eq!(rt;
        of_table(&rt, rt.alloc(), 0x100, &[pair(6, 1)])?,
        TableBound::Refused {
            why: LintWhy::CodeOutside,
            at: 0x2000_0000
        }
    );
    Ok(())
}

// The table's words, before the handlers that they name; the first that is refused is told.
#[test]
fn words_of_a_table(rt: HostRuntime) -> Result<(), Fail> {
    assert_eq!(rt;
        of_table(&rt, rt.alloc(), 0xFFC0, &[pair(16, 1), pair(4, 127)])?,
        TableBound::BadTable(0x1_0000)
    );
    assert_eq!(rt;
        of_table(&rt, rt.alloc(), 0, &[pair(16, 1)])?,
        TableBound::BadTable(0x40)
    );
    assert_eq!(rt;
        of_table(&rt, rt.alloc(), 0x40, &[pair(31, 1)])?,
        TableBound::BadTable(0xBC)
    );
    Ok(())
}
