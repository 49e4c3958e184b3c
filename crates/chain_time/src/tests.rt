use super::*;
use chain_flow::{LintWhy, Region};
use hart_memory::{Image, place_of};
use lab_names::Names;
use std::alloc::Global;
use std::process::Abort;
use std::test::Fail;

// The upper half of RAM for the stack.
const REGION: Region = Region {
    low: 0x2000_8000,
    high: 0x2001_0000,
};

// Three handlers as an assembler makes them, at 200, 214 and 228: 5 instructions each of the first two. The
// last one branches, and has 10 on its longer side and 8 on the other.
const HANDLERS: [u32; 24] = [
    0x20000537, 0x00052583, 0x00158593, 0x00B52023, 0x00008067, 0x20000537, 0x00052583, 0x10000537,
    0x00B52023, 0x00008067, 0x20000537, 0x00052583, 0x0015F593, 0x00058E63, 0x00852583, 0x00158593,
    0x00B52423, 0x00158593, 0x00B52823, 0x00008067, 0x00C52583, 0x00158593, 0x00B52623, 0x00008067,
];

// Puts words into an image from an address on.
fn add_words(
    rt: &impl Abort,
    alloc: Global,
    image: &mut Image,
    at: u32,
    words: &[u32],
) -> Result<(), Fail> {
    let mut bytes = Vec::new(alloc);
    for word in words {
        bytes.extend_from_slice(&word.to_le_bytes())?;
    }
    assert!(rt; !bytes.is_empty() && bytes.len() < 0x1_0000);
    assert!(rt; place_of(at, bytes.len() as u32).is_in_memory());
    assert!(rt; !image.meets(at, bytes.len() as u32));
    assert!(rt; image.len() < 64);
    image.add(at, &bytes)?;
    Ok(())
}

// An image whose table at 100 gives inputs 3, 5 and 7 the handlers above, and input 9 one of 1,023
// instructions and a return.
fn three(rt: &impl Abort, alloc: Global) -> Result<Image, Fail> {
    let mut image = Image::new(alloc, 0x200);
    let table = [0x200, 0, 0x214, 0, 0x228, 0, 0x1000];
    add_words(rt, alloc, &mut image, 0x10C, &table)?;
    add_words(rt, alloc, &mut image, 0x200, &HANDLERS)?;
    let mut long = Vec::new(alloc);
    for _ in 0..1023 {
        long.push(0x0000_0013)?;
    }
    long.push(0x0000_8067)?;
    add_words(rt, alloc, &mut image, 0x1000, &long)?;
    Ok(image)
}

fn triple(input: u16, level: u8, count: u16) -> Triple {
    Triple {
        input,
        level,
        count,
    }
}

// The times of these inputs there.
fn times(
    rt: &impl Abort,
    alloc: Global,
    triples: &[Triple],
) -> Result<Result<Times, TableFault>, Fail> {
    let image = three(rt, alloc)?;
    assert!(rt; triples.len() <= 1024);
    assert!(rt; triples.iter().all(|triple| triple.level >= 1));
    Ok(times_of_table(alloc, &image, REGION, 0x100, triples)?)
}

// The lines of these inputs.
fn writes(rt: &impl Abort, alloc: Global, triples: &[Triple], lines: &str) -> Result<(), Fail> {
    match times(rt, alloc, triples)? {
        Ok(times) => {
            let text = text_of_times(alloc, &Names::new(alloc), &times)?;
            assert!(rt; text.bytes() == lines.as_bytes(), "{lines}");
        }
        Err(_) => assert!(rt; false, "{lines}"),
    }
    Ok(())
}

#[test]
fn two_handlers(rt: HostRuntime) -> Result<(), Fail> {
    writes(
        &rt,
        rt.alloc(),
        &[triple(3, 255, 1), triple(5, 127, 1)],
        "time 3 00000200 path 5 latency 14 response 35\ntime 5 00000214 path 5 latency 49 response 70\nburst 70\nlooping burst 70\n",
    )?;
    // each comes three times
    writes(
        &rt,
        rt.alloc(),
        &[triple(3, 255, 3), triple(5, 127, 3)],
        "time 3 00000200 path 5 latency 84 response 105\ntime 5 00000214 path 5 latency 189 response 210\nburst 210\nlooping burst 164\n",
    )
}

#[test]
fn three_handlers(rt: HostRuntime) -> Result<(), Fail> {
    writes(
        &rt,
        rt.alloc(),
        &[triple(3, 255, 1), triple(5, 127, 1), triple(7, 191, 1)],
        "time 3 00000200 path 5 latency 14 response 35\ntime 5 00000214 path 5 latency 89 response 110\ntime 7 00000228 path 10 latency 49 response 75\nburst 110\nlooping burst 110\n",
    )
}

#[test]
fn a_long_handler(rt: HostRuntime) -> Result<(), Fail> {
    writes(
        &rt,
        rt.alloc(),
        &[triple(9, 1, 1)],
        "time 9 00001000 path 1024 latency 14 response 1054\nburst 1054\nlooping burst 1054\n",
    )
}

#[test]
fn what_is_refused(rt: HostRuntime) -> Result<(), Fail> {
    let unspelled = match times(&rt, rt.alloc(), &[triple(3, 255, 1), triple(4, 1, 1)])? {
        Ok(_) => TableFault::BadTable(0),
        Err(fault) => fault,
    };
    assert_eq!(rt;
        unspelled,
        TableFault::Refused {
            why: LintWhy::NotSpelled,
            at: 0
        }
    );
    assert!(rt; fault_line(unspelled).bytes() == b"no NotSpelled 00000000\n".as_slice());
    Ok(())
}

// Under the looping dispatcher, the foreground's longest stand of these inputs.
fn stands(rt: &impl Abort, alloc: Global, triples: &[Triple], steps: u64) -> Result<(), Fail> {
    match times(rt, alloc, triples)? {
        Ok(times) => assert_eq!(rt; times.looping_burst(), steps),
        Err(_) => assert!(rt; false, "{steps}"),
    }
    Ok(())
}

// 164 is the longest that random scenarios of two inputs gave, and 257 that of three.
#[test]
fn bursts_of_the_looping_dispatcher(rt: HostRuntime) -> Result<(), Fail> {
    stands(
        &rt,
        rt.alloc(),
        &[triple(3, 255, 3), triple(5, 127, 3)],
        164,
    )?;
    stands(
        &rt,
        rt.alloc(),
        &[triple(3, 255, 3), triple(5, 127, 3), triple(7, 191, 3)],
        284,
    )?;
    stands(&rt, rt.alloc(), &[triple(3, 255, 1)], 35)
}
