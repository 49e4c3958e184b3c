use super::*;
use std::alloc::Global;
use std::process::Abort;
use std::test::Fail;

fn triple(input: u16, level: u8, count: u16) -> Triple {
    Triple {
        input,
        level,
        count,
    }
}

fn spells(rt: &impl Abort, alloc: Global, word: &str, triples: &[Triple]) -> Result<(), Fail> {
    match read_triples(alloc, word)? {
        Some(read) => assert_eq!(rt; read.as_slice(), triples),
        None => assert!(rt; triples.is_empty()),
    }
    Ok(())
}

#[test]
fn words_of_triples(rt: HostRuntime) -> Result<(), Fail> {
    spells(
        &rt,
        rt.alloc(),
        "3:255:1,5:127:1",
        &[triple(3, 255, 1), triple(5, 127, 1)],
    )?;
    spells(&rt, rt.alloc(), "0:1:65535", &[triple(0, 1, 65_535)])?;
    spells(
        &rt,
        rt.alloc(),
        "1023:9:10,1023:9:10",
        &[triple(1023, 9, 10), triple(1023, 9, 10)],
    )
}

#[test]
fn words_of_no_triples(rt: HostRuntime) -> Result<(), Fail> {
    for word in [
        "",
        ",",
        "3:255",
        "3:255:",
        "3::1",
        ":255:1",
        "3:255:1,",
        "3:255:1:1",
        "3:0:1",
        "3:256:1",
        "3:255:0",
        "3:255:65536",
        "3:255:01",
        "1024:255:1",
        "3:255:+1",
    ] {
        spells(&rt, rt.alloc(), word, &[])?;
    }
    Ok(())
}
