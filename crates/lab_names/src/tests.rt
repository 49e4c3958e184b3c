use super::*;
use std::alloc::Global;
use std::process::Abort;
use std::test::Fail;

fn read(rt: &impl Abort, alloc: Global, bytes: &[u8]) -> Result<Names, NamesError> {
    assert!(rt; bytes.len() < 0x1_0000_0000);
    read_names(alloc, bytes)
}

fn is_refused(rt: &impl Abort, alloc: Global, bytes: &[u8], line: u32, why: NamesWhy) {
    match read(rt, alloc, bytes) {
        Ok(_) => panic!(rt; "read"),
        Err(e) => assert_eq!(rt; e, NamesError::Refused { line, why }),
    }
}

#[test]
fn lines_that_are_bad(rt: HostRuntime) {
    let lines = [
        b"0000000 main".as_slice(),
        b"000000000 main".as_slice(),
        b"0000000G main".as_slice(),
        b"00000000 ".as_slice(),
        b"00000000".as_slice(),
        b"00000000\tmain".as_slice(),
        b"00000000 ma in".as_slice(),
        b"00000000 main\r".as_slice(),
        b"00000000 ma\x7Fin".as_slice(),
        b" ".as_slice(),
    ];
    for line in lines {
        is_refused(&rt, rt.alloc(), line, 1, NamesWhy::BadLine);
    }
    is_refused(&rt, rt.alloc(), b"00000000 a\n\nb\n", 3, NamesWhy::BadLine);
}

#[test]
fn names_are_looked_up(rt: HostRuntime) -> Result<(), Fail> {
    let text = b"20000000 small\n\n0000abCD first\n00000010 main\n0000ABCD last\n";
    let names = read(&rt, rt.alloc(), text)?;
    assert!(rt; names.at(0xABCD) == Some(b"last".as_slice()));
    assert!(rt; names.at(0xABCC) == None);
    assert!(rt; names.at_or_below(0xABCC) == Some((b"main".as_slice(), 0xABBC)));
    assert!(rt; names.at_or_below(0xFFFF_FFFF) == Some((b"small".as_slice(), 0xDFFF_FFFF)));
    assert!(rt; names.at_or_below(0xF) == None);
    Ok(())
}

fn many(alloc: Global, count: u32) -> Result<Vec<u8>, Fail> {
    let mut bytes = Vec::new(alloc);
    for _ in 0..count {
        bytes.extend_from_slice(b"00000000 a\n")?;
    }
    Ok(bytes)
}

#[test]
fn as_many_names_as_there_may_be(rt: HostRuntime) -> Result<(), Fail> {
    let most = many(rt.alloc(), 65_536)?;
    assert!(rt; read(&rt, rt.alloc(), &most)?.at(0) == Some(b"a".as_slice()));
    let more = many(rt.alloc(), 65_537)?;
    is_refused(&rt, rt.alloc(), &more, 65_537, NamesWhy::TooMany);
    Ok(())
}
