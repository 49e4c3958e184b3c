use super::*;
use chain_flow::{LintWhy, Verdict};
use std::alloc::Global;
use std::process::Abort;
use std::test::Fail;

fn pair(input: u16, level: u8) -> Pair {
    Pair { input, level }
}

fn spells(rt: &impl Abort, alloc: Global, word: &str, pairs: &[Pair]) -> Result<(), Fail> {
    match read_pairs(alloc, word)? {
        Some(read) => assert_eq!(rt; read.as_slice(), pairs),
        None => assert!(rt; pairs.is_empty()),
    }
    Ok(())
}

#[test]
fn words_of_pairs(rt: HostRuntime) -> Result<(), Fail> {
    spells(
        &rt,
        rt.alloc(),
        "16:255,18:127",
        &[pair(16, 255), pair(18, 127)],
    )?;
    spells(&rt, rt.alloc(), "0:1", &[pair(0, 1)])?;
    spells(
        &rt,
        rt.alloc(),
        "1023:9,1023:9",
        &[pair(1023, 9), pair(1023, 9)],
    )?;
    Ok(())
}

#[test]
fn words_of_no_pairs(rt: HostRuntime) -> Result<(), Fail> {
    for word in [
        "", ",", "3", "3:", ":3", "3:127,", "3:0", "3:256", "1024:1", "03:1", "3:+1",
    ] {
        spells(&rt, rt.alloc(), word, &[])?;
    }
    Ok(())
}

#[test]
fn lines_of_answers(rt: HostRuntime) {
    assert_eq!(rt;
        verdict_line(Verdict::Yes { uses: 16 }).bytes(),
        b"yes 16\n".as_slice()
    );
    let no = Verdict::No {
        why: LintWhy::RegionAccess,
        at: 0x28C,
    };
    assert_eq!(rt;
        verdict_line(no).bytes(),
        b"no RegionAccess 0000028C\n".as_slice()
    );
    assert_eq!(rt;
        table_line(TableBound::Bound(64)).bytes(),
        b"bound 64\n".as_slice()
    );
    assert_eq!(rt;
        table_line(TableBound::BadTable(0x40)).bytes(),
        b"no BadTable 00000040\n".as_slice()
    );
}
