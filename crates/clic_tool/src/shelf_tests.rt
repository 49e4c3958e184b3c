// Files that can't be read.
use crate::case::{Case, answers, given};
use crate::images::HALTS;
use std::test::Fail;
use tool_frame::Status;

// Each fetch fails in turn: the image is fetched first.
#[test]
fn each_fetch_fails_in_turn(rt: HostRuntime) -> Result<(), Fail> {
    let cases: [(&[&str], u64, &[u8]); 8] = [
        (&["run", "i.img", "s.txt", "10"], 1, b"shelf failed i.img\n"),
        (&["run", "i.img", "s.txt", "10"], 2, b"shelf failed s.txt\n"),
        (
            &["chain", "i.img", "s.txt", "looping", "10"],
            1,
            b"shelf failed i.img\n",
        ),
        (
            &["chain", "i.img", "s.txt", "looping", "10"],
            2,
            b"shelf failed s.txt\n",
        ),
        (&["asm", "p.s"], 1, b"shelf failed p.s\n"),
        (&["disasm", "i.img"], 1, b"shelf failed i.img\n"),
        (&["mem", "i.img"], 1, b"shelf failed i.img\n"),
        (&["unmem", "i.mem", "0"], 1, b"shelf failed i.mem\n"),
    ];
    for (words, fetch, text) in cases {
        let failing = Case {
            fetch,
            ..given(words, &HALTS, b"")
        };
        answers(&rt, rt.alloc(), &failing, Status::ShelfFailed, text)?;
    }
    Ok(())
}

// The image is dealt with before the scenario is fetched.
#[test]
fn a_refused_image_hides_a_scenario_that_fails(rt: HostRuntime) -> Result<(), Fail> {
    let hidden = Case {
        fetch: 2,
        ..given(&["run", "i.img", "s.txt", "10"], b"", b"")
    };
    answers(
        &rt,
        rt.alloc(),
        &hidden,
        Status::Refused,
        b"refused image Truncated 0\n",
    )
}
