// Outcomes, worked by hand from texts of chains.
use crate::outcome::outcome_of;
use std::alloc::Global;
use std::process::Abort;
use std::test::Fail;

fn gives(rt: &impl Abort, alloc: Global, text: &str, outcome: &str) {
    let found = outcome_of(alloc, text.as_bytes()).expect(rt, "memory");
    assert_eq!(rt; found.as_slice(), outcome.as_bytes());
}

#[test]
fn a_chain_that_is_done(rt: HostRuntime) -> Result<(), Fail> {
    gives(
        &rt,
        rt.alloc(),
        "s 3 255 1\ns 5 127 1\nd 20 255 2\nend halt 00000000\nsteps 130\nbodies 60\npc 0000024E\n",
        "end halt 00000000 3:255:1 5:127:1 d20:255:2",
    );
    Ok(())
}

#[test]
fn a_chain_that_is_broken(rt: HostRuntime) -> Result<(), Fail> {
    gives(
        &rt,
        rt.alloc(),
        "s 3 255 1\nend broken StackBad 41\nsteps 99\n",
        "end broken StackBad 3:255:1",
    );
    gives(
        &rt,
        rt.alloc(),
        "end broken Exception 5 7\nsteps 99\n",
        "end broken Exception 5",
    );
    Ok(())
}

#[test]
fn a_chain_at_its_bound(rt: HostRuntime) -> Result<(), Fail> {
    gives(&rt, rt.alloc(), "end budget\nsteps 1000\n", "end budget");
    Ok(())
}
