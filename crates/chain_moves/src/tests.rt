ghost use Rattle.chain_moves.specs.Judge.{HasBytes};

use super::*;
use crate::convention::is_permitted;
use crate::entry::Entry;
use hart_exec::Effect;
use hart_words::Regs;
use rv_encoding::{CsrOp, Ins};
use std::test::Fail;

// The words that differ, the first, the reload of mcause before the claim, and the last.
#[test]
fn words_of_the_dispatchers(rt: HostRuntime) {
    let words = [
        (0, 0x3491_1173, 0x3491_1173),
        (12, 0x0005_80E7, 0x0005_80E7),
        (14, 0x00C1_2503, 0x00C1_2503),
        (15, 0x3425_1073, 0x3425_1073),
        (16, 0x3454_6573, 0x0000_0013),
        (17, 0xFE05_14E3, 0x0000_0013),
        (27, 0x3491_1173, 0x3491_1173),
        (28, 0x3020_0073, 0x3020_0073),
    ];
    for (i, looping, returning) in words {
        assert!(rt; i < 29);
        assert_eq!(rt; dispatch_word(Dispatcher::Looping, i), looping);
        assert_eq!(rt; dispatch_word(Dispatcher::Returning, i), returning);
    }
}

const OUTER: Mark = Mark {
    level: 127,
    frame: 0x2000_0100,
    kept: [0; 32],
};

// Each row of the tests of an Enter, while a service has its frame at 20000100.
#[test]
fn tests_of_an_enter(rt: HostRuntime) -> Result<(), Fail> {
    let mut watch = Watch::new(rt.alloc())?;
    watch.enter(OUTER);
    let refused = [
        (true, 0x44, 0x2000_0101, 0, Broken::HardVectored),
        (false, 0x44, 0x2000_0101, 0, Broken::NoDispatcher),
        (false, 0x40, 0x2000_0082, 0, Broken::StackBad),
        (false, 0x40, 0x1FFF_FFFC, 0, Broken::StackBad),
        (false, 0x40, 0x2000_FFE4, 0, Broken::StackBad),
        (false, 0x40, 0x2000_00E4, 0, Broken::StackBad),
        (false, 0x40, 0x2000_011C, 0, Broken::StackBad),
        (false, 0x40, 0x2000_00E0, 0, Broken::BadTable),
        (false, 0x40, 0x2000_00E0, 0xFFFE, Broken::BadTable),
        (false, 0x40, 0x2000_00E0, 0x3D, Broken::BadTable),
        (false, 0x40, 0x2000_00E0, 0xBF, Broken::BadTable),
        (false, 0x40, 0x2000_00E0, 0x2000_00DD, Broken::BadTable),
        (false, 0x40, 0x2000_00E0, 0x2000_011F, Broken::BadTable),
    ];
    for (shv, vector, frame, at, kind) in refused {
        assert_eq!(rt; watch.entry(shv, vector, frame, at), Entry::Refused(kind));
    }
    assert_eq!(rt;
        watch.entry(false, 0x40, 0x2000_00E0, 0x3C),
        Entry::Admitted(0x2000_00E0)
    );
    assert_eq!(rt;
        watch.entry(false, 0x40, 0x2000_0120, 0xC0),
        Entry::Admitted(0x2000_0120)
    );
    watch.leave();
    assert_eq!(rt;
        watch.entry(false, 0x40, 0x2000_00E4, 0xC0),
        Entry::Admitted(0x2000_00E4)
    );
    assert_eq!(rt;
        watch.entry(false, 0x40, 0x2000_0200, 0x2000_011F),
        Entry::Refused(Broken::BadTable)
    );
    Ok(())
}

#[test]
fn tests_of_a_fetch(rt: HostRuntime) -> Result<(), Fail> {
    let mut watch = Watch::new(rt.alloc())?;
    watch.enter(OUTER);
    let first = [
        (0x3E, None),
        (0x40, Some(Broken::EnteredDispatch)),
        (0xBE, Some(Broken::EnteredDispatch)),
        (0xC0, None),
        (0x0001_0000, Some(Broken::Exception(1))),
        (0x2000_00FE, None),
        (0x2000_0100, Some(Broken::ReadsDispatch)),
        (0x2000_011E, Some(Broken::ReadsDispatch)),
        (0x2000_0120, None),
        (0x2001_0000, Some(Broken::Exception(1))),
    ];
    for (pc, want) in first {
        assert_eq!(rt; watch.first_test(pc), want);
    }
    assert_eq!(rt; watch.second_test(true, 0x3E), Some(Broken::ReadsDispatch));
    assert_eq!(rt; watch.second_test(false, 0x3E), None);
    assert_eq!(rt; watch.second_test(true, 0xFFFE), Some(Broken::Exception(1)));
    assert_eq!(rt;
        watch.second_test(true, 0x2000_00FE),
        Some(Broken::ReadsDispatch)
    );
    assert_eq!(rt; watch.second_test(true, 0xFFFF_FFFE), None);
    Ok(())
}

fn load(at: u32) -> Effect
    ensures { HasBytes result }
{
    Effect::Load {
        rd: 5,
        at,
        width: 4,
        signed: true,
    }
}

// An access that isn't aligned is left to the step, which raises.
#[test]
fn tests_of_a_load(rt: HostRuntime) -> Result<(), Fail> {
    let mut watch = Watch::new(rt.alloc())?;
    watch.enter(OUTER);
    let loads = [
        (0x2000_00FC, None),
        (0x2000_0100, Some(Broken::ReadsDispatch)),
        (0x2000_011C, Some(Broken::ReadsDispatch)),
        (0x2000_011E, None),
        (0x0000_003C, None),
        (0x0000_0040, Some(Broken::ReadsDispatch)),
        (0x0000_00BC, Some(Broken::ReadsDispatch)),
    ];
    for (at, want) in loads {
        assert_eq!(rt; watch.access_test(load(at)), want);
    }
    Ok(())
}

#[test]
fn tests_of_a_store(rt: HostRuntime) -> Result<(), Fail> {
    let mut watch = Watch::new(rt.alloc())?;
    watch.enter(OUTER);
    let stores = [
        (0x2000_00FC, false),
        (0x2000_0100, true),
        (0x2000_011C, true),
        (0x2000_0120, false),
    ];
    for (at, meets) in stores {
        let want = if meets {
            Some(Broken::WritesFrame)
        } else {
            None
        };
        let value = 0;
        let width = 4;
        assert_eq!(rt; watch.access_test(Effect::Store { at, width, value }), want);
    }
    Ok(())
}

// The frame's bytes stay dead after the service, until they are stored to.
#[test]
fn bytes_that_are_revived(rt: HostRuntime) -> Result<(), Fail> {
    let mut watch = Watch::new(rt.alloc())?;
    watch.enter(OUTER);
    watch.leave();
    watch.revive(0x2000_0110, 4);
    assert_eq!(rt; watch.access_test(load(0x2000_0110)), None);
    assert_eq!(rt;
        watch.access_test(load(0x2000_0114)),
        Some(Broken::ReadsDispatch)
    );
    Ok(())
}

#[test]
fn instructions_that_are_permitted(rt: HostRuntime) {
    let csrs = [
        (CsrOp::Csrrsi, 0, 8, 0x300, true),
        (CsrOp::Csrrci, 0, 8, 0x300, true),
        (CsrOp::Csrrsi, 1, 8, 0x300, false),
        (CsrOp::Csrrsi, 0, 9, 0x300, false),
        (CsrOp::Csrrwi, 0, 8, 0x300, false),
        (CsrOp::Csrrw, 0, 5, 0x305, true),
        (CsrOp::Csrrw, 0, 5, 0x307, true),
        (CsrOp::Csrrw, 0, 5, 0x340, true),
        (CsrOp::Csrrw, 0, 5, 0x347, true),
        (CsrOp::Csrrw, 0, 5, 0x341, false),
        (CsrOp::Csrrw, 5, 5, 0x340, false),
        (CsrOp::Csrrs, 0, 0, 0x340, false),
    ];
    for (op, rd, source, csr, want) in csrs {
        let ins = Ins::Csr {
            op,
            rd,
            source,
            csr,
        };
        assert_eq!(rt; is_permitted(true, &ins), want);
        assert!(rt; !is_permitted(false, &ins));
    }
    assert!(rt; !is_permitted(true, &Ins::Mret));
    assert!(rt; is_permitted(false, &Ins::Wfi));
}

// ra, a0 and a1 may change, and registers are compared where handlers return alone.
#[test]
fn registers_that_are_lost(rt: HostRuntime) -> Result<(), Fail> {
    let mut watch = Watch::new(rt.alloc())?;
    let mut registers = Regs::new();
    registers.set(8, 1);
    assert!(rt; !watch.has_lost(0x74, &registers));
    watch.enter(OUTER);
    assert!(rt; watch.has_lost(0x74, &registers));
    assert!(rt; !watch.has_lost(0x70, &registers));
    registers.set(8, 0);
    registers.set(1, 1);
    registers.set(10, 2);
    registers.set(11, 3);
    assert!(rt; !watch.has_lost(0x74, &registers));
    registers.set(31, 4);
    assert!(rt; watch.has_lost(0x74, &registers));
    Ok(())
}
