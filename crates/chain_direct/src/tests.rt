use crate::direct_judging::{are_same, test_word};
use crate::direct_telling::put_direct;
use board_outside::MemorySink;
use chain_moves::{Broken, Watch};
use hart_words::Regs;
use std::test::Fail;

#[test]
fn line_of_a_direct_service(rt: HostRuntime) -> Result<(), Fail> {
    let mut out = MemorySink::new(rt.alloc(), 64)?;
    out.fail_at(2)?;
    assert!(rt; put_direct(3, 127, 1, &mut out).is_ok());
    assert!(rt; put_direct(4, 255, 2, &mut out).is_err());
    assert_eq!(rt; out.bytes(), b"d 3 127 1\n".as_slice());
    Ok(())
}

// The table's word may stand at address 0, but not in the slot, and not outside memory.
#[test]
fn words_of_the_table(rt: HostRuntime) -> Result<(), Fail> {
    let watch = Watch::new(rt.alloc())?;
    let rows = [
        (0, None),
        (0x3C, None),
        (0x3D, Some(Broken::BadTable)),
        (0xBF, Some(Broken::BadTable)),
        (0xC0, None),
        (0xFFFC, None),
        (0xFFFD, Some(Broken::BadTable)),
        (0x2000_FFFC, None),
        (0x2000_FFFD, Some(Broken::BadTable)),
        (0x1FFF_FFFF, Some(Broken::BadTable)),
    ];
    for (at, want) in rows {
        assert_eq!(rt; test_word(&watch, at), want);
    }
    Ok(())
}

// Every register counts, ra, a0 and a1 among them.
#[test]
fn registers_that_stay(rt: HostRuntime) {
    let kept = [0; 32];
    let mut registers = Regs::new();
    assert!(rt; are_same(&kept, &registers));
    for r in 1..32 {
        registers.set(r, 1);
        assert!(rt; !are_same(&kept, &registers));
        registers.set(r, 0);
    }
    assert!(rt; are_same(&kept, &registers));
}
