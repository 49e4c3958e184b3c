use super::*;
use std::test::Fail;

fn level_and_priority(clic: &Clic, i: u32) -> [u8; 2] {
    if i < clic.shape().inputs() {
        [clic.level_of(i), clic.priority_of(i)]
    } else {
        [0, 0]
    }
}

// A shape's bits, cliccfg, what is written to a control byte, and what is then read, the level and the priority.
#[test]
fn levels_and_priorities(rt: HostRuntime) -> Result<(), Fail> {
    let rows = [
        (8, 0x02, 0x40, [0x40, 127, 64]),
        (8, 0x02, 0xC0, [0xC0, 255, 64]),
        (8, 0x00, 0x40, [0x40, 255, 64]),
        (8, 0x10, 0x40, [0x40, 64, 0]),
        (3, 0x02, 0x40, [0x5F, 127, 95]),
        (3, 0x04, 0x40, [0x5F, 127, 31]),
        (0, 0x10, 0x40, [0xFF, 255, 0]),
    ];
    for (bits, config, control, want) in rows {
        let shape = Shape::of(64, bits).unwrap_or(Shape::plain());
        let mut clic = Clic::new(rt.alloc(), shape)?;
        assert!(rt; clic.write(0, config) && clic.write(0x100F, control));
        let read = clic.read(0x100F).unwrap_or(0);
        let [level, priority] = level_and_priority(&clic, 3);
        assert_eq!(rt; [read, level, priority], want, "of {control} with {bits}");
    }
    Ok(())
}

// The inputs and the bits of a shape, the last offset, and the control byte at reset.
#[test]
fn shapes(rt: HostRuntime) -> Result<(), Fail> {
    for (inputs, bits, last, control) in [
        (24, 8, 0x105F, 0x00),
        (64, 0, 0x10FF, 0xFF),
        (65, 2, 0x1103, 0x3F),
        (1024, 7, 0x1FFF, 0x01),
    ] {
        let shape = Shape::of(inputs, bits).unwrap_or(Shape::plain());
        let mut clic = Clic::new(rt.alloc(), shape)?;
        assert_eq!(rt; clic.read(last), Some(control));
        assert_eq!(rt; clic.read(last + 1), None);
        assert!(rt; clic.write(last, 0xFF) && !clic.write(last + 1, 0xFF));
        assert_eq!(rt; input_of(last, shape), Some(shape.inputs() - 1));
        assert_eq!(rt; input_of(last + 1, shape), None);
        assert!(rt; clic.shape() == shape && clic.copy(rt.alloc())?.shape() == shape);
    }
    Ok(())
}

// The same word twice to a fresh input: at first its pending byte comes while it is a level input.
#[test]
fn bytes(rt: HostRuntime) -> Result<(), Fail> {
    let mut clic = Clic::new(rt.alloc(), Shape::plain())?;
    let wanted = [[0x00, 0x01, 0xC2, 0x7F], [0x01, 0x01, 0xC2, 0x7F]];
    for want in wanted {
        for (offset, value) in [
            (0x1014, 0x01),
            (0x1015, 0x01),
            (0x1016, 0x02),
            (0x1017, 0x7F),
        ] {
            assert!(rt; clic.write(offset, value));
        }
        let read = [0x1014, 0x1015, 0x1016, 0x1017].map(|offset| clic.read(offset));
        assert_eq!(rt; read, want.map(Some));
    }
    assert!(rt; clic.write(0, 0x12) && clic.write(2, 0xFF));
    let config = [0, 1, 2, 3].map(|offset| clic.read(offset));
    assert_eq!(rt; config, [Some(0), Some(0), Some(0), Some(0)]);
    for offset in [4, 0xFFF, 0x1100] {
        assert_eq!(rt; clic.read(offset), None, "at {offset}");
        assert!(rt; !clic.write(offset, 1), "at {offset}");
    }
    Ok(())
}

// An attribute, and whether the input is pending after its line rises, falls and is claimed.
#[test]
fn lines(rt: HostRuntime) -> Result<(), Fail> {
    let rows = [
        (0, [true, false, false]),
        (2, [true, true, false]),
        (4, [false, true, true]),
        (6, [false, true, false]),
    ];
    for (attribute, want) in rows {
        let mut clic = Clic::new(rt.alloc(), Shape::plain())?;
        assert!(rt; clic.write(0x10FE, attribute));
        clic.set_line(63, true);
        let risen = clic.pending(63);
        clic.set_line(63, false);
        let copy = clic.copy(rt.alloc())?;
        clic.claim_clear(63);
        let seen = [risen, copy.pending(63), clic.pending(63)];
        assert_eq!(rt; seen, want, "with {attribute}");
    }
    Ok(())
}

#[test]
fn inputs_by_offset(rt: HostRuntime) {
    let rows = [
        (0x0, None),
        (0x3, None),
        (0xFFF, None),
        (0x1000, Some(0)),
        (0x1003, Some(0)),
        (0x1004, Some(1)),
        (0x10FF, Some(63)),
        (0x1100, None),
    ];
    for (offset, input) in rows {
        assert_eq!(rt; input_of(offset, Shape::plain()), input, "at {offset}");
    }
}
