use super::*;

// A register's number, what it reads at reset, and what it reads after a write of all ones: None
// where it is read-only.
const REGISTERS: [(u16, u32, Option<u32>); 16] = [
    (0x300, 0x0000_1800, Some(0x0000_1888)),
    (0x301, 0x4000_1104, Some(0x4000_1104)),
    (0x304, 0, Some(0)),
    (0x305, 0x0000_0003, Some(0xFFFF_FFC3)),
    (0x307, 0, Some(0xFFFF_FFC0)),
    (0x340, 0, Some(0xFFFF_FFFF)),
    (0x341, 0, Some(0xFFFF_FFFE)),
    (0x342, 0x3000_0000, Some(0xB8FF_0FFF)),
    (0x343, 0, Some(0xFFFF_FFFF)),
    (0x344, 0, Some(0)),
    (0x347, 0, Some(0x0000_00FF)),
    (0xF11, 0, None),
    (0xF12, 0, None),
    (0xF13, 0, None),
    (0xF14, 0, None),
    (0xFB1, 0, None),
];

#[test]
fn every_number(rt: HostRuntime) {
    for number in 0..4096 {
        let mut want = (None, None);
        for (at, reset, ones) in REGISTERS {
            if at == number {
                want = (Some(reset), ones);
            }
        }
        let mut csrs = Csrs::new();
        assert_eq!(rt; csrs.read(number), want.0, "at {number}");
        match csrs.write(number, 0xFFFF_FFFF) {
            Some(()) => assert_eq!(rt; csrs.read(number), want.1, "at {number}"),
            None => assert_eq!(rt; want.1, None, "at {number}"),
        }
    }
}

// The fields of mcause by hand: interrupt, MPIE, level 0xC0 before it, code 0x10.
#[test]
fn fields(rt: HostRuntime) {
    let mut csrs = Csrs::new();
    csrs.set_mie(true);
    csrs.set_mpie(true);
    csrs.set_mtvec_base(0x40);
    csrs.set_mtvt(0x100);
    csrs.set_mscratch(0x2000_8000);
    csrs.set_mepc(0x25C);
    csrs.set_interrupt(true);
    csrs.set_mpil(0xC0);
    csrs.set_exccode(0x10);
    csrs.set_mtval(7);
    csrs.set_mil(0x7F);
    csrs.set_th(0x3F);
    assert_eq!(rt; csrs.read(0x300), Some(0x1888));
    assert_eq!(rt; csrs.read(0x305), Some(0x43));
    assert_eq!(rt; csrs.read(0x307), Some(0x100));
    assert_eq!(rt; csrs.read(0x340), Some(0x2000_8000));
    assert_eq!(rt; csrs.read(0x341), Some(0x25C));
    assert_eq!(rt; csrs.read(0x342), Some(0xB8C0_0010));
    assert_eq!(rt; csrs.read(0x343), Some(7));
    assert_eq!(rt; csrs.read(0x347), Some(0x3F));
    assert_eq!(rt; csrs.read(0xFB1), Some(0x7F00_0000));
    let copy = csrs;
    assert!(rt; copy.mie() && copy.mpie() && copy.interrupt());
    let words = [
        copy.mtvec_base(),
        copy.mtvt(),
        copy.mscratch(),
        copy.mepc(),
        copy.mtval(),
    ];
    assert_eq!(rt; words, [0x40, 0x100, 0x2000_8000, 0x25C, 7]);
    assert_eq!(rt; [copy.mpil(), copy.mil(), copy.th()], [0xC0, 0x7F, 0x3F]);
    assert_eq!(rt; copy.exccode(), 0x10);
}
