use super::*;
use hart_memory::{Banks, place_of};
use std::alloc::Global;
use std::process::Abort;
use std::test::Fail;

const RET: u32 = 0x00008067;

// On the handler that begins where these bytes stand, with the stack from an address to RAM's end.
fn verdict(
    rt: &impl Abort,
    alloc: Global,
    at: u32,
    bytes: &[u8],
    low: u32,
) -> Result<Verdict, Fail> {
    let mut code = Banks::new(alloc)?;
    let mut place = at;
    for byte in bytes {
        assert!(rt; place_of(place, 1).is_in_memory());
        code.place(place, *byte);
        place = place.wrapping_add(1);
    }
    let region = Region {
        low,
        high: 0x2001_0000,
    };
    Ok(lint_code(alloc, &code, at, &region)?)
}

// The same of words.
fn of_words(
    rt: &impl Abort,
    alloc: Global,
    at: u32,
    words: &[u32],
    low: u32,
) -> Result<Verdict, Fail> {
    let mut bytes = Vec::new(alloc);
    for word in words {
        bytes.extend_from_slice(&word.to_le_bytes())?;
    }
    verdict(rt, alloc, at, &bytes, low)
}

fn no(why: LintWhy, at: u32) -> Verdict {
    Verdict::No { why, at }
}

// The handler of these words at 200, with the upper half of RAM for the stack, has this verdict.
fn gives(rt: &impl Abort, alloc: Global, words: &[u32], answer: Verdict) -> Result<(), Fail> {
    let first = words.first().copied().unwrap_or(0);
    assert_eq!(rt;
        of_words(rt, alloc, 0x200, words, 0x2000_8000)?,
        answer,
        "{first}"
    );
    Ok(())
}

// So have those of two words each: the rule that they break, and the address.
fn refused(rt: &impl Abort, alloc: Global, cases: &[(u32, u32, LintWhy, u32)]) -> Result<(), Fail> {
    for (first, second, why, at) in cases {
        gives(rt, alloc, &[*first, *second], no(*why, *at))?;
    }
    Ok(())
}

// lui a0, 0x10000; lw a1, 0(a0); sw a1, 0(a0); lui a0, 0x20000; lw a1, 0(a0); addi a1, a1, 1;
// sw a1, 0(a0); ret
const RECEIVES: [u32; 8] = [
    0x10000537, 0x00052583, 0x00B52023, 0x20000537, 0x00052583, 0x00158593, 0x00B52023, RET,
];

#[test]
fn a_handler_without_a_stack(rt: HostRuntime) -> Result<(), Fail> {
    assert_eq!(rt;
        of_words(&rt, rt.alloc(), 0x27C, &RECEIVES, 0x2000_8000)?,
        Verdict::Yes { uses: 0 }
    );
    assert_eq!(rt;
        of_words(&rt, rt.alloc(), 0x27C, &RECEIVES, 0x2000_0000)?,
        no(LintWhy::RegionAccess, 0x28C)
    );
    Ok(())
}

#[test]
fn a_register_that_is_saved(rt: HostRuntime) -> Result<(), Fail> {
    // addi sp, sp, -16; sw s0, 0(sp); addi s0, zero, 1; lw s0, 0(sp); addi sp, sp, 16; ret
    let saves = [
        0xFF010113, 0x00812023, 0x00100413, 0x00012403, 0x01010113, RET,
    ];
    gives(&rt, rt.alloc(), &saves, Verdict::Yes { uses: 16 })?;
    // the same without its lw
    let loses = [0xFF010113, 0x00812023, 0x00100413, 0x01010113, RET];
    gives(&rt, rt.alloc(), &loses, no(LintWhy::RegisterChanged, 0x210))?;
    // lw t0, 12(sp); ret
    gives(
        &rt,
        rt.alloc(),
        &[0x00C12283, RET],
        no(LintWhy::StackAccess, 0x200),
    )
}

// Each rule but the first, at the address where it holds: of what may be executed, and where to.
#[test]
fn rules_of_control(rt: HostRuntime) -> Result<(), Fail> {
    let cases = [
        // ecall; ebreak; mret; csrci mstatus, 8
        (0x00000073, RET, LintWhy::System, 0x200),
        (0x00100073, RET, LintWhy::System, 0x200),
        (0x30200073, RET, LintWhy::System, 0x200),
        (0x30047073, RET, LintWhy::System, 0x200),
        // a word of zeros; nop and then one
        (0x00000000, RET, LintWhy::NotSpelled, 0x200),
        (0x00000013, 0x00000000, LintWhy::NotSpelled, 0x204),
        // jal zero, to itself; wfi and beq zero, zero, back to it; c.j to itself
        (0x0000006F, RET, LintWhy::Backwards, 0x200),
        (0x10500073, 0xFE000EE3, LintWhy::Backwards, 0x204),
        (0x0000A001, RET, LintWhy::Backwards, 0x200),
        // jal zero, 1,024 bytes back, which is above: past address 0
        (0xC01FF06F, RET, LintWhy::CodeOutside, 0xFFFF_FE00),
        // jalr zero, 0(a0); jalr ra, 0(ra); jalr zero, 4(ra)
        (0x00050067, RET, LintWhy::UnknownTarget, 0x200),
        (0x000080E7, RET, LintWhy::UnknownTarget, 0x200),
        (0x00408067, RET, LintWhy::UnknownTarget, 0x200),
    ];
    refused(&rt, rt.alloc(), &cases)
}

// Of what is read and written.
#[test]
fn rules_of_data(rt: HostRuntime) -> Result<(), Fail> {
    let cases = [
        // lw t0, 0(a0); sb zero, 1(t0); lw sp, 0(a0), which breaks a later rule too
        (0x00052283, RET, LintWhy::UnknownAddress, 0x200),
        (0x000280A3, RET, LintWhy::UnknownAddress, 0x200),
        (0x00052103, RET, LintWhy::UnknownAddress, 0x200),
        // sw zero, 0(sp), which is the frame; sw zero, -4(sp), which is below the stack pointer
        (0x00012023, RET, LintWhy::StackAccess, 0x200),
        (0xFE012E23, RET, LintWhy::StackAccess, 0x200),
        // lui a0, 0x20008; sw zero, 0(a0)
        (0x20008537, 0x00052023, LintWhy::RegionAccess, 0x204),
        // lui a0, 0x20008; sh zero, -1(a0)
        (0x20008537, 0xFE051FA3, LintWhy::RegionAccess, 0x204),
        // lw t0, 64(zero); lb t0, 191(zero)
        (0x04002283, RET, LintWhy::RegionAccess, 0x200),
        (0x0BF00283, RET, LintWhy::RegionAccess, 0x200),
        // addi sp, sp, -2; addi sp, sp, 4; lui sp, 0x20010
        (0xFFE10113, RET, LintWhy::StackPointer, 0x200),
        (0x00410113, RET, LintWhy::StackPointer, 0x200),
        (0x20010137, RET, LintWhy::StackPointer, 0x200),
        // addi t0, zero, 1; addi sp, sp, -16
        (0x00100293, RET, LintWhy::RegisterChanged, 0x204),
        (0xFF010113, RET, LintWhy::RegisterChanged, 0x204),
    ];
    refused(&rt, rt.alloc(), &cases)
}

#[test]
fn handlers_that_are_accepted(rt: HostRuntime) -> Result<(), Fail> {
    let cases = [
        // wfi
        ([0x10500073, RET, 0], 0),
        // lw t0, 60(zero) would change t0: lw a0, 60(zero); lw a0, 192(zero)
        ([0x03C02503, 0x0C002503, RET], 0),
        // a store into the slot raises, and breaks in no kind of the four: sw zero, 64(zero)
        ([0x04002023, RET, 0], 0),
        // lui a0, 0x20008; sw zero, -4(a0)
        ([0x20008537, 0xFE052E23, RET], 0),
        // addi sp, sp, -16; addi sp, sp, 16
        ([0xFF010113, 0x01010113, RET], 16),
        // jal a0, 4; lw a1, 0(a0)
        ([0x0040056F, 0x00052583, RET], 0),
        // beq a0, a1, over the word 0
        ([0x00B50463, RET, RET], 0),
        // add a0, zero, sp; addi sp, a0, 0
        ([0x00200533, 0x00050113, RET], 0),
    ];
    for (words, uses) in cases {
        gives(&rt, rt.alloc(), &words, Verdict::Yes { uses })?;
    }
    Ok(())
}

#[test]
fn stack_words_that_may_not_be_there(rt: HostRuntime) -> Result<(), Fail> {
    // addi sp, sp, -16; beq a0, zero, 8; sw s0, 0(sp); lw s0, 0(sp): one way to the load has no store
    let joined = [
        0xFF010113, 0x00050463, 0x00812023, 0x00012403, 0x01010113, RET,
    ];
    gives(&rt, rt.alloc(), &joined, no(LintWhy::StackAccess, 0x20C))?;
    // addi sp, sp, -16; sw s0, 0(sp); addi sp, sp, 16; addi sp, sp, -16; lw s0, 0(sp): a nested frame
    // may have been there
    let raised = [
        0xFF010113, 0x00812023, 0x01010113, 0xFF010113, 0x00012403, RET,
    ];
    gives(&rt, rt.alloc(), &raised, no(LintWhy::StackAccess, 0x210))
}

#[test]
fn stack_words_that_are_written_over(rt: HostRuntime) -> Result<(), Fail> {
    // addi sp, sp, -16; sw s0, 0(sp); sb zero, 0(sp)
    let bytes = [0xFF010113, 0x00812023, 0x00010023, 0x01010113, RET, 0];
    gives(&rt, rt.alloc(), &bytes, no(LintWhy::StackAccess, 0x208))?;
    // addi sp, sp, -8; sw s0, 0(sp); sw s1, 0(sp); lw s0, 0(sp): the word is s1's
    let other = [
        0xFF810113, 0x00812023, 0x00912023, 0x00012403, 0x00810113, RET,
    ];
    gives(&rt, rt.alloc(), &other, no(LintWhy::RegisterChanged, 0x214))
}

#[test]
fn values_that_meet(rt: HostRuntime) -> Result<(), Fail> {
    // lui a0, 0x10000; beq a1, zero, 8; lui a0, 0x20000; lw a1, 0(a0)
    let differ = [0x10000537, 0x00058463, 0x20000537, 0x00052583, RET];
    gives(&rt, rt.alloc(), &differ, no(LintWhy::UnknownAddress, 0x20C))?;
    // the same with 0x10000 both ways
    let agree = [0x10000537, 0x00058463, 0x10000537, 0x00052583, RET];
    gives(&rt, rt.alloc(), &agree, Verdict::Yes { uses: 0 })
}

#[test]
fn the_deepest_stack(rt: HostRuntime) -> Result<(), Fail> {
    // addi sp, sp, -2048, twice; addi sp, sp, 2032, twice; addi sp, sp, 32; ret
    let deep = [
        0x80010113, 0x80010113, 0x7F010113, 0x7F010113, 0x02010113, RET,
    ];
    gives(&rt, rt.alloc(), &deep, Verdict::Yes { uses: 4096 })?;
    // addi sp, sp, -2048, twice; addi sp, sp, -4
    gives(
        &rt,
        rt.alloc(),
        &[0x80010113, 0x80010113, 0xFFC10113],
        no(LintWhy::StackPointer, 0x208),
    )
}

// So many nops of two bytes or of four, and then a return, at 200.
fn long(rt: &impl Abort, alloc: Global, nop: &[u8], count: usize) -> Result<Verdict, Fail> {
    let mut bytes = Vec::new(alloc);
    for _ in 0..count {
        bytes.extend_from_slice(nop)?;
    }
    bytes.extend_from_slice(&RET.to_le_bytes())?;
    verdict(rt, alloc, 0x200, &bytes, 0x2000_8000)
}

#[test]
fn a_thousand_addresses(rt: HostRuntime) -> Result<(), Fail> {
    let short = b"\x01\0".as_slice();
    let nop = b"\x13\0\0\0".as_slice();
    for (nop, end) in [(nop, 0x1200), (short, 0xA00)] {
        let yes = Verdict::Yes { uses: 0 };
        assert_eq!(rt; long(&rt, rt.alloc(), nop, 1023)?, yes);
        let no = no(LintWhy::TooLong, end);
        assert_eq!(rt; long(&rt, rt.alloc(), nop, 1024)?, no);
    }
    Ok(())
}

#[test]
fn code_at_the_edges(rt: HostRuntime) -> Result<(), Fail> {
    let nop = b"\x13\0".as_slice();
    let ret = b"\x82\x80".as_slice();
    let outside = [
        // the second half of the word at 3E is in the slot; so is the half-word at BE
        (0x3E, nop),
        (0xBE, ret),
        // the second half is past ROM; code in RAM is none
        (0xFFFE, b"\x13\x05".as_slice()),
        (0x2000_0000, ret),
    ];
    for (at, bytes) in outside {
        assert_eq!(rt;
            verdict(&rt, rt.alloc(), at, bytes, 0x2000_8000)?,
            no(LintWhy::CodeOutside, at)
        );
    }
    assert_eq!(rt;
        verdict(&rt, rt.alloc(), 0x3E, ret, 0x2000_8000)?,
        Verdict::Yes { uses: 0 }
    );
    Ok(())
}
