// The two dispatchers, and their words.
ghost use Rattle.std.specs.Prelude.{◌≡◌, ◌<◌};
ghost use Rattle.chain_moves.specs.Words.{claim_word, branch_word, slot_words, dispatch_word, word_count};

/// A dispatcher that claims the next input before it goes back, or one that goes back first.
#[derive(Clone, Copy, Debug, PartialEq, Eq, Drop)]
pub enum Dispatcher {
    Looping,
    Returning,
}

const NOP: u32 = 0x0000_0013;

// csrrsi a0, mnxti, 8
fn claim_word(d: Dispatcher) -> u32
    ensures { result ≡ claim_word d }
{
    match d {
        Dispatcher::Looping => 0x3454_6573,
        Dispatcher::Returning => NOP,
    }
}

// bne a0, zero, 0x6C
fn branch_word(d: Dispatcher) -> u32
    ensures { result ≡ branch_word d }
{
    match d {
        Dispatcher::Looping => 0xFE05_14E3,
        Dispatcher::Returning => NOP,
    }
}

// The words of the whole slot.
pub(crate) fn slot_words(d: Dispatcher) -> [u32; 32]
    ensures { result ≡ slot_words d }
{
    let claim = claim_word(d);
    let branch = branch_word(d);
    [
        0x3491_1173, // 40: csrrw sp, mscratchcswl, sp
        0xFE01_0113, // 44: addi sp, sp, -32
        0x0011_2023, // 48: sw ra, 0(sp)
        0x00A1_2223, // 4C: sw a0, 4(sp)
        0x00B1_2423, // 50: sw a1, 8(sp)
        0x3420_2573, // 54: csrrs a0, mcause, zero
        0x00A1_2623, // 58: sw a0, 12(sp)
        0x3410_2573, // 5C: csrrs a0, mepc, zero
        0x00A1_2823, // 60: sw a0, 16(sp)
        0x3454_6573, // 64: csrrsi a0, mnxti, 8
        0x0205_0063, // 68: beq a0, zero, 0x88
        0x0005_2583, // 6C: lw a1, 0(a0)
        0x0005_80E7, // 70: jalr ra, 0(a1)
        0x3004_7073, // 74: csrrci zero, mstatus, 8
        0x00C1_2503, // 78: lw a0, 12(sp)
        0x3425_1073, // 7C: csrrw zero, mcause, a0
        claim, // 80: csrrsi a0, mnxti, 8, or nop
        branch, // 84: bne a0, zero, 0x6C, or nop
        0x3004_7073, // 88: csrrci zero, mstatus, 8
        0x0101_2503, // 8C: lw a0, 16(sp)
        0x3415_1073, // 90: csrrw zero, mepc, a0
        0x00C1_2503, // 94: lw a0, 12(sp)
        0x3425_1073, // 98: csrrw zero, mcause, a0
        0x0001_2083, // 9C: lw ra, 0(sp)
        0x0041_2503, // A0: lw a0, 4(sp)
        0x0081_2583, // A4: lw a1, 8(sp)
        0x0201_0113, // A8: addi sp, sp, 32
        0x3491_1173, // AC: csrrw sp, mscratchcswl, sp
        0x3020_0073, // B0: mret
        0,
        0,
        0,
    ]
}

/// Word i of a dispatcher, of which the first stands at the slot's first address.
pub fn dispatch_word(d: Dispatcher, i: u32) -> u32
    requires { i < word_count }
    ensures { result ≡ dispatch_word d i }
{
    slot_words(d)[i as usize]
}
