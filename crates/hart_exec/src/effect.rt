// What an instruction asks for.

/// What an instruction asks for, by the registers and pc alone.
#[derive(Clone, Copy, Debug, PartialEq, Eq, Drop)]
pub enum Effect {
    /// Register `rd` gets the value, and pc becomes `next`.
    Go {
        rd: u8,
        value: u32,
        next: u32,
    },
    /// Register `rd` gets the `width` bytes at the address, extended by their sign or by zeros, and pc goes on.
    Load {
        rd: u8,
        at: u32,
        width: u32,
        signed: bool,
    },
    /// The `width` bytes at the address become the value's, and pc goes on.
    Store {
        at: u32,
        width: u32,
        value: u32,
    },
    /// The instruction acts on the privileged state: ECALL, EBREAK, MRET, WFI, or one on a CSR.
    System,
}
