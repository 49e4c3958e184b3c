// Why a handler is refused.

/// The rule that holds at an address.
#[derive(Clone, Copy, Debug, PartialEq, Eq, Drop)]
pub enum LintWhy {
    /// It is the 1,025th address.
    TooLong,
    /// A half-word of the instruction isn't in ROM, or has a byte in the slot.
    CodeOutside,
    /// The bits spell no instruction.
    NotSpelled,
    /// A system instruction that isn't WFI.
    System,
    /// A jump or a branch that may go to its own address or a lower one.
    Backwards,
    /// A jump by a register that isn't the return.
    UnknownTarget,
    /// The address of a load or a store is not known.
    UnknownAddress,
    /// An access to the stack that isn't to a word of the handler's own, or a load of one that wasn't
    /// stored.
    StackAccess,
    /// An access by a number that meets the region, or a load from the slot.
    RegionAccess,
    /// The stack pointer isn't known, or isn't a multiple of 4 from 4,096 bytes below the start up to it.
    StackPointer,
    /// A return where a register isn't as it was.
    RegisterChanged,
}
