// Kinds of a broken convention.

/// How a run breaks the convention.
#[derive(Clone, Copy, Debug, PartialEq, Eq, Drop)]
pub enum Broken {
    /// An instruction on control registers, or MRET, that the convention doesn't permit.
    CsrTouched,
    /// A handler returns, and a register but ra, a0 and a1 is not as it was when the handler began.
    RegisterLost,
    /// A body reads a dead byte or a byte of the slot.
    ReadsDispatch,
    /// A body stores into a live frame.
    WritesFrame,
    /// There is no place for a frame.
    StackBad,
    /// The table has no handler that could be called.
    BadTable,
    /// Interrupts don't go to the slot.
    NoDispatcher,
    /// The top is hardware-vectored.
    HardVectored,
    /// A body stands in the slot.
    EnteredDispatch,
    /// A body raises the exception of this code.
    Exception(u16),
    /// The board has halted while a service is live.
    HaltInHandler,
}
