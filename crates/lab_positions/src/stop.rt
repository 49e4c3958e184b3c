// Why going forward or back stopped.

/// Why going forward or back stopped.
#[derive(Clone, Copy, Debug, PartialEq, Eq, Drop)]
pub enum Stop {
    /// The board has halted with this code.
    Halt(u32),
    /// A byte of the watch that begins at this address is another than before the step.
    Watch(u32),
    /// A breakpoint stands at pc.
    Break,
    /// The step was the entry of this exception, at this address.
    Exception { pc: u32, code: u16 },
    /// The count is reached that was asked for.
    Until,
    /// The table's word for the input that is due isn't in memory, so that no step was made.
    Vector(u32),
    /// As many steps were made as might be.
    Bound,
    /// The base is reached.
    Begin,
}
