// Why a run of the monitor stopped.

/// Why a run of the monitor stopped.
#[derive(Clone, Copy, Debug, PartialEq, Eq, Drop)]
pub(crate) enum Stop {
    /// The board has halted.
    Halt,
    /// A breakpoint stands at pc.
    Break,
    /// As many steps were made as might be.
    Budget,
    /// The table's word for the input that is due isn't in memory.
    Vector,
}
