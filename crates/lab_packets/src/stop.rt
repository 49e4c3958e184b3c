// Why the board stands where it does.

/// Why a step, a continue, or going back ended.
#[derive(Clone, Copy, Debug, PartialEq, Eq, Drop)]
pub enum Stop {
    /// At a breakpoint, where it was asked to, or after one step.
    Trap,
    /// A watched byte changed, of those from this address on.
    Watched(u32),
    /// Nothing before can be gone back to.
    Begin,
    Halted { code: u32, steps: u64 },
    Exception { code: u32, at: u32 },
    /// The vector of this input isn't in memory.
    NoVector(u32),
    /// As many steps were made as a continue makes.
    Bounded(u32),
}
