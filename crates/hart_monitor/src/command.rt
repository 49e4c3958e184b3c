// The commands of a script.

/// A command of a script.
#[derive(Clone, Copy, Debug, PartialEq, Eq, Drop)]
pub enum Command {
    /// At most so many steps, with the line of each.
    Step(u32),
    /// Steps until the board has halted, a breakpoint is reached, or so many were made.
    Run(u32),
    /// A breakpoint at this address.
    Break(u32),
    /// pc and the registers.
    Regs,
    /// The control and status registers.
    Csr,
    /// So many bytes of memory from an address on.
    Mem { at: u32, count: u32 },
    /// The controller's bytes of this input.
    Clic(u32),
    /// A change of an input's line.
    Line { input: u32, high: bool },
    /// Back to what was kept latest.
    Back,
}
