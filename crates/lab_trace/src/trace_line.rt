// What a line of a trace tells.

/// A line of a trace.
#[derive(Clone, Copy, Debug, PartialEq, Eq, Drop)]
pub enum TraceLine {
    /// An instruction of 32 bits at an address.
    Word { pc: u32, bits: u32 },
    /// An instruction of 16 bits at an address.
    Half { pc: u32, bits: u16 },
    /// An interrupt or an exception is entered at an address.
    Entry { pc: u32 },
    /// A service begins.
    Service,
    /// Another line, as those of a report.
    Other,
}
