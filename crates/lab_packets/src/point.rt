// Where a continue stops.

/// What stops a continue.
#[derive(Clone, Copy, Debug, PartialEq, Eq, Drop)]
pub enum Point {
    /// An instruction at this address.
    Break(u32),
    /// A change of one of so many bytes from an address on.
    Watch { at: u32, length: u32 },
}
