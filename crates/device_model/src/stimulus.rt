// What comes to a device from outside.

/// What comes from outside. A device that has no use for it is left as it was.
#[derive(Clone, Copy, Debug, PartialEq, Eq, Drop)]
pub enum Stimulus {
    /// A byte on the serial input.
    Receive(u8),
    /// New states of the 32 pins.
    Pins(u32),
    /// So many counts of time.
    Tick(u32),
}
