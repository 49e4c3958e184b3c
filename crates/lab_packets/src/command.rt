// The commands of gdb's `monitor`.

/// A command of `monitor`. Whether there is such an input, and whether there are bodies, isn't known here.
#[derive(Clone, Copy, Debug, PartialEq, Eq, Drop)]
pub enum Command {
    Help,
    Steps,
    /// A continue makes so many steps at most.
    Bound(u32),
    /// A continue stops where so many steps are made.
    Until(u32),
    /// A continue stops where so many bodies are made.
    UntilBody(u32),
    /// A continue stops at neither.
    UntilOff,
    /// The controller's bytes of this input.
    Clic(u32),
    /// A change of an input's line.
    Line { input: u32, high: bool },
    /// A byte comes at the serial port.
    Receive(u8),
    /// The input pins.
    Pins(u32),
    /// So many ticks pass.
    Tick(u32),
    NoSuch,
}
