// Where in a frame reading stands.

/// Within which part of a frame the bytes so far end.
#[derive(Clone, Copy, Debug, PartialEq, Eq, Drop)]
pub enum FramePlace {
    /// Outside: nothing has begun.
    Between,
    /// Behind `$` and some of the data.
    InData,
    /// Behind `#`.
    FirstDigit,
    /// Behind `#` and this byte.
    SecondDigit(u8),
}
