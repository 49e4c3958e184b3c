// What is wrong with a text that is no memory text.

/// What is wrong at a place of the text.
#[derive(Clone, Copy, Debug, PartialEq, Eq, Drop)]
pub enum MemWhy {
    /// With this byte nothing can go on.
    BadByte,
    /// A number begins one segment more than an image may have.
    TooMany,
    /// A number's byte lies outside ROM and RAM.
    OutsideMemory,
    /// A number's byte is there already.
    Overlap,
    /// The text ends within a comment in `/*`, after a single `/`, or after `@`.
    Truncated,
}
