// Where in a text reading stands.

/// What the bytes so far are within.
#[derive(Clone, Copy, Debug, PartialEq, Eq, Drop)]
pub(crate) enum Token {
    /// White space, the end of a comment, or the text's beginning: anything may begin.
    Between,
    AfterSlash,
    LineComment,
    BlockComment,
    /// A comment in `/*`, straight after a star.
    AfterStar,
    /// After `@`, before a digit.
    AfterAt,
    /// So many digits of an address, and what they mean.
    Address { digits: u32, value: u32 },
    /// So many digits of a number, and what they mean.
    Number { digits: u32, value: u32 },
}
