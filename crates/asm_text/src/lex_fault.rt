/// Why the rest of a line isn't read. Each has the place of a byte in the line, from 0 on.
#[derive(Clone, Copy, Debug, PartialEq, Eq, Drop)]
pub enum LexFault {
    /// A byte that begins no token and isn't blank.
    BadChar(usize),
    /// The first byte of a number that isn't written as one, or is too large.
    BadNumber(usize),
    /// The first byte of the 17th token.
    TooManyTokens(usize),
}
