use crate::token_kind::TokenKind;

/// A token of a line, from the byte `start` to the byte before `end`.
#[derive(Clone, Copy, Debug, PartialEq, Eq, Default, Drop)]
pub struct Token {
    pub kind: TokenKind,
    pub start: usize,
    pub end: usize,
    /// A number's value; 0 for any other token.
    pub value: i64,
}
