/// What a token is.
#[derive(Clone, Copy, Debug, PartialEq, Eq, Default, Drop)]
pub enum TokenKind {
    /// A mnemonic, a directive, a register, a label.
    #[default]
    Name,
    /// Decimal or hexadecimal, with a minus or without.
    Number,
    Comma,
    Colon,
    /// An opening parenthesis.
    Open,
    /// A closing parenthesis.
    Close,
}
