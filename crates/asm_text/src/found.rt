use crate::lex_fault::LexFault;
use crate::token::Token;

// What stands at a place of a line.
#[derive(Clone, Copy, Debug, PartialEq, Eq, Drop)]
pub enum Found {
    Space,
    Comment,
    Token(Token),
    Fault(LexFault),
}
