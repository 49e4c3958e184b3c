// Assembler source: the tokens of a line, the names of registers, and text that is read again.
#![tactic(auto)]

mod byte_class;
mod csrs;
mod found;
pub mod laws;
mod lex_fault;
mod lexer;
mod named;
mod number;
mod printing;
mod registers;
#[cfg(test)]
mod tests;
mod token;
mod token_kind;
mod tokens;

pub use csrs::{csr_name, csr_of};
pub use lex_fault::LexFault;
pub use lexer::lex_line;
pub use named::{Named, name_in, number_in};
pub use printing::{put_decimal, put_hexadecimal};
pub use registers::{register_name, register_of};
pub use token::Token;
pub use token_kind::TokenKind;
pub use tokens::{MAX_TOKENS, Tokens};
