// What the operands of a line are made of.
use crate::field::Field;
use asm_text::TokenKind;

/// An operand, or a mark between operands.
#[derive(Clone, Copy, Debug, PartialEq, Eq, Drop)]
pub enum Item {
    Operand(Field),
    Mark(TokenKind),
}
