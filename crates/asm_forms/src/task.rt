// What a line asks for.
use crate::kind::Kind;
use asm_fields::Operands;

/// A form's kind with the operands of the line.
#[derive(Clone, Copy, Drop)]
pub struct Task<'a> {
    pub kind: Kind,
    pub operands: Operands<'a>,
}
