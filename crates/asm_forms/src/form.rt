// A row of the table of forms.
use crate::kind::Kind;
use asm_fields::Item;

/// A name, the operands that follow it, and what the line does. What no operand gives is 0.
#[derive(Clone, Copy, Drop)]
pub struct Form {
    pub name: &'static str,
    pub items: &'static [Item],
    pub kind: Kind,
}
