// The operands of a line.
ghost use Rattle.std.specs.Prelude.{◌≡◌};
ghost use Rattle.asm_fields.specs.Operands.{no_operands};
ghost use Rattle.asm_fields.specs.Seen.{seen};

use crate::number::Number;

/// Registers, sets and numbers by the field that they become; what the line doesn't give is 0.
#[derive(Clone, Copy, Drop)]
pub struct Operands<'a> {
    pub rd: u8,
    pub rs1: u8,
    pub rs2: u8,
    pub csr: u16,
    pub amount: u32,
    pub number: Number<'a>,
}

/// The operands of a line that gives none.
pub fn without_operands<'a>() -> Operands<'a>
    ensures { seen result ≡ no_operands }
{
    Operands {
        rd: 0,
        rs1: 0,
        rs2: 0,
        csr: 0,
        amount: 0,
        number: Number::Given(0),
    }
}
