// Level and priority of a control byte.
ghost use Rattle.std.specs.Prelude.{◌≡◌, ◌≤◌};
ghost use Rattle.clic_regs.specs.Filled.{filled};
ghost use Rattle.clic_regs.specs.Level.{level, priority};

/// The upper `upper` bits of a byte, with the bits below filled with ones.
#[inline]
pub(crate) fn filled(upper: u8, byte: u8) -> u8
    requires { upper ≤ 8 }
    ensures { result ≡ filled upper byte }
{
    let unit = 1u16 << (8 - upper);
    let byte = u16::from(byte);
    (byte - byte % unit + unit - 1) as u8
}

/// The level: the upper `nlbits` bits of the control byte, with the bits below filled with ones.
#[inline]
pub(crate) fn level(nlbits: u8, control: u8) -> u8
    requires { nlbits ≤ 8 }
    ensures { result ≡ level nlbits control }
{
    filled(nlbits, control)
}

/// The priority: the bits of the control byte below its level.
#[inline]
pub(crate) fn priority(nlbits: u8, control: u8) -> u8
    requires { nlbits ≤ 8 }
    ensures { result ≡ priority nlbits control }
{
    let unit = 1u16 << (8 - nlbits);
    (u16::from(control) % unit) as u8
}
