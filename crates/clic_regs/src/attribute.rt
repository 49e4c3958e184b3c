// The attribute byte of an input.
ghost use Rattle.std.specs.Prelude.{◌≡◌};
ghost use Rattle.clic_regs.specs.Attribute.{is_hard_vectored, is_edge, is_active};
ghost use Rattle.clic_regs.specs.LineChange.{pending_after};

/// shv: the hardware takes the handler's address from the table.
#[inline]
pub(crate) fn is_hard_vectored(attribute: u8) -> bool
    ensures { result ≡ is_hard_vectored attribute }
{
    attribute & 1 == 1
}

/// The lower bit of trig: the input is triggered by an edge, else by a level.
#[inline]
pub(crate) fn is_edge(attribute: u8) -> bool
    ensures { result ≡ is_edge attribute }
{
    (attribute >> 1) & 1 == 1
}

/// Whether the polarity takes the line for active: inverted where the upper bit of trig is set.
#[inline]
pub(crate) fn is_active(attribute: u8, high: bool) -> bool
    ensures { result ≡ is_active attribute high }
{
    let negative = (attribute >> 2) & 1 == 1;
    high != negative
}

/// The pending bit once the line that was `was` is `high`.
#[inline]
pub(crate) fn pending_after(attribute: u8, was: bool, pending: bool, high: bool) -> bool
    ensures { result ≡ pending_after attribute was pending high }
{
    let active = is_active(attribute, high);
    if is_edge(attribute) {
        pending || (!is_active(attribute, was) && active)
    } else {
        active
    }
}
