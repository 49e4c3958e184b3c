// What becomes of an instruction.

use crate::lint_why::LintWhy;

/// What was found at an address.
#[derive(Clone, Copy, Debug, PartialEq, Eq, Drop)]
pub enum Look {
    /// A rule holds.
    Refuses(LintWhy),
    /// The handler returns.
    Returns,
    /// It goes on at an address.
    GoesTo(u32),
    /// It goes on at one of two addresses.
    Branches(u32, u32),
}
