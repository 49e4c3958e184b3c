// Kinds of move.

/// A move of the servicing machine.
#[derive(Clone, Copy, Debug, PartialEq, Eq, Drop)]
pub enum Move {
    /// A service begins.
    Enter,
    /// The innermost service ends.
    Leave,
    /// One instruction of the foreground or of a handler.
    Body,
}
