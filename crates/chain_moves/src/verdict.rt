// What the tests of a body come to.
use crate::broken::Broken;

/// Whether a body may be tried, and which dead bytes it revives.
#[derive(Clone, Copy, Debug, PartialEq, Eq, Drop)]
pub enum Verdict {
    /// A test holds.
    Refused(Broken),
    /// No test holds, and no byte is stored.
    Plain,
    /// No test holds, and so many bytes are stored.
    Reviving { at: u32, width: u32 },
}
