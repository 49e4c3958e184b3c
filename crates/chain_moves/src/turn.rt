// What is due next.
use crate::entry::Entry;
use crate::verdict::Verdict;

/// The move that is due, with what its tests come to. A Leave may be fused with the Enter after it.
#[derive(Clone, Copy, Debug, PartialEq, Eq, Drop)]
pub enum Turn {
    Enter(Entry),
    Leave,
    Fuse(Entry),
    Body(Verdict),
}
