// What a dispatcher does next.
use crate::entry::Entry;

/// The move that is due where it isn't a body, with what the tests of an Enter come to.
#[derive(Clone, Copy, Drop)]
pub enum Next {
    Enter(Entry),
    Leave,
    Fuse(Entry),
}
