// What the tests of an Enter come to.
use crate::broken::Broken;

/// Whether a service may begin, and the address of its frame.
#[derive(Clone, Copy, Debug, PartialEq, Eq, Drop)]
pub enum Entry {
    Refused(Broken),
    Admitted(u32),
}
