// The one error of whatever takes memory.
use std::alloc::{AllocError, AllocFailed};

/// Memory was wanting. The call that answers it has changed nothing, unless it says otherwise.
#[derive(Clone, Copy, Debug, PartialEq, Eq, Drop)]
pub struct WantOfMemory;

impl From<AllocError> for WantOfMemory {
    fn from(_: AllocError) -> Self {
        WantOfMemory
    }
}

impl<T: Drop> From<AllocFailed<T>> for WantOfMemory {
    fn from(_: AllocFailed<T>) -> Self {
        WantOfMemory
    }
}
