// A reason that was found on the way.
use crate::stop::Stop;

/// Why to stop, and at how many steps.
#[derive(Clone, Copy, Debug, PartialEq, Eq, Drop)]
pub(crate) struct Found {
    pub(crate) why: Stop,
    pub(crate) steps: u64,
}
