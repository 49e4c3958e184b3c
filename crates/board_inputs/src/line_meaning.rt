// What a line of a scenario says.
use hart_board::Event;

/// What a line of a scenario says.
#[derive(Clone, Copy, Debug, PartialEq, Eq, Drop)]
pub(crate) enum LineMeaning {
    /// The line is empty or a comment.
    Passed,
    Bad,
    Told(Event),
}
