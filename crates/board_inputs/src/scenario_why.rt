// What is wrong with a file that is no scenario.

/// What is wrong in a line.
#[derive(Clone, Copy, Debug, PartialEq, Eq, Drop)]
pub enum ScenarioWhy {
    /// The line is neither empty nor a comment nor an event.
    BadLine,
    /// Its count is below the count of the event before.
    OutOfOrder,
    /// It is one event more than a scenario may have.
    TooMany,
}
