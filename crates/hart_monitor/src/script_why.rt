// What is wrong with a file that is no script.

/// What is wrong in a line.
#[derive(Clone, Copy, Debug, PartialEq, Eq, Drop)]
pub enum ScriptWhy {
    /// The line is neither empty nor a comment nor a command.
    BadLine,
    /// It is one command more than a script may have.
    TooMany,
}
