// What is wrong with a file that is no table of names.

/// What is wrong in a line.
#[derive(Clone, Copy, Debug, PartialEq, Eq, Drop)]
pub enum NamesWhy {
    /// The line is neither empty nor eight hexadecimal digits, a space and a name.
    BadLine,
    /// It is one name more than a file may have.
    TooMany,
}
