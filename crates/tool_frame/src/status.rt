// How a command ended.
ghost use Rattle.std.specs.Prelude.{◌≡◌};

/// How a command ended.
#[derive(Clone, Copy, Debug, PartialEq, Eq, Drop)]
pub enum Status {
    /// The work is done.
    Done,
    /// The run reached its bound.
    BudgetSpent,
    /// The words are no command.
    Usage,
    /// A file isn't there.
    Absent,
    /// A file couldn't be read.
    ShelfFailed,
    /// A file was refused.
    Refused,
    /// The text couldn't be written.
    SinkFailed,
    /// Memory was wanting.
    Memory,
    /// The convention of a chain is broken.
    Broken,
    /// The table's word for an input isn't in memory.
    VectorFault,
    /// A handler is refused, or a table's word is.
    Rejected,
}

impl Status {
    ghost use Rattle.tool_frame.specs.Code.{code_of};

    /// The exit status of the program.
    pub fn code(&self) -> u8
        ensures { result ≡ code_of self.now }
    {
        match *self {
            Status::Done => 0,
            Status::BudgetSpent => 1,
            Status::Usage => 2,
            Status::Absent => 3,
            Status::ShelfFailed => 4,
            Status::Refused => 5,
            Status::SinkFailed => 6,
            Status::Memory => 7,
            Status::Broken => 8,
            Status::VectorFault => 9,
            Status::Rejected => 11,
        }
    }
}
