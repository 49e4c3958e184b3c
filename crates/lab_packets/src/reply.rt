// Answers that are always the same.
ghost use Rattle.std.specs.Prelude.{◌≡◌};
ghost use Rattle.lab_packets.specs.Answers.{reply_data};

/// An answer that is always the same.
#[derive(Clone, Copy, Debug, PartialEq, Eq, Drop)]
pub enum Reply {
    /// Which packets there are.
    Supports,
    Done,
    /// It can't be done, or the packet is malformed.
    Refuses,
    /// There is no such text.
    NoFile,
    /// There is no such packet.
    Empty,
}

impl Reply {
    /// The packet's data.
    pub fn data(self) -> &'static str
        ensures { result.now ≡ reply_data self }
    {
        match self {
            Reply::Supports => "PacketSize=4000;qXfer:features:read+;ReverseStep+;ReverseContinue+",
            Reply::Done => "OK",
            Reply::Refuses => "E01",
            Reply::NoFile => "E00",
            Reply::Empty => "",
        }
    }
}
