// Where text goes.
ghost use Rattle.std.specs.Prelude.{is_ok};
ghost use Rattle.board_outside.specs.Sink.{SinkView, Writes};

/// Not all bytes were taken.
#[derive(Clone, Copy, Debug, PartialEq, Eq, Drop)]
pub enum SinkFault {
    Failed,
}

/// A place that text is written to.
pub trait Sink {
    /// The bytes that were written and the room that is left, where it tells them, and the count of faults.
    ghost told: { Self → SinkView };

    /// Writes all the bytes. After a failure a front of them is written.
    fn put(&mut self, bytes: &[u8]) -> Result<(), SinkFault>
        ensures { Writes (is_ok result) (told self.old) (told self.new) bytes.now };
}
