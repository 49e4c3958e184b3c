// A sink that keeps nothing.
ghost use Rattle.std.specs.Prelude.{◌≡◌, None};

use crate::sink::{Sink, SinkFault};

/// A sink that takes everything, keeps nothing and never fails.
#[derive(Clone, Copy, Debug, PartialEq, Eq, Drop)]
pub struct Quiet;

impl Quiet {
    pub fn new() -> Quiet
        ensures { ⟦<Quiet as Sink>⟧.told result ≡ record { written = None; room = None; faults = 0 } }
    {
        Quiet
    }
}

impl Sink for Quiet {
    ghost told = { λ _. record { written = None; room = None; faults = 0 } };

    fn put(&mut self, _bytes: &[u8]) -> Result<(), SinkFault> {
        Ok(())
    }
}
