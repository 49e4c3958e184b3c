// What was handed to standard output, in counts.
ghost use Rattle.std.specs.Prelude.{◌≡◌, ◌<◌, ◌≤◌, length, IfOk};
ghost use Rattle.std.specs.Io.KnownBytes.{WriteAppends};
ghost use Rattle.board_outside.specs.Puts.{no_puts, CountsWrite};

use crate::sink::SinkFault;
use crate::tries::write_through;
use std::io::Write;
use std::marker::Model;

/// The bytes that were taken, and the failures. Only a write changes them.
#[derive(Drop)]
pub struct Puts {
    bytes: u64,
    faults: u64,
}

impl Model for Puts {
    ghost use Rattle.board_outside.specs.Puts.{PutsState};

    ghost Value = { PutsState };

    ghost view = { λ p. record { bytes = p.bytes; faults = p.faults } };
}

impl Puts {
    pub fn new() -> Puts
        ensures { result ≡ no_puts }
    {
        Puts {
            bytes: 0,
            faults: 0,
        }
    }

    pub fn bytes(&self) -> u64
        ensures { result ≡ self.now.bytes }
    {
        self.bytes
    }

    /// Writes once, and counts what was taken. That nothing of the piece is taken is a failure.
    pub fn write<W: Write>(&mut self, writer: &mut W, piece: &[u8]) -> Result<usize, SinkFault>
        requires { 0 < length piece.now }
        ensures size { IfOk result (λ n. (0 < n) × (n ≤ length piece.now)) }
        ensures bytes { WriteAppends (W.contents writer.old) (W.contents writer.new) result piece.now }
        ensures counts { CountsWrite result self.old self.new }
    {
        match write_through(writer, piece) {
            Ok(n) if n > 0 => {
                self.bytes = self.bytes.saturating_add(n as u64);
                Ok(n)
            }
            _ => {
                self.faults = self.faults.saturating_add(1);
                Err(SinkFault::Failed)
            }
        }
    }
}
