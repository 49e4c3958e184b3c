// What was read of the files of the system, in counts.
ghost use Rattle.std.specs.Prelude.{◌≡◌, ◌≢◌, ◌<◌, ◌≤◌, length, IfOk, IfErr};
ghost use Rattle.std.specs.Io.KnownBytes.{ReadConsumes};
ghost use Rattle.std.specs.IoError.{error_kind};
ghost use Rattle.board_outside.specs.Shelf.{CountsRefusal};
ghost use Rattle.board_outside.specs.Reads.{no_reads, system_view, ReadsNothing, CountsRead};

use crate::shelf::ShelfFault;
use crate::tries::read_through;
use std::io::{Error, ErrorKind, Read};
use std::marker::Model;

/// The bytes that were read, the ends of files that were met, the files that were absent, and the
/// failures. Only a read and a file that isn't opened change them.
#[derive(Drop)]
pub struct Reads {
    bytes: u64,
    ends: u64,
    absences: u64,
    faults: u64,
}

impl Model for Reads {
    ghost use Rattle.board_outside.specs.Reads.{ReadsState};

    ghost Value = { ReadsState };

    ghost view = { λ r. record { bytes = r.bytes; ends = r.ends; absences = r.absences; faults = r.faults } };
}

impl Reads {
    pub fn new() -> Reads
        ensures { result ≡ no_reads }
    {
        Reads {
            bytes: 0,
            ends: 0,
            absences: 0,
            faults: 0,
        }
    }

    pub fn bytes(&self) -> u64
        ensures { result ≡ self.now.bytes }
    {
        self.bytes
    }

    pub fn ends(&self) -> u64
        ensures { result ≡ self.now.ends }
    {
        self.ends
    }

    /// Reads once, and counts what came. No byte comes only at the end.
    pub fn read<F: Read>(&mut self, file: &mut F, piece: &mut [u8]) -> Result<usize, ShelfFault>
        requires { 0 < length piece.old }
        ensures size { IfOk result (λ n. n ≤ length piece.new) }
        ensures bytes { ReadConsumes (F.remaining file.old) (F.remaining file.new) result piece.new }
        ensures failed { IfErr result (λ fault. fault ≡ ShelfFault.Failed) }
        ensures counts { CountsRead result self.old self.new }
    {
        match read_through(file, piece) {
            Ok(n) => {
                if n == 0 {
                    self.ends = self.ends.saturating_add(1);
                } else {
                    self.bytes = self.bytes.saturating_add(n as u64);
                }
                Ok(n)
            }
            Err(_) => {
                self.faults = self.faults.saturating_add(1);
                Err(ShelfFault::Failed)
            }
        }
    }

    /// Counts a file that wasn't opened, and says why.
    pub fn refuse(&mut self, error: &Error) -> ShelfFault
        ensures absent { error_kind error.now ≡ ErrorKind.NotFound → result ≡ ShelfFault.Absent }
        ensures failed { error_kind error.now ≢ ErrorKind.NotFound → result ≡ ShelfFault.Failed }
        ensures kept { ReadsNothing self.old self.new }
        ensures counts { CountsRefusal result (system_view self.old) (system_view self.new) }
    {
        if error.kind() == ErrorKind::NotFound {
            self.absences = self.absences.saturating_add(1);
            return ShelfFault::Absent;
        }
        self.faults = self.faults.saturating_add(1);
        ShelfFault::Failed
    }
}
