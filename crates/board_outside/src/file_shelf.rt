// The files of the system.
ghost use Rattle.std.specs.Prelude.{◌≡◌, ◌+◌, ◌≤◌, vec_len, IfOk, OnErr, IfSome, IsTrue};
ghost use Rattle.board_outside.specs.Shelf.{file_at, Gives, CountsFetch, StaysSteady};
ghost use Rattle.board_outside.specs.Reads.{no_reads, system_view, after_file};

use crate::reads::Reads;
use crate::shelf::{MOST_FETCHED, Shelf, ShelfFault};
use crate::streams::fetched;
use std::alloc::Global;
use std::fs;
use std::marker::Model;
use std::rt::Files;

/// Files of the system, seen as what was read of them. It tells nothing of their content.
#[derive(Drop)]
pub struct FileShelf<'a, R: Files> {
    rt: &'a R,
    reads: Reads,
}

impl<'a, R: Files> Model for FileShelf<'a, R> {
    ghost use Rattle.board_outside.specs.Reads.{ReadsState};

    ghost Value = { ReadsState };

    ghost view = { λ s. s.reads };
}

impl<'a, R: Files> FileShelf<'a, R> {
    /// Nothing read yet.
    pub fn new(rt: &'a R) -> FileShelf<'a, R>
        ensures { result ≡ no_reads }
    {
        FileShelf {
            rt,
            reads: Reads::new(),
        }
    }

    /// How many bytes were read.
    pub fn bytes_read(&self) -> u64
        ensures { result ≡ self.now.bytes }
    {
        self.reads.bytes()
    }

    /// How often the end of a file was met.
    pub fn ends_met(&self) -> u64
        ensures { result ≡ self.now.ends }
    {
        self.reads.ends()
    }
}

impl<'a, R: Files> Shelf for FileShelf<'a, R> {
    ghost told = { λ s. system_view s };

    fn fetch(&mut self, alloc: Global, name: &str, limit: u64) -> Result<Vec<u8>, ShelfFault>
        requires { limit ≤ MOST_FETCHED }
        ensures size { IfOk result (λ v. vec_len v ≤ limit + 1) }
        ensures bytes { IfSome (system_view self.old).files (λ files. Gives (λ v. v.items) (file_at files name.now) limit result) }
        ensures counts { CountsFetch result (system_view self.old) (system_view self.new) }
        ensures kept { (system_view self.new).files ≡ (system_view self.old).files }
        ensures steady { IsTrue (system_view self.old).steady → StaysSteady (system_view self.old) (system_view self.new) }
        // A file has as many bytes as were read, and fewer than the limit allows only where its end was met.
        ensures given { IfOk result (λ v. self.new ≡ after_file self.old (vec_len v) (limit + 1)) }
        ensures unfinished { OnErr result (self.new.ends ≡ self.old.ends) }
    {
        fetched(&mut self.reads, alloc, fs::open(self.rt, name), limit)
    }
}
