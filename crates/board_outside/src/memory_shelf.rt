// A shelf in memory, whose calls can be made to fail.
ghost use Rattle.std.specs.Prelude.{◌≡◌, ◌+◌, ◌≤◌, vec_len, OnOk, OnErr, IfOk, IfSome, IsTrue, position, find, option_copied};
ghost use Rattle.std.specs.Str.{bytes_eq};
ghost use Rattle.board_outside.specs.Calls.{with_failing};
ghost use Rattle.board_outside.specs.Shelf.{file_at, Gives, CountsFetch, StaysSteady};
ghost use Rattle.board_outside.specs.MemoryShelf.{empty_shelf, with_file, shelf_view, found_file, after_fetch, AnswersFetch};

use crate::calls::Calls;
use crate::shelf::{MOST_FETCHED, Shelf, ShelfFault};
use crate::stored_file::StoredFile;
use hart_words::WantOfMemory;
use std::alloc::Global;
use std::marker::Model;

/// Files in memory. It tells them.
#[derive(Drop)]
pub struct MemoryShelf {
    alloc: Global,
    files: Vec<StoredFile>,
    calls: Calls,
    absences: u64,
    faults: u64,
}

impl Model for MemoryShelf {
    ghost use Rattle.board_outside.specs.MemoryShelf.{MemoryShelfState};

    ghost Value = { MemoryShelfState };

    ghost view = { λ s. record { files = s.files.items; calls = s.calls; absences = s.absences; faults = s.faults } };
}

fn place_of(files: &[StoredFile], name: &str) -> Option<usize>
    ensures { result ≡ position (λ f. bytes_eq f.name name.now) files.now }
{
    files.iter().position(|f| f.is_named(name))
}

fn file_named<'a>(files: &'a [StoredFile], name: &str) -> Option<&'a StoredFile>
    ensures { option_copied result ≡ find (λ f. bytes_eq f.name name.now) files.now }
{
    files.iter().find(|f| f.is_named(name))
}

impl MemoryShelf {
    /// No file, and no call that fails.
    pub fn new(alloc: Global) -> MemoryShelf
        ensures { result ≡ empty_shelf }
    {
        MemoryShelf {
            alloc,
            files: Vec::new(alloc),
            calls: Calls::new(alloc),
            absences: 0,
            faults: 0,
        }
    }

    /// Holds a file, in place of the one of that name.
    pub fn hold(&mut self, name: &str, bytes: &[u8]) -> Result<(), WantOfMemory>
        ensures ok { OnOk result (self.new ≡ record self.old { files = with_file self.old.files name.now bytes.now }) }
        ensures err { OnErr result (self.new ≡ self.old) }
    {
        let file = StoredFile::new(self.alloc, name, bytes)?;
        match place_of(&self.files, name) {
            Some(i) => self.files[i] = file,
            None => self.files.push(file)?,
        }
        Ok(())
    }

    /// The fetch of that number fails, the first being 1. Numbers stop at their last value.
    pub fn fail_at(&mut self, call: u64) -> Result<(), WantOfMemory>
        ensures ok { OnOk result (self.new ≡ record self.old { calls = with_failing self.old.calls call }) }
        ensures err { OnErr result (self.new ≡ self.old) }
    {
        self.calls.fail_at(call)
    }
}

impl Shelf for MemoryShelf {
    ghost told = { λ s. shelf_view s };

    fn fetch(&mut self, alloc: Global, name: &str, limit: u64) -> Result<Vec<u8>, ShelfFault>
        requires { limit ≤ MOST_FETCHED }
        ensures size { IfOk result (λ v. vec_len v ≤ limit + 1) }
        ensures bytes { IfSome (shelf_view self.old).files (λ files. Gives (λ v. v.items) (file_at files name.now) limit result) }
        ensures counts { CountsFetch result (shelf_view self.old) (shelf_view self.new) }
        ensures kept { (shelf_view self.new).files ≡ (shelf_view self.old).files }
        ensures steady { IsTrue (shelf_view self.old).steady → StaysSteady (shelf_view self.old) (shelf_view self.new) }
        ensures after { self.new ≡ after_fetch self.old name.now }
        ensures answer { AnswersFetch (λ v. v.items) limit result (found_file self.old name.now) }
    {
        if self.calls.is_to_fail() {
            self.faults = self.faults.saturating_add(1);
            return Err(ShelfFault::Failed);
        }
        let Some(file) = file_named(&self.files, name) else {
            self.absences = self.absences.saturating_add(1);
            return Err(ShelfFault::Absent);
        };
        let bytes = file.bytes();
        let end = bytes.len().min(limit as usize + 1);
        match bytes[..end].to_vec(alloc) {
            Ok(v) => Ok(v),
            Err(_) => Err(ShelfFault::Memory),
        }
    }
}
