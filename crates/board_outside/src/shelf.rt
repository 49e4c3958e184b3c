// Files that are fetched by name.
ghost use Rattle.std.specs.Prelude.{◌≡◌, ◌+◌, ◌≤◌, vec_len, IfOk, IfSome, IsTrue};
ghost use Rattle.board_outside.specs.Shelf.{ShelfView, file_at, Gives, CountsFetch, StaysSteady};

use std::alloc::Global;

/// The greatest limit of a fetch: 16 MiB.
pub const MOST_FETCHED: u64 = 16_777_216;

/// Why a file isn't given.
#[derive(Clone, Copy, Debug, PartialEq, Eq, Drop)]
pub enum ShelfFault {
    /// No file has that name.
    Absent,
    /// It couldn't be read.
    Failed,
    /// Memory was wanting.
    Memory,
}

/// A place that files are fetched from.
pub trait Shelf {
    /// The files, where it tells them, the counts of absences and of faults, and whether it is steady.
    ghost told: { Self → ShelfView };

    /// The first `limit + 1` bytes of a file, or all of a shorter one: a longer file than `limit` is
    /// known by the length of the answer.
    fn fetch(&mut self, alloc: Global, name: &str, limit: u64) -> Result<Vec<u8>, ShelfFault>
        requires { limit ≤ MOST_FETCHED }
        ensures size { IfOk result (λ v. vec_len v ≤ limit + 1) }
        ensures bytes { IfSome (told self.old).files (λ files. Gives (λ v. v.items) (file_at files name.now) limit result) }
        ensures counts { CountsFetch result (told self.old) (told self.new) }
        ensures kept { (told self.new).files ≡ (told self.old).files }
        ensures steady { IsTrue (told self.old).steady → StaysSteady (told self.old) (told self.new) };
}
