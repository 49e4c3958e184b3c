// Pieces of memory that a file's bytes fill.
ghost use Rattle.std.specs.Prelude.{◌≡◌, ◌≤◌, length, insert, not, OnOk, OnErr};
ghost use Rattle.lab_elf.specs.Loading.{are_apart, meets_any, put_in};

use hart_words::WantOfMemory;

// So many bytes from an offset of the file, which go to an address.
#[derive(Clone, Copy, Drop)]
pub(crate) struct Piece {
    pub(crate) at: u32,
    pub(crate) offset: u32,
    pub(crate) size: u32,
}

impl Piece {
    // Whether both have an address in common.
    fn meets(&self, other: &Piece) -> bool
        ensures { result ≡ not (are_apart self.now other.now) }
    {
        let end = u64::from(self.at) + u64::from(self.size);
        if end <= u64::from(other.at) {
            return false;
        }
        u64::from(other.at) + u64::from(other.size) > u64::from(self.at)
    }

    // Whether it has an address in common with one of these.
    pub(crate) fn meets_any(&self, taken: &[Piece]) -> bool
        ensures { result ≡ meets_any self.now taken.now }
    {
        taken.iter().any(|other| self.meets(other))
    }

    // How many of these stand before the first one at a higher address.
    fn rank(&self, taken: &[Piece]) -> usize
        ensures inside { result ≤ length taken.now }
        ensures put { put_in self.now taken.now ≡ insert taken.now result self.now }
    {
        for (i, other) in taken.iter().enumerate() {
            if self.at < other.at {
                return i;
            }
        }
        taken.len()
    }

    // Puts it where its address wants it.
    pub(crate) fn put_in(self, taken: &mut Vec<Piece>) -> Result<(), WantOfMemory>
        ensures { OnOk result (taken.new.items ≡ put_in self taken.old.items) }
    {
        let i = self.rank(taken);
        taken.insert(i, self)?;
        Ok(())
    }
}
