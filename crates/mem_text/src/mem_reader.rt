// A reader of memory text.
ghost use Rattle.std.specs.Prelude.{◌≡◌, ℕ, ◌+◌, ◌<◌, ◌≤◌, ◌^◌, ◌++◌, List, [], length, Ok, Err, IfOk, IfErr};
ghost use Rattle.hart_memory.specs.Image.{ImageView};
ghost use Rattle.mem_text.specs.Items.{IsMemoryText};
ghost use Rattle.mem_text.specs.Reading.{fresh, read_text};
ghost use Rattle.mem_text.specs.FirstWrong.{RefusesFirst};
ghost use Rattle.mem_text.specs.Standing.{Live, IsLive, HasRead, Foretells, Gives, Stays, Repeats, answer_of};

use crate::mem_error::MemError;
use crate::reading::Reading;
use hart_memory::Image;
use std::alloc::Global;
use std::marker::Model;

/// Reads a memory text piece by piece. It keeps what was laid down, and not the text.
#[derive(Drop)]
pub struct MemReader {
    reading: Reading,
    read: u32,
    failed: Option<MemError>,
}

impl Model for MemReader {
    ghost use Rattle.mem_text.specs.Standing.{ReaderView, standing_of};

    ghost Value = { ReaderView };

    ghost view = { λ r. record { read = r.read; standing = standing_of r.failed r.reading } };
}

impl MemReader {
    /// Nothing read yet. It takes no memory.
    pub fn new(alloc: Global, entry: u32) -> MemReader
        ensures view { result ≡ record { read = 0; standing = Live (fresh entry) } }
        ensures read { HasRead entry [] result }
    {
        MemReader {
            reading: Reading::new(alloc, entry),
            read: 0,
            failed: None,
        }
    }

    fn read_on(&mut self, piece: &[u8]) -> Result<(), MemError>
        requires live { IsLive self.old.standing }
        requires room { self.old.read + length piece.now < 2 ^ 32 }
        ensures read { (entry : ℕ) (bytes : List ℕ) → HasRead entry bytes self.old → HasRead entry (bytes ++ piece.now) self.new }
        ensures count { self.new.read ≤ self.old.read + length piece.now }
        ensures answer { result ≡ answer_of self.new.standing }
    {
        match self.reading.take_all(self.read, piece) {
            Ok(()) => {
                self.read += piece.len() as u32;
                Ok(())
            }
            Err(error) => {
                self.failed = Some(error);
                Err(error)
            }
        }
    }

    /// Reads a piece, which goes on where the last one ended.
    pub fn feed(&mut self, piece: &[u8]) -> Result<(), MemError>
        requires { self.old.read + length piece.now < 2 ^ 32 }
        ensures read { (entry : ℕ) (bytes : List ℕ) → HasRead entry bytes self.old → HasRead entry (bytes ++ piece.now) self.new }
        ensures count { self.new.read ≤ self.old.read + length piece.now }
        ensures answer { result ≡ answer_of self.new.standing }
        // It refuses exactly where every continuation of the bytes so far has that refusal.
        ensures foretells { (entry : ℕ) (bytes : List ℕ) → HasRead entry bytes self.old → Foretells entry (bytes ++ piece.now) self.new.standing }
        // Once it has failed it stays as it is.
        ensures stays { Stays self.old self.new }
    {
        match self.failed {
            Some(error) => Err(error),
            None => self.read_on(piece),
        }
    }

    /// The image of all that was read. The reader is given up.
    pub fn finish(self) -> Result<Image, MemError>
        // Of what was read it is the image, or the first refusal with its place.
        ensures exact { (entry : ℕ) (bytes : List ℕ) → HasRead entry bytes self → Gives (λ i. i) result (read_text entry bytes) }
        // It is an image exactly where the text is a memory text of it, unless memory was wanting.
        ensures found { (entry : ℕ) (bytes : List ℕ) → HasRead entry bytes self → IfOk result (λ i. IsMemoryText bytes entry i) }
        ensures only { (entry : ℕ) (bytes : List ℕ) → HasRead entry bytes self → (i : ImageView) → IsMemoryText bytes entry i → Gives (λ i. i) result (Ok i) }
        // Otherwise it is the first byte with which something is wrong, and what that is.
        ensures first { (entry : ℕ) (bytes : List ℕ) → HasRead entry bytes self → IfErr result (λ e. RefusesFirst entry bytes e) }
        // What it answered before it answers again.
        ensures stays { Repeats self.standing result }
    {
        match self.failed {
            Some(error) => Err(error),
            None => self.reading.into_image(self.read),
        }
    }
}
