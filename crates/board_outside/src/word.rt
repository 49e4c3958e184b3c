// One word of a command line.
ghost use Rattle.std.specs.Prelude.{◌≡◌, IfOk};

use hart_words::WantOfMemory;
use std::alloc::Global;
use std::convert::AsStr;
use std::marker::Model;

/// A word, seen as its bytes.
#[derive(Drop)]
pub struct Word {
    text: String,
}

impl Model for Word {
    ghost use Rattle.std.specs.Prelude.{ℕ, List, string_bytes};

    ghost Value = { List ℕ };

    ghost view = { λ w. string_bytes w.text };
}

impl Word {
    pub fn new(alloc: Global, text: &str) -> Result<Word, WantOfMemory>
        ensures { IfOk result (λ w. w ≡ text.now) }
    {
        Ok(Word {
            text: String::from_str(alloc, text)?,
        })
    }
}

impl AsStr for Word {
    ghost text = { λ w. w };

    fn as_str(&self) -> &str {
        self.text.as_str()
    }
}
