// Inputs, their levels, and how often each comes.
ghost use Rattle.std.specs.Prelude.{◌≡◌, ◌≤◌, ◌<◌, ◌++◌, ◌∷◌, [], length, OnOk};
ghost use Rattle.std.specs.List.{All};
ghost use Rattle.chain_time.specs.Table.{IsTriple};

use crate::triple::Triple;
use hart_words::WantOfMemory;
use std::alloc::Global;
use std::marker::Model;

/// How many triples a list has at most.
pub const MAX_TRIPLES: usize = 1024;

/// Inputs with the levels of their services and how often each comes, seen as a list. None of the levels is
/// 0, and there are at most 1,024 of them.
#[derive(Drop)]
pub struct Triples {
    triples: Vec<Triple>,
}

impl Model for Triples {
    ghost use Rattle.std.specs.Prelude.{◌≤◌, List, length};
    ghost use Rattle.std.specs.List.{All};
    ghost use Rattle.chain_time.specs.Table.{IsTriple};
    ghost use Rattle.chain_time.specs.declared.triple.Triple.{Triple};

    ghost Value = { List Triple };

    ghost view = { λ t. t.triples.items };

    ghost invariant = { λ t. All IsTriple t.triples.items × (length t.triples.items ≤ 1024) };
}

impl Triples {
    /// No triple.
    pub fn new(alloc: Global) -> Triples
        ensures { result ≡ [] }
    {
        Triples {
            triples: Vec::new(alloc),
        }
    }

    /// Adds a triple at the end.
    pub fn push(&mut self, triple: Triple) -> Result<(), WantOfMemory>
        requires level { 1 ≤ triple.level }
        requires room { length self.old < MAX_TRIPLES }
        ensures { OnOk result (self.new ≡ self.old ++ triple ∷ []) }
    {
        Ok(self.triples.push(triple)?)
    }

    pub fn as_slice(&self) -> &[Triple]
        ensures triples { result.now ≡ self.now }
        ensures levels { All IsTriple self.now }
        ensures few { length self.now ≤ 1024 }
    {
        &self.triples
    }
}
