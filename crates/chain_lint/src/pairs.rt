// Inputs and their levels.
ghost use Rattle.std.specs.Prelude.{◌≡◌, ◌≤◌, ◌++◌, ◌∷◌, [], OnOk};
ghost use Rattle.std.specs.List.{All};
ghost use Rattle.chain_lint.specs.Tables.{IsPair};

use crate::pair::Pair;
use hart_words::WantOfMemory;
use std::alloc::Global;
use std::marker::Model;

/// Inputs with the levels of their services, seen as a list. None of the levels is 0.
#[derive(Drop)]
pub struct Pairs {
    pairs: Vec<Pair>,
}

impl Model for Pairs {
    ghost use Rattle.std.specs.Prelude.{List};
    ghost use Rattle.std.specs.List.{All};
    ghost use Rattle.chain_lint.specs.Tables.{IsPair};
    ghost use Rattle.chain_lint.specs.declared.pair.Pair.{Pair};

    ghost Value = { List Pair };

    ghost view = { λ p. p.pairs.items };

    ghost invariant = { λ p. All IsPair p.pairs.items };
}

impl Pairs {
    /// No pair.
    pub fn new(alloc: Global) -> Pairs
        ensures { result ≡ [] }
    {
        Pairs {
            pairs: Vec::new(alloc),
        }
    }

    /// Adds a pair at the end.
    pub fn push(&mut self, pair: Pair) -> Result<(), WantOfMemory>
        requires { 1 ≤ pair.level }
        ensures { OnOk result (self.new ≡ self.old ++ pair ∷ []) }
    {
        Ok(self.pairs.push(pair)?)
    }

    pub fn as_slice(&self) -> &[Pair]
        ensures pairs { result.now ≡ self.now }
        ensures levels { All IsPair self.now }
    {
        &self.pairs
    }
}
