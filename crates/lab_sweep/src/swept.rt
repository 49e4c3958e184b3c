// What a sweep found.
ghost use Rattle.std.specs.Prelude.{◌≡◌, ◌||◌, [], false, OnOk};
ghost use Rattle.lab_sweep.specs.Sweep.{is_broken, is_spent, with_outcome};

use crate::outcomes::Outcomes;
use chain_core::ChainEnd;
use hart_words::WantOfMemory;
use std::alloc::Global;

/// The outcomes, and whether a chain broke the convention, and whether one reached its bound.
#[derive(Drop)]
pub struct Swept {
    pub outcomes: Outcomes,
    pub broken: bool,
    pub spent: bool,
}

fn is_broken(end: &ChainEnd) -> bool
    ensures { result ≡ is_broken end.now }
{
    match end {
        ChainEnd::Broken { .. } => true,
        ChainEnd::Done { .. } | ChainEnd::BudgetSpent | ChainEnd::SinkFailed => false,
    }
}

fn is_spent(end: &ChainEnd) -> bool
    ensures { result ≡ is_spent end.now }
{
    match end {
        ChainEnd::BudgetSpent => true,
        ChainEnd::Done { .. } | ChainEnd::Broken { .. } | ChainEnd::SinkFailed => false,
    }
}

impl Swept {
    pub(crate) fn new(alloc: Global) -> Swept
        ensures outcomes { result.outcomes ≡ [] }
        ensures broken { result.broken ≡ false }
        ensures spent { result.spent ≡ false }
    {
        Swept {
            outcomes: Outcomes::new(alloc),
            broken: false,
            spent: false,
        }
    }

    // A chain came to this at one count more.
    pub(crate) fn add(
        &mut self,
        count: u64,
        outcome: Vec<u8>,
        end: &ChainEnd,
    ) -> Result<(), WantOfMemory>
        ensures outcomes { OnOk result (self.new.outcomes ≡ with_outcome count outcome.items self.old.outcomes) }
        ensures broken { OnOk result (self.new.broken ≡ (self.old.broken || is_broken end.now)) }
        ensures spent { OnOk result (self.new.spent ≡ (self.old.spent || is_spent end.now)) }
    {
        self.outcomes.add(count, outcome)?;
        self.broken = self.broken || is_broken(end);
        self.spent = self.spent || is_spent(end);
        Ok(())
    }
}
