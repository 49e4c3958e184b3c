// Outcomes, with the counts that gave them.
ghost use Rattle.std.specs.Prelude.{◌≡◌, ◌<◌, [], length, slice_get, option_map, Some, OnOk};
ghost use Rattle.lab_sweep.specs.Rows.{raised};
ghost use Rattle.lab_sweep.specs.Sweep.{with_outcome};

use crate::tally::Tally;
use hart_words::WantOfMemory;
use indexmap::IndexMap;
use std::alloc::Global;
use std::marker::Model;

// What an outcome had so far, with one count more.
fn raised(count: u64, found: Option<Tally>) -> Tally
    ensures { result ≡ raised count found }
{
    match found {
        Some(tally) => Tally {
            counts: tally.counts.saturating_add(1),
            first: tally.first,
        },
        None => Tally {
            counts: 1,
            first: count,
        },
    }
}

/// The different outcomes, in the order in which they first came.
#[derive(Drop)]
pub struct Outcomes {
    table: IndexMap<Vec<u8>, Tally>,
}

impl Model for Outcomes {
    ghost use Rattle.std.specs.Prelude.{List, map};
    ghost use Rattle.lab_sweep.specs.Sweep.{Row};
    ghost use Rattle.lab_sweep.specs.Rows.{row_of};

    ghost Value = { List Row };

    ghost view = { λ o. map row_of o.table.entries };
}

impl Outcomes {
    pub(crate) fn new(alloc: Global) -> Outcomes
        ensures { result ≡ [] }
    {
        Outcomes {
            table: IndexMap::new(alloc),
        }
    }

    /// How many different outcomes there are.
    pub fn len(&self) -> usize
        ensures { result ≡ length self.now }
    {
        self.table.len()
    }

    /// An outcome, by the order in which they first came from 0 on, with what gave it.
    pub fn row(&self, i: usize) -> (&[u8], Tally)
        requires { i < length self.now }
        ensures { slice_get self.now i ≡ Some (record { outcome = result.0.now; counts = result.1.counts; first = result.1.first }) }
    {
        match self.table.get_index(i) {
            Some((outcome, tally)) => (outcome.as_slice(), *tally),
            None => (
                b"",
                Tally {
                    counts: 0,
                    first: 0,
                },
            ),
        }
    }

    // One count more gave this outcome.
    pub(crate) fn add(&mut self, count: u64, outcome: Vec<u8>) -> Result<(), WantOfMemory>
        ensures { OnOk result (self.new ≡ with_outcome count outcome.items self.old) }
    {
        let tally = raised(count, self.table.get(&outcome).copied());
        self.table.insert(outcome, tally)?;
        Ok(())
    }
}
