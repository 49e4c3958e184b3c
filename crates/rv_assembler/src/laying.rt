// Where the bytes of a source come to lie.
ghost use Rattle.std.specs.Prelude.{◌≡◌, not, IfOk};
ghost use Rattle.rv_assembler.specs.Laying.{laid, nothing_laid, overlaps, are_apart, shut};
ghost use Rattle.rv_assembler.specs.Stops.{Becomes};

use crate::stop::Stop;
use crate::stretch::Stretch;
use asm_forms::{AsmWhy, Extent};
use hart_memory::{MAX_SEGMENTS, place_of};
use hart_words::WantOfMemory;
use std::alloc::Global;
use std::marker::Model;

/// The place of the next line, the segment that grows, those that are done, and whether the entry was named.
#[derive(Drop)]
pub(crate) struct Laying {
    pub(crate) place: u32,
    pub(crate) growing: Option<Stretch>,
    pub(crate) closed: Vec<Stretch>,
    pub(crate) entered: bool,
}

impl Model for Laying {
    ghost use Rattle.rv_assembler.specs.Laying.{Laid, Ends};

    ghost Value = { Laid };

    ghost view = { λ l. record { place = l.place; growing = l.growing; closed = l.closed.items; entered = l.entered } };

    ghost invariant = { λ l. Ends l.growing l.place };
}

#[tactic(auto, using(std::proofs::lemmas::Bool::Decides::nat_tests))]
fn are_apart(t: Stretch, s: Stretch) -> bool
    ensures { result ≡ are_apart t s }
{
    u64::from(t.base) + u64::from(t.size) <= u64::from(s.base)
        || u64::from(s.base) + u64::from(s.size) <= u64::from(t.base)
}

fn overlaps(t: Stretch, stretches: &[Stretch]) -> bool
    ensures { result ≡ overlaps t stretches.now }
{
    stretches.iter().any(|s| !are_apart(t, *s))
}

impl Laying {
    pub(crate) fn new(alloc: Global) -> Laying
        ensures { result ≡ nothing_laid }
    {
        Laying {
            place: 0,
            growing: None,
            closed: Vec::new(alloc),
            entered: false,
        }
    }

    /// Lays what a line does. After an error nothing is said of what was laid.
    #[tactic(auto, using(std::proofs::lemmas::Bool::Decides::nat_tests), unfolding(crate::specs::Laying::laid))]
    pub(crate) fn lay(&mut self, extent: Extent) -> Result<(), Stop>
        ensures { Becomes result self.new (laid extent self.old) }
    {
        match extent {
            Extent::Org(to) => {
                if let Some(s) = self.growing {
                    self.closed.push(s)?;
                }
                self.growing = None;
                self.place = to;
                Ok(())
            }
            Extent::Entry => {
                if self.entered {
                    return Err(Stop::Refused(AsmWhy::BadOperands));
                }
                self.entered = true;
                Ok(())
            }
            Extent::Takes(count) => self.take(count),
        }
    }

    #[tactic(auto, using(std::proofs::lemmas::Bool::Decides::nat_tests), unfolding(crate::specs::Laying::laid, hart_memory::specs::Place::place))]
    fn take(&mut self, count: u32) -> Result<(), Stop>
        ensures { Becomes result self.new (laid (Extent.Takes count) self.old) }
    {
        let (base, size) = match self.growing {
            Some(s) => (s.base, s.size),
            None => {
                if self.closed.len() >= MAX_SEGMENTS {
                    return Err(Stop::Refused(AsmWhy::TooLarge));
                }
                (self.place, 0)
            }
        };
        let total = match size.checked_add(count) {
            Some(total) => total,
            None => return Err(Stop::Refused(AsmWhy::OutsideMemory)),
        };
        if !place_of(base, total).is_in_memory() {
            return Err(Stop::Refused(AsmWhy::OutsideMemory));
        }
        let stretch = Stretch { base, size: total };
        if overlaps(stretch, &self.closed) {
            return Err(Stop::Refused(AsmWhy::Overlap));
        }
        self.growing = Some(stretch);
        self.place += count;
        Ok(())
    }

    pub(crate) fn is_entered(&self) -> bool
        ensures { result ≡ self.now.entered }
    {
        self.entered
    }

    /// The segments, with the one that grew.
    pub(crate) fn into_stretches(self) -> Result<Vec<Stretch>, WantOfMemory>
        ensures { IfOk result (λ v. v.items ≡ shut self.growing self.closed) }
    {
        let Laying {
            growing,
            mut closed,
            ..
        } = self;
        if let Some(stretch) = growing {
            closed.push(stretch)?;
        }
        Ok(closed)
    }
}
