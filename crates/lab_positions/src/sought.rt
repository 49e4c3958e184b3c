// What is sought.
ghost use Rattle.std.specs.Prelude.{◌≡◌, ◌≤◌, ◌↔◌, ◌==◌, not, filter, [], length, IsTrue};
ghost use Rattle.std.specs.Bool.{OnTrue, OnFalse};
ghost use Rattle.lab_positions.specs.Sought.{is_break, with_break};
ghost use Rattle.lab_positions.specs.declared.until.Until.TheVariants.{Never};

use crate::until::Until;
use crate::watch::Watch;
use arrayvec::ArrayVec;
use std::marker::Model;

/// How many breakpoints there may be, and how many watches.
pub const MAX_SOUGHT: usize = 64;

/// Breakpoints, watches, and where to stop by a count. They take no memory.
#[derive(Drop)]
pub struct Sought {
    breaks: ArrayVec<u32, MAX_SOUGHT>,
    watches: ArrayVec<Watch, MAX_SOUGHT>,
    until: Until,
}

impl Model for Sought {
    ghost use Rattle.lab_positions.specs.Sought.{Search};

    ghost Value = { Search };

    ghost view = { λ s. record { breaks = s.breaks.items; watches = s.watches.items; until = s.until } };
}

impl Sought {
    /// Nothing.
    pub fn new() -> Sought
        ensures { result ≡ record { breaks = []; watches = []; until = Never } }
    {
        Sought {
            breaks: ArrayVec::new(),
            watches: ArrayVec::new(),
            until: Until::Never,
        }
    }

    /// Whether a breakpoint stands at the address.
    pub fn is_break(&self, at: u32) -> bool
        ensures { result ≡ is_break at self.now.breaks }
    {
        self.breaks.as_slice().contains(&at)
    }

    /// The watches, in the order in which they are told.
    pub(crate) fn watches(&self) -> &[Watch]
        ensures { result.now ≡ self.now.watches }
    {
        self.watches.as_slice()
    }

    /// Where to stop by a count.
    pub(crate) fn until(&self) -> Until
        ensures { result ≡ self.now.until }
    {
        self.until
    }

    /// Sets a breakpoint, unless as many others stand as may be. Answers whether one stands there now.
    #[tactic(auto, unfolding(crate::specs::Sought::with_break))]
    pub fn set_break(&mut self, at: u32) -> bool
        ensures set { self.new ≡ record self.old { breaks = with_break at self.old.breaks } }
        ensures stands { result ≡ is_break at self.new.breaks }
    {
        if self.is_break(at) {
            return true;
        }
        if self.breaks.len() >= MAX_SOUGHT {
            return false;
        }
        self.breaks.push(at);
        true
    }

    /// Takes a breakpoint away, where one stands there.
    pub fn clear_break(&mut self, at: u32)
        ensures { self.new ≡ record self.old { breaks = filter (λ b. not (b == at)) self.old.breaks } }
    {
        self.breaks.retain(|b| *b != at);
    }

    /// Asks for a count to stop at.
    pub fn set_until(&mut self, until: Until)
        ensures { self.new ≡ record self.old { until = until } }
    {
        self.until = until;
    }

    /// Watches these bytes, which are told in this order, in place of those before. `false`: they are
    /// more than may be.
    pub fn set_watches(&mut self, watches: &[Watch]) -> bool
        ensures few { IsTrue result ↔ (length watches.now ≤ MAX_SOUGHT) }
        ensures set { OnTrue result (self.new ≡ record self.old { watches = watches.now }) }
        ensures same { OnFalse result (self.new ≡ self.old) }
    {
        let mut list = ArrayVec::new();
        if let Err(_) = list.try_extend_from_slice(watches) {
            return false;
        }
        self.watches = list;
        true
    }
}
