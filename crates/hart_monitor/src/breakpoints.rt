// Breakpoints.
ghost use Rattle.std.specs.Prelude.{◌≡◌, []};
ghost use Rattle.hart_monitor.specs.Breaks.{is_break, with_break};

use arrayvec::ArrayVec;
use std::marker::Model;

/// How many breakpoints there may be.
pub const MAX_BREAKS: usize = 16;

/// Breakpoints, seen as a list of addresses. They take no memory.
#[derive(Drop)]
pub(crate) struct Breakpoints {
    list: ArrayVec<u32, MAX_BREAKS>,
}

impl Model for Breakpoints {
    ghost use Rattle.std.specs.Prelude.{ℕ, List};

    ghost Value = { List ℕ };

    ghost view = { λ b. b.list.items };
}

impl Breakpoints {
    /// None.
    pub(crate) fn new() -> Breakpoints
        ensures { result ≡ [] }
    {
        Breakpoints {
            list: ArrayVec::new(),
        }
    }

    pub(crate) fn contains(&self, at: u32) -> bool
        ensures { result ≡ is_break at self.now }
    {
        self.list.as_slice().contains(&at)
    }

    /// Sets one, unless as many others stand as may be. Answers whether one stands there now.
    #[tactic(auto, unfolding(crate::specs::Breaks::with_break))]
    pub(crate) fn set(&mut self, at: u32) -> bool
        ensures set { self.new ≡ with_break at self.old }
        ensures stands { result ≡ is_break at self.new }
    {
        if self.contains(at) {
            return true;
        }
        if self.list.len() >= MAX_BREAKS {
            return false;
        }
        self.list.push(at);
        true
    }
}
