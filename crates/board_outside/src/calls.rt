// Calls that are numbered, some of which are made to fail.
ghost use Rattle.std.specs.Prelude.{◌≡◌, OnOk, OnErr, IsTrue, false, nat_eq};
ghost use Rattle.std.specs.List.{list_any};
ghost use Rattle.board_outside.specs.Calls.{no_calls, with_failing, counted_call, is_failing, none_to_come};

use hart_words::WantOfMemory;
use std::alloc::Global;
use std::marker::Model;

/// The calls made so far, and the numbers of those that are to fail. The first call has number 1,
/// and numbers stop at their last value.
#[derive(Drop)]
pub struct Calls {
    failing: Vec<u64>,
    made: u64,
}

impl Model for Calls {
    ghost use Rattle.board_outside.specs.Calls.{CallsState};

    ghost Value = { CallsState };

    ghost view = { λ c. record { failing = c.failing.items; made = c.made } };
}

impl Calls {
    pub fn new(alloc: Global) -> Calls
        ensures { result ≡ no_calls }
    {
        Calls {
            failing: Vec::new(alloc),
            made: 0,
        }
    }

    /// The call of that number is to fail.
    pub fn fail_at(&mut self, call: u64) -> Result<(), WantOfMemory>
        ensures ok { OnOk result (self.new ≡ with_failing self.old call) }
        ensures err { OnErr result (self.new ≡ self.old) }
    {
        Ok(self.failing.push(call)?)
    }

    /// Counts a call, and says whether it is to fail.
    pub fn is_to_fail(&mut self) -> bool
        ensures fails { result ≡ is_failing self.old }
        ensures counted { self.new ≡ counted_call self.old }
        ensures none_to_come { IsTrue (none_to_come self.old) → (result ≡ false) × IsTrue (none_to_come self.new) }
    {
        self.made = self.made.saturating_add(1);
        is_among(&self.failing, self.made)
    }
}

fn is_among(calls: &[u64], made: u64) -> bool
    ensures { result ≡ list_any (λ call. nat_eq call made) calls.now }
{
    calls.contains(&made)
}
