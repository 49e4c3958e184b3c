// What a chain with direct services keeps beside the board.
ghost use Rattle.std.specs.Prelude.{◌≡◌, ◌+◌, ◌<◌, ◌^◌, Some, None, IfOk};
ghost use Rattle.chain_direct.specs.DirectWatched.{DirectWatched, nothing_direct, with_direct, without_direct};

use chain_moves::Watch;
use hart_words::WantOfMemory;
use std::alloc::Global;
use std::marker::Model;

/// The watch of the chained services, and the direct service that is live. It is used for one chain.
#[derive(Drop)]
pub struct DirectWatch {
    pub(crate) chained: Watch,
    // The registers as the direct service began that is live, where one is.
    kept: Option<[u32; 32]>,
    // How many direct services there were.
    begun: u64,
}

impl Model for DirectWatch {
    ghost use Rattle.chain_direct.specs.DirectWatched.{DirectWatched};

    ghost Value = { DirectWatched };

    ghost view = { λ w. record { chained = w.chained; kept = w.kept; begun = w.begun } };
}

impl DirectWatch {
    /// No service is live, and no byte is dead. It takes all memory that a chain needs.
    pub fn new(alloc: Global) -> Result<DirectWatch, WantOfMemory>
        ensures { IfOk result (λ watch. watch ≡ nothing_direct) }
    {
        Ok(DirectWatch {
            chained: Watch::new(alloc)?,
            kept: None,
            begun: 0,
        })
    }

    /// The registers as the direct service began that is live.
    pub(crate) fn kept(&self) -> Option<[u32; 32]>
        ensures { result ≡ self.now.kept }
    {
        self.kept
    }

    /// How many direct services there were.
    pub(crate) fn begun(&self) -> u64
        ensures { result ≡ self.now.begun }
    {
        self.begun
    }

    /// A direct service begins, with these registers.
    pub(crate) fn begin(&mut self, registers: [u32; 32])
        requires { self.old.begun + 1 < 2 ^ 64 }
        ensures { self.new ≡ with_direct self.old registers }
    {
        self.kept = Some(registers);
        self.begun += 1;
    }

    /// The direct service that is live ends.
    pub(crate) fn end(&mut self)
        ensures { self.new ≡ without_direct self.old }
    {
        self.kept = None;
    }
}
