// Which bytes of RAM are dead.
ghost use Rattle.std.specs.Prelude.{◌≡◌, ℕ, Bool};
ghost use Rattle.hart_report.specs.Contents.{no_dead};

/// Tells which addresses hold bytes that nothing reads any more. A report doesn't tell them.
pub trait DeadBytes {
    /// Whether the byte at an address is dead.
    ghost dead: { Self → ℕ → Bool };

    fn is_dead(&self, at: u32) -> bool
        ensures { result ≡ dead self.now at };
}

/// No byte is dead.
#[derive(Clone, Copy, Debug, Drop)]
pub struct NoDeadBytes;

impl DeadBytes for NoDeadBytes {
    ghost dead = { λ none. no_dead };

    fn is_dead(&self, _at: u32) -> bool {
        false
    }
}
