// The 32 registers, of which register 0 is always 0.
ghost use Rattle.std.specs.Prelude.{◌≡◌, ◌<◌, ◌^◌, ℕ, slice_index};
ghost use Rattle.hart_words.specs.Registers.{register, with_register, zero_registers, AreRegisters};

use std::marker::Model;

/// The registers x0 to x31, seen as a list of 32 words. Register 0 reads 0.
#[derive(Clone, Copy, PartialEq, Eq, Drop)]
pub struct Regs {
    words: [u32; 32],
}

impl Model for Regs {
    ghost use Rattle.std.specs.Prelude.{ℕ, List, ◌≡◌, slice_index};

    ghost Value = { List ℕ };

    ghost view = { λ r. r.words };

    ghost invariant = { λ r. slice_index r.words 0 ≡ 0 };

    ghost inverse = { λ words. record { words = words } };
}

// Each number of a slice is in the range of its type.
fn are_words(words: &[u32])
    ensures { (i : ℕ) → slice_index words.now i < 2 ^ 32 }
{}

impl Regs {
    /// All registers are 0.
    pub fn new() -> Regs
        ensures { result ≡ zero_registers }
    {
        Regs { words: [0; 32] }
    }

    /// There are 32, each holds a word, and register 0 holds 0.
    pub fn in_range(&self)
        ensures { AreRegisters self.now }
    {
        are_words(&self.words);
    }

    #[inline]
    pub fn get(&self, i: u8) -> u32
        requires { i < 32 }
        ensures value { result ≡ register self.now i }
        ensures zero { i ≡ 0 → result ≡ 0 }
    {
        self.words[usize::from(i)]
    }

    /// Writes a register. Register 0 stays 0.
    #[inline]
    pub fn set(&mut self, i: u8, value: u32)
        requires { i < 32 }
        ensures { self.new ≡ with_register self.old i value }
    {
        if i != 0 {
            self.words[usize::from(i)] = value;
        }
    }
}
