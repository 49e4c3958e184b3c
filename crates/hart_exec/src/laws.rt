// What holds of the effects of all instructions.
ghost use Rattle.std.specs.Prelude.{◌≡◌, ◌%◌, ◌^◌, ◌<◌, ℕ, List, Bool, IsTrue};
ghost use Rattle.rv_encoding.specs.Fits.{can_be_spelled};
ghost use Rattle.rv_encoding.specs.declared.instruction.Ins.{Ins};
ghost use Rattle.hart_exec.specs.Access.{extended};
ghost use Rattle.hart_exec.specs.Bounds.{IsInBounds, HasWidth, AreWords, HasWord, StaysEven};
ghost use Rattle.hart_exec.specs.Effect.{effect};

/// What a spelled instruction asks for is within bounds: its registers, addresses, widths and stored bytes.
pub fn effects_are_in_bounds()
    ensures { (i : Ins) (length : ℕ) (regs : List ℕ) (pc : ℕ) → IsTrue (can_be_spelled i) → IsInBounds (effect i length regs pc) }
{}

/// Instructions of 2 and 4 bytes at even places lead to even places.
pub fn pc_stays_even()
    ensures { (i : Ins) (length : ℕ) (regs : List ℕ) (pc : ℕ) → IsTrue (can_be_spelled i)
        → length % 2 ≡ 0 → pc % 2 ≡ 0 → StaysEven (effect i length regs pc) }
{}

/// Loads and stores have one of the three widths, also where no word spells the instruction.
pub fn accesses_have_widths()
    ensures { (i : Ins) (length : ℕ) (regs : List ℕ) (pc : ℕ) → HasWidth (effect i length regs pc) }
{}

/// Where the registers hold words, what an instruction puts into one is a word too, and so is what a load puts there.
pub fn words_stay_words()
    ensures values { (i : Ins) (length : ℕ) (regs : List ℕ) (pc : ℕ) → IsTrue (can_be_spelled i) → AreWords regs → HasWord (effect i length regs pc) }
    ensures loads { (value width : ℕ) (signed : Bool) → value < 2 ^ 32 → extended value width signed < 2 ^ 32 }
{}
