// Laws that the table meets. Each is the contract of a function that does nothing.
ghost use Rattle.std.specs.Prelude.{◌≡◌, ℕ, ◌<◌, ◌^◌};
ghost use Rattle.rvc_encoding.specs.Rows.{Spells16};
ghost use Rattle.rvc_encoding.specs.declared.compressed.Cins.{Cins};

/// No two rows spell one half-word, so that it spells one instruction at most.
pub fn a_half_word_spells_one()
    ensures { (h : ℕ) (c d : Cins) → Spells16 h c → Spells16 h d → c ≡ d }
{}

/// No two half-words spell one instruction.
pub fn one_half_word_spells()
    ensures { (g h : ℕ) (c : Cins) → g < 2 ^ 16 → h < 2 ^ 16 → Spells16 g c → Spells16 h c → g ≡ h }
{}
