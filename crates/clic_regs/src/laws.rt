// Laws of levels, of line changes and of offsets, over the definitions alone.
ghost use Rattle.std.specs.Prelude.{◌≡◌, ℕ, ◌+◌, ◌-◌, ◌*◌, ◌<◌, ◌≤◌, ◌⊎◌, ◌↔◌, Bool, IsSome, Some};
ghost use Rattle.hart_words.specs.Bits.{bits};
ghost use Rattle.clic_regs.specs.Attribute.{is_edge, is_negative};
ghost use Rattle.clic_regs.specs.ClicState.{ClicState, IsClicState, input_count};
ghost use Rattle.clic_regs.specs.Filled.{IsFilled};
ghost use Rattle.clic_regs.specs.Level.{level, priority};
ghost use Rattle.clic_regs.specs.LineChange.{pending_after, SeesLine, line_changed, claimed};
ghost use Rattle.clic_regs.specs.Bytes.{byte_at, byte_written};
ghost use Rattle.clic_regs.specs.declared.clic_byte.ClicByte.TheVariants.{Pending, Enable, Attribute, Control};

/// A level has the upper nlbits bits of its control byte, and ones below. The priority is the other
/// bits of the control byte.
pub fn levels_are_filled_with_ones()
    ensures upper { (n c : ℕ) → n ≤ 8 → c < 256 → bits (level n c) (8 - n) n ≡ bits c (8 - n) n }
    ensures lower { (n c : ℕ) → IsFilled n (level n c) }
    ensures small { (n c : ℕ) → n ≤ 8 → c < 256 → level n c < 256 }
    ensures rest { (n c : ℕ) → priority n c ≡ bits c 0 (8 - n) }
{}

/// An input is made pending by the edge or the level that its attribute names.
pub fn lines_make_inputs_pending()
    ensures { (attribute : ℕ) (was pending high : Bool)
        → SeesLine (is_edge attribute) (is_negative attribute) was pending high
        (pending_after attribute was pending high) }
{}

/// The bytes that are there: cliccfg and three more, and four for each of n inputs.
pub fn each_input_has_four_bytes()
    ensures there { (n offset : ℕ) → IsSome (byte_at n offset)
        ↔ ((offset < 4) ⊎ ((0x1000 ≤ offset) × (offset < 0x1000 + 4 * n))) }
    ensures pending { (n i : ℕ) → i < n → byte_at n (0x1000 + 4 * i) ≡ Some (Pending i) }
    ensures enable { (n i : ℕ) → i < n → byte_at n (0x1001 + 4 * i) ≡ Some (Enable i) }
    ensures attribute { (n i : ℕ) → i < n → byte_at n (0x1002 + 4 * i) ≡ Some (Attribute i) }
    ensures control { (n i : ℕ) → i < n → byte_at n (0x1003 + 4 * i) ≡ Some (Control i) }
{}

/// Each change leads from a state that is reached to another of the same shape.
pub fn changes_keep_the_state_valid()
    ensures line { (c : ClicState) (i : ℕ) (high : Bool) → IsClicState c → i < input_count c → IsClicState (line_changed c i high) }
    ensures claim { (c : ClicState) (i : ℕ) → IsClicState c → IsClicState (claimed c i) }
    ensures byte { (c d : ClicState) (offset value : ℕ) → IsClicState c → value < 256 → byte_written c offset value ≡ Some d → IsClicState d }
    ensures line_shape { (c : ClicState) (i : ℕ) (high : Bool) → (line_changed c i high).shape ≡ c.shape }
    ensures claim_shape { (c : ClicState) (i : ℕ) → (claimed c i).shape ≡ c.shape }
    ensures byte_shape { (c d : ClicState) (offset value : ℕ) → byte_written c offset value ≡ Some d → d.shape ≡ c.shape }
{}
