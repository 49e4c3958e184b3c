// Laws of the top, over the definitions alone.
ghost use Rattle.std.specs.Prelude.{◌≡◌, ◌↔◌, ◌<◌, ◌≤◌, IsFalse, Some, None};
ghost use Rattle.clic_regs.specs.ClicState.{ClicState, IsClicState};
ghost use Rattle.clic_regs.specs.LineChange.{claimed};
ghost use Rattle.clic_select.specs.Top.{IsTop, NoneWaits, is_greater, top};
ghost use Rattle.clic_select.specs.declared.choice.Choice.{Choice};

/// The top is the one input that is pending and enabled and than which no such input is greater.
pub fn there_is_at_most_one_top()
    ensures one { (c : ClicState) (s t : Choice) → IsTop c s → IsTop c t → s ≡ t }
    ensures top { (c : ClicState) (t : Choice) → (top c ≡ Some t) ↔ IsTop c t }
    ensures none { (c : ClicState) → (top c ≡ None) ↔ NoneWaits c }
{}

/// Once the top is claimed, no input that is pending and enabled is greater, and none has a higher
/// level.
pub fn nothing_waits_above_a_claimed_top()
    ensures order { (c : ClicState) (t u : Choice) → top c ≡ Some t → top (claimed c t.id) ≡ Some u
        → IsFalse (is_greater u t) }
    ensures level { (c : ClicState) (t u : Choice) → top c ≡ Some t → top (claimed c t.id) ≡ Some u
        → u.level ≤ t.level }
{}

/// The level of the top is below 256.
pub fn levels_are_bytes()
    ensures { (c : ClicState) (t : Choice) → IsClicState c → top c ≡ Some t → t.level < 256 }
{}
