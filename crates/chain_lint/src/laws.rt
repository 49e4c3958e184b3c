// What the checker's yes and the bound mean for runs of the servicing machine, for every device.
ghost use Rattle.std.specs.Prelude.{◌≡◌, ◌↔◌, ℕ, List, Some};
ghost use Rattle.chain_lint.specs.Soundness.{YesIsSound, BoundIsSound, ListedIsSafe};
ghost use Rattle.chain_lint.specs.Pairs.{SpellsPairs, pairs_of};
ghost use Rattle.chain_lint.specs.declared.pair.Pair.{Pair};

use device_model::Device;

/// Where each handler that is entered is accepted, and each frame lies in the region together with the
/// bytes below it that its handler uses, no service breaks the convention in one of four kinds, and the
/// stack pointer stays between the innermost frame and those bytes below it.
pub fn a_yes_is_sound<D: Device>()
    ensures { YesIsSound D.means }
{}

/// Where each handler that is entered is listed with its level, and each Enter from the foreground has
/// room for the bound, the stack never grows beyond the bound, and each frame lies in the region together
/// with the bytes below it that its handler uses.
pub fn the_bound_is_sound<D: Device>()
    ensures { BoundIsSound D.means }
{}

/// Nor does a service break the convention in one of the four kinds then.
pub fn what_is_listed_is_safe<D: Device>()
    ensures { ListedIsSafe D.means }
{}

/// Pairs are read of a word exactly where it spells them: each an input, a colon and a level, in decimal
/// without leading zeros, with a comma between two.
pub fn words_spell_pairs()
    ensures { (word : List ℕ) (ps : List Pair) → (pairs_of word ≡ Some ps) ↔ SpellsPairs word ps }
{}
