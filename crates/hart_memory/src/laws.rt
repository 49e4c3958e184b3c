// Laws that the definitions meet. Each is the contract of a function that does nothing.
ghost use Rattle.std.specs.Prelude.{◌≡◌, ℕ, ◌+◌, ◌-◌, ◌^◌, ◌<◌, ◌≤◌, ◌⊎◌, List, length, take, slice_index, slice_set};
ghost use Rattle.hart_memory.specs.Memory.{AreBytes, IsWhole};
ghost use Rattle.hart_memory.specs.Memory.{Memory};
ghost use Rattle.hart_memory.specs.Bytes.{number_at, with_number, value_at, put_at};
ghost use Rattle.hart_memory.specs.Kept.{Held, with_kept, gone_back};
ghost use Rattle.hart_memory.specs.declared.address_map.TheConstants.{MAX_KEPT};

use crate::banks::Banks;

/// Both memories have all their bytes.
#[inline]
pub fn banks_are_whole(banks: &Banks)
    ensures { IsWhole banks.now.present }
{
    are_bytes(banks.rom());
    are_bytes(banks.ram());
}

// Whatever a slice of bytes holds is a byte.
#[inline]
fn are_bytes(bytes: &[u8])
    ensures { AreBytes bytes.now }
{}

/// A number in bytes is the same piece by piece and byte by byte.
pub fn views_agree()
    ensures loads { (bytes : List ℕ) (k n : ℕ) → number_at bytes k n ≡ value_at bytes k n }
    ensures stores { (bytes : List ℕ) (k n number : ℕ) → k + n ≤ length bytes → with_number bytes k n number ≡ put_at bytes k n number }
{}

/// A number of one byte is that byte.
pub fn one_byte()
    ensures loads { (bytes : List ℕ) (k : ℕ) → number_at bytes k 1 ≡ slice_index bytes k }
    ensures stores { (bytes : List ℕ) (k byte : ℕ) → k < length bytes → byte < 256 → with_number bytes k 1 byte ≡ slice_set bytes k byte }
{}

/// What was stored is loaded, and nothing else changes.
pub fn stores_are_loaded()
    ensures same { (bytes : List ℕ) (k n number : ℕ) → k + n ≤ length bytes → number < 256 ^ n → number_at (with_number bytes k n number) k n ≡ number }
    ensures apart { (bytes : List ℕ) (k n number j m : ℕ) → k + n ≤ length bytes → (j + m ≤ k) ⊎ (k + n ≤ j) → number_at (with_number bytes k n number) j m ≡ number_at bytes j m }
    ensures others { (bytes : List ℕ) (k n number j : ℕ) → k + n ≤ length bytes → (j < k) ⊎ (k + n ≤ j) → slice_index (with_number bytes k n number) j ≡ slice_index bytes j }
    ensures len { (bytes : List ℕ) (k n number : ℕ) → k + n ≤ length bytes → length (with_number bytes k n number) ≡ length bytes }
{}

/// Going back undoes all that came after the latest keep: what was kept is there, and the contents before it are kept
/// as they were, but for the earliest where `MAX_KEPT` were kept.
pub fn back_undoes()
    ensures undone { (h : Held Memory) (m : Memory) → gone_back (record (with_kept h) { present = m }) ≡ record h { kept = take (MAX_KEPT - 1) h.kept } }
    ensures few { (h : Held Memory) → length (with_kept h).kept ≤ MAX_KEPT }
{}
