// Whether bytes lie in a region.
ghost use Rattle.std.specs.Prelude.{◌≡◌, ◌+◌, ◌≤◌, ◌^◌};
ghost use Rattle.chain_moves.specs.Slot.{in_slot};
ghost use Rattle.chain_moves.specs.Bytes.{some_byte};
ghost use Rattle.chain_flow.specs.Rules.{in_region};

use crate::region::Region;
use chain_moves::slot::{BASE, SLOT_END};

// Whether an address is in the region.
fn is_in(region: &Region, at: u64) -> bool
    ensures { result ≡ in_region region.now at }
{
    u64::from(region.low) <= at && at < u64::from(region.high)
}

/// Whether one of so many bytes from an address on is in the region.
pub fn meets(region: &Region, at: u32, width: u32) -> bool
    ensures { result ≡ some_byte (in_region region.now) at width }
{
    for i in 0..width {
        if is_in(region, u64::from(at) + u64::from(i)) {
            return true;
        }
    }
    false
}

/// Whether one of so many bytes from an address on is in the slot.
pub fn meets_slot(at: u32, width: u32) -> bool
    ensures { result ≡ some_byte in_slot at width }
{
    let slot = Region {
        low: BASE,
        high: SLOT_END,
    };
    meets(&slot, at, width)
}
