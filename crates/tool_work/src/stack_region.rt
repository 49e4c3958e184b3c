// The stack region that two numbers say.
ghost use Rattle.std.specs.Prelude.{◌≡◌, ◌≤◌, ◌+◌};
ghost use Rattle.tool_work.specs.Region.{edge_of, region_of};
ghost use Rattle.hart_memory.specs.declared.address_map.TheConstants as map;

use chain_flow::Region;
use hart_memory::{BANK_LEN, RAM_BASE};

// The nearest number from RAM's first address to the one behind RAM.
fn edge_of(number: u64) -> u32
    ensures edge { result ≡ edge_of number }
    ensures least { map.RAM_BASE ≤ result }
    ensures most { result ≤ map.RAM_BASE + map.BANK_LEN }
{
    let end = u64::from(RAM_BASE + BANK_LEN);
    number.min(end).max(u64::from(RAM_BASE)) as u32
}

/// The stack region that two numbers say.
pub fn region_of(low: u64, high: u64) -> Region
    ensures region { result ≡ region_of low high }
    ensures low { (map.RAM_BASE ≤ result.low) × (result.low ≤ map.RAM_BASE + map.BANK_LEN) }
    ensures high { (map.RAM_BASE ≤ result.high) × (result.high ≤ map.RAM_BASE + map.BANK_LEN) }
{
    Region {
        low: edge_of(low),
        high: edge_of(high),
    }
}
