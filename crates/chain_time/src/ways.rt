// The longest ways through code.
ghost use Rattle.std.specs.Prelude.{◌≡◌, ◌≤◌, ◌<◌, ◌+◌, ◌-◌, ℕ, List, length, IfOk};
ghost use Rattle.chain_time.specs.Path.{path};
ghost use Rattle.chain_time.specs.Ways.{AreWays, AreAllWays};

use chain_flow::{Look, targets_at};
use hart_memory::{BANK_LEN, Banks};
use hart_words::WantOfMemory;
use std::alloc::Global;
use std::marker::Model;

/// For each address of ROM the longest way upwards from it, in instructions; seen as a list, from the
/// last address down to 0.
#[derive(Drop)]
pub struct Ways {
    rows: Vec<u32>,
}

impl Model for Ways {
    ghost use Rattle.std.specs.Prelude.{ℕ, List};

    ghost Value = { List ℕ };

    ghost view = { λ w. w.rows.items };
}

// The way from an address, where the rows have it, and else 0.
fn way_in(rows: &[u32], at: u32) -> u32
    ensures above { (code : List ℕ) → AreWays code rows.now → BANK_LEN ≤ at + length rows.now → result ≡ path code at }
    ensures below { at + length rows.now < BANK_LEN → result ≡ 0 }
{
    if at >= BANK_LEN {
        return 0;
    }
    let row = (BANK_LEN - 1 - at) as usize;
    if row < rows.len() { rows[row] } else { 0 }
}

// The way from the address below those of the rows.
fn next_way(code: &Banks, rows: &[u32]) -> u32
    requires room { length rows.now < BANK_LEN }
    requires ways { AreWays code.now.present.rom rows.now }
    ensures { result ≡ path code.now.present.rom (BANK_LEN - 1 - length rows.now) }
{
    let at = BANK_LEN - 1 - rows.len() as u32;
    match targets_at(code, at) {
        Look::Refuses(_) => 0,
        Look::Returns => 1,
        Look::GoesTo(target) => 1 + way_in(rows, target),
        Look::Branches(far, near) => 1 + way_in(rows, far).max(way_in(rows, near)),
    }
}

impl Ways {
    /// The ways through code that is there.
    pub fn new(alloc: Global, code: &Banks) -> Result<Ways, WantOfMemory>
        ensures { IfOk result (λ ways. AreAllWays code.now.present.rom ways) }
    {
        let mut rows = Vec::new(alloc);
        for _ in 0..BANK_LEN {
            let way = next_way(code, &rows);
            rows.push(way)?;
        }
        Ok(Ways { rows })
    }

    /// The longest way from an address.
    pub fn path(&self, at: u32) -> u32
        ensures { (code : List ℕ) → AreAllWays code self.now → result ≡ path code at }
    {
        way_in(&self.rows, at)
    }
}
