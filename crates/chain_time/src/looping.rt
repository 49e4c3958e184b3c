// How long the foreground stands still under the looping dispatcher.
ghost use Rattle.std.specs.Prelude.{◌≡◌, ◌≤◌, ◌+◌, ◌*◌, ◌^◌, length};
ghost use Rattle.std.specs.List.{All};
ghost use Rattle.chain_time.specs.Counts.{IsTimed};
ghost use Rattle.chain_time.specs.Looping.{looping_worth, looping_time, lowest as lowest_of};

use crate::bound::{ENTER_COST, LEAVE_COST};
use crate::timed::Timed;

// The steps of a Leave and the Enter that it is fused with.
const FUSED_COST: u64 = 7;

/// The steps that are saved where they are.
pub const SAVING: u64 = ENTER_COST + LEAVE_COST - FUSED_COST;

/// The lowest level of a list, and 255 of none.
pub fn lowest(list: &[Timed]) -> u8
    ensures { result ≡ lowest_of list.now }
{
    let mut least = u8::MAX;
    for i in 0..list.len() {
        least = least.min(list[i].level);
    }
    least
}

// What a service of an input takes, where those at the lowest level are fused.
fn one_of(row: &Timed, low: u8) -> u64
    requires { IsTimed row.now }
    ensures value { result ≡ looping_worth low row.now }
    ensures small { result ≤ 65536 + 30 }
{
    if row.level <= low {
        FUSED_COST + u64::from(row.path)
    } else {
        ENTER_COST + u64::from(row.path) + LEAVE_COST
    }
}

// What all services of an input take so.
fn all_of(row: &Timed, low: u8) -> u64
    requires { IsTimed row.now }
    ensures value { result ≡ row.now.count * looping_worth low row.now }
    ensures small { result ≤ 2 ^ 33 }
{
    u64::from(row.count) * one_of(row, low)
}

/// How many steps services take together, where those at the lowest level are fused.
pub fn looping_bound(list: &[Timed], low: u8) -> u64
    requires rows { All IsTimed list.now }
    requires few { length list.now ≤ 1024 }
    ensures value { result ≡ looping_time low list.now }
    ensures small { result ≤ 2 ^ 43 }
{
    let mut sum = 0u64;
    for i in 0..list.len() {
        sum += all_of(&list[i], low);
    }
    sum
}
