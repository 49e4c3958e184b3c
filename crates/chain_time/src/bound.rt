// How long the inputs of a list take together.
ghost use Rattle.std.specs.Prelude.{◌≡◌, ◌≤◌, ◌*◌, ◌^◌, ◌∷◌, [], length};
ghost use Rattle.std.specs.List.{All};
ghost use Rattle.chain_time.specs.Counts.{IsTimed, worth, time_of};

use crate::timed::Timed;

/// The steps of an Enter.
pub const ENTER_COST: u64 = 14;

/// The steps of a Leave.
pub const LEAVE_COST: u64 = 16;

// What all services of an input take.
fn all_of(row: &Timed) -> u64
    requires { IsTimed row.now }
    ensures value { result ≡ row.now.count * worth row.now }
    ensures small { result ≤ 2 ^ 33 }
{
    u64::from(row.count) * (ENTER_COST + u64::from(row.path) + LEAVE_COST)
}

// The same where the input has at least a level, and else nothing.
fn counted(row: &Timed, level: u8) -> u64
    requires { IsTimed row.now }
    ensures value { result ≡ time_of (row.now ∷ []) level }
    ensures small { result ≤ 2 ^ 33 }
{
    if level <= row.level { all_of(row) } else { 0 }
}

/// How many steps services of at least a level take together, where each input comes so often at most.
pub fn time_bound(list: &[Timed], level: u8) -> u64
    requires rows { All IsTimed list.now }
    requires few { length list.now ≤ 1024 }
    ensures { result ≡ time_of list.now level }
{
    let mut sum = 0u64;
    for i in 0..list.len() {
        sum += counted(&list[i], level);
    }
    sum
}
