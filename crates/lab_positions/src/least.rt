// The smaller of two numbers.
ghost use Rattle.std.specs.Prelude.{◌≡◌, ◌≤◌, min};

/// The smaller of two numbers.
pub(crate) fn least(a: u64, b: u64) -> u64
    ensures exact { result ≡ min a b }
    ensures first { result ≤ a }
    ensures second { result ≤ b }
{
    if a < b { a } else { b }
}
