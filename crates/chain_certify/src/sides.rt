// What is known on either side of a branch.
ghost use Rattle.std.specs.Prelude.{◌≡◌};
ghost use Rattle.hart_exec.specs.Branches.{branch_taken};
ghost use Rattle.chain_certify.specs.Sides.{clipped as clipped_of, trimmed as trimmed_of, when_less as when_less_of, when_not_less as when_not_less_of, when_equal as when_equal_of, when_other as when_other_of, by_kind as by_kind_of, is_so as is_so_of, side as side_of};
ghost use Rattle.chain_certify.specs.declared.value.Value.TheVariants.{Const as ConstValue};

use crate::value::{Value, ranged};
use hart_words::signed;
use rv_encoding::BranchOp;

// A number that is known to be from one to another.
fn clipped(v: Value, least: u32, greatest: u32) -> Value
    ensures { result ≡ clipped_of v least greatest }
{
    match v {
        Value::Range(_, _) | Value::Unknown => ranged(least, greatest),
        Value::Entry(_) | Value::Const(_) | Value::Stack(_) => v,
    }
}

// The first is less than the second.
fn when_less(v: Value, u: Value) -> Option<(Value, Value)>
    ensures { result ≡ when_less_of v u }
{
    if v.low() >= u.high() {
        return None;
    }
    let first = clipped(v, v.low(), v.high().min(u.high() - 1));
    let second = clipped(u, u.low().max(v.low() + 1), u.high());
    Some((first, second))
}

// The first isn't less than the second.
fn when_not_less(v: Value, u: Value) -> Option<(Value, Value)>
    ensures { result ≡ when_not_less_of v u }
{
    if u.low() > v.high() {
        return None;
    }
    let first = clipped(v, v.low().max(u.low()), v.high());
    let second = clipped(u, u.low(), u.high().min(v.high()));
    Some((first, second))
}

// Both are the same.
fn when_equal(v: Value, u: Value) -> Option<(Value, Value)>
    ensures { result ≡ when_equal_of v u }
{
    let least = v.low().max(u.low());
    let greatest = v.high().min(u.high());
    if least > greatest {
        return None;
    }
    Some((clipped(v, least, greatest), clipped(u, least, greatest)))
}

// It isn't that number.
fn trimmed_by(v: Value, c: u32) -> Value
    ensures { result ≡ trimmed_of v (ConstValue c) }
{
    if v.low() == c {
        return clipped(v, c.saturating_add(1), v.high());
    }
    if v.high() == c {
        return clipped(v, v.low(), c.saturating_sub(1));
    }
    v
}

// It isn't what the other is, where that is a number.
fn trimmed(v: Value, u: Value) -> Value
    ensures { result ≡ trimmed_of v u }
{
    match u {
        Value::Const(c) => trimmed_by(v, c),
        Value::Entry(_) | Value::Stack(_) | Value::Range(_, _) | Value::Unknown => v,
    }
}

// They aren't the same.
fn when_other(v: Value, u: Value) -> Option<(Value, Value)>
    ensures { result ≡ when_other_of v u }
{
    Some((trimmed(v, u), trimmed(u, v)))
}

// By the branch, and whether it is taken.
fn by_kind(op: BranchOp, taken: bool, v: Value, u: Value) -> Option<(Value, Value)>
    ensures { result ≡ by_kind_of op taken v u }
{
    match op {
        BranchOp::Beq => {
            if taken {
                when_equal(v, u)
            } else {
                when_other(v, u)
            }
        }
        BranchOp::Bne => {
            if taken {
                when_other(v, u)
            } else {
                when_equal(v, u)
            }
        }
        BranchOp::Bltu => {
            if taken {
                when_less(v, u)
            } else {
                when_not_less(v, u)
            }
        }
        BranchOp::Bgeu => {
            if taken {
                when_not_less(v, u)
            } else {
                when_less(v, u)
            }
        }
        BranchOp::Blt | BranchOp::Bge => Some((v, u)),
    }
}

// Whether the branch is taken for two words.
fn is_taken(op: BranchOp, x: u32, y: u32) -> bool
    ensures { result ≡ branch_taken op x y }
{
    match op {
        BranchOp::Beq => x == y,
        BranchOp::Bne => x != y,
        BranchOp::Blt => signed(x) < signed(y),
        BranchOp::Bge => signed(x) >= signed(y),
        BranchOp::Bltu => x < y,
        BranchOp::Bgeu => x >= y,
    }
}

fn is_so(taken: bool, holds: bool) -> bool
    ensures { result ≡ is_so_of taken holds }
{
    if taken { holds } else { !holds }
}

// Of two numbers the branch itself tells.
fn side_of_numbers(op: BranchOp, taken: bool, c: u32, d: u32) -> Option<(Value, Value)>
    ensures { result ≡ side_of op taken (ConstValue c) (ConstValue d) }
{
    if is_so(taken, is_taken(op, c, d)) {
        Some((Value::Const(c), Value::Const(d)))
    } else {
        None
    }
}

fn side_of_number(op: BranchOp, taken: bool, c: u32, u: Value) -> Option<(Value, Value)>
    ensures { result ≡ side_of op taken (ConstValue c) u }
{
    match u {
        Value::Const(d) => side_of_numbers(op, taken, c, d),
        Value::Entry(_) | Value::Stack(_) | Value::Range(_, _) | Value::Unknown => {
            by_kind(op, taken, Value::Const(c), u)
        }
    }
}

/// What is known of both operands where a branch is taken, or where it isn't. `None`: it never goes that way.
pub fn side(op: BranchOp, taken: bool, v: Value, u: Value) -> Option<(Value, Value)>
    ensures { result ≡ side_of op taken v u }
{
    match v {
        Value::Const(c) => side_of_number(op, taken, c, u),
        Value::Entry(_) | Value::Stack(_) | Value::Range(_, _) | Value::Unknown => {
            by_kind(op, taken, v, u)
        }
    }
}
