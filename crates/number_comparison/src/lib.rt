// The order of two numbers, and the four ordered comparisons. Two Ints are compared in the type itself.
#![tactic(auto)]

ghost use Rattle.std.specs.Prelude.{◌≡◌};
ghost use Rattle.std.specs.Int.Signed.{lt_z};
ghost use Rattle.number_operands.specs.Operands.{value_of};
ghost use Rattle.numbers.specs.Compare.{integer_order, compare_of, less_of, less_eq_of, greater_of, greater_eq_of};

use number_operands::{OperandPair, SignMagnitude, pair_of};
use numbers::{ComparisonFault, Number};
use std::cmp::Ordering;

// A function of two numbers' order, and no `Ord` of the type: 0 and -0 are one number and two values of it, so the order needs an equality of its own
// beside it, with no other caller.
fn is_below(a: SignMagnitude, b: SignMagnitude) -> bool
    ensures { result ≡ lt_z (value_of a) (value_of b) }
{
    match (a.negative, b.negative) {
        (false, false) => a.magnitude < b.magnitude,
        (false, true) => false,
        (true, false) => a.magnitude != 0 || b.magnitude != 0,
        (true, true) => b.magnitude < a.magnitude,
    }
}

fn compare_integers(a: SignMagnitude, b: SignMagnitude) -> Ordering
    ensures { result ≡ integer_order (value_of a) (value_of b) }
{
    if is_below(a, b) {
        Ordering::Less
    } else if is_below(b, a) {
        Ordering::Greater
    } else {
        Ordering::Equal
    }
}

fn compare_any(a: Number, b: Number) -> Result<Ordering, ComparisonFault>
    ensures { result ≡ compare_of a b }
{
    match pair_of(a, b) {
        Some(OperandPair::Integers(_, p, q)) => Ok(compare_integers(p, q)),
        Some(OperandPair::Doubles(p, q)) => p.partial_cmp(&q).ok_or(ComparisonFault::Unordered),
        Some(OperandPair::Singles(p, q)) => p.partial_cmp(&q).ok_or(ComparisonFault::Unordered),
        None => Err(ComparisonFault::WrongKind),
    }
}

pub fn compare(a: Number, b: Number) -> Result<Ordering, ComparisonFault>
    ensures { result ≡ compare_of a b }
{
    match (a, b) {
        (Number::Int(x), Number::Int(y)) => Ok(x.cmp(&y)),
        _ => compare_any(a, b),
    }
}

// The four are `compare` and one method of Ordering each, as in std's PartialOrd: one function with the method as its parameter would not be shorter.
pub fn less(a: Number, b: Number) -> Result<bool, ComparisonFault>
    ensures { result ≡ less_of a b }
{
    Ok(compare(a, b)?.is_lt())
}

pub fn less_eq(a: Number, b: Number) -> Result<bool, ComparisonFault>
    ensures { result ≡ less_eq_of a b }
{
    Ok(compare(a, b)?.is_le())
}

pub fn greater(a: Number, b: Number) -> Result<bool, ComparisonFault>
    ensures { result ≡ greater_of a b }
{
    Ok(compare(a, b)?.is_gt())
}

pub fn greater_eq(a: Number, b: Number) -> Result<bool, ComparisonFault>
    ensures { result ≡ greater_eq_of a b }
{
    Ok(compare(a, b)?.is_ge())
}
