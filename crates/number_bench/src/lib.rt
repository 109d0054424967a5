// Loops over the operations on numbers, for the package bench/numbers to time. An operand is given by its kind's code and its payload, so
// that one loop serves every kind and the compiler knows none. Each loop answers how many turns it made. In `last` it leaves what they
// came to: no turn can be left away. Add, Sub and Mul leave their loop at a fault, as a machine does.
#![tactic(auto)]

ghost use Rattle.std.specs.Prelude.{◌≡◌, Result};
ghost use Rattle.numbers.specs.declared.Number.{Number};
ghost use Rattle.numbers.specs.declared.NumberFault.{NumberFault};
ghost use Rattle.numbers.specs.Arithmetic.{add_of, sub_of, mul_of};
ghost use Rattle.number_codes.specs.Payloads.{payload_of};
ghost use Rattle.number_bench.specs.Turns.{number_at, Computes, Gives, steps, pace_of, count_on, value_or, there_and_back};

use numbers::{CastTarget, ComparisonFault, IntKind, Number, NumberFault};

fn number(kind: u8, word: u64) -> Number
    ensures { result ≡ number_at kind word }
{
    number_codes::number_of_payload(kind, word).unwrap_or(Number::Int(0))
}

// The value, or where there is none x.
fn value_or(answer: Result<Number, NumberFault>, x: Number) -> Number
    ensures { result ≡ value_or answer x }
{
    answer.unwrap_or(x)
}

// How far to count: three where the comparison holds.
fn pace(answer: Result<bool, ComparisonFault>) -> u64
    ensures { result ≡ pace_of answer }
{
    match answer {
        Ok(true) => 3,
        _ => 1,
    }
}

// So many turns of an operation, each on what the turn before answered and the second operand; a fault ends them.
fn repeated<F: Fn(Number, Number) -> Result<Number, NumberFault>>(
    operation: F,
    n: u64,
    kind: u8,
    first: u64,
    second: u64,
    last: &mut u64,
) -> u64
    requires { F.IsAlwaysCallable operation }
    ensures { (f : Number → Number → Result Number NumberFault) → Computes (F.post operation) f → Gives (λ x. f x (number_at kind second)) n (number_at kind first) result last.old last.new }
{
    let mut acc = number(kind, first);
    let operand = number(kind, second);
    for i in 0..n {
        match operation(acc, operand) {
            Ok(y) => {
                acc = y;
            }
            Err(_) => {
                return i;
            }
        }
    }
    *last = number_codes::payload_of(acc);
    n
}

// The three exports of `repeated` stay three: C knows no closure, and bench/ links each by its name.
// It alone calls `add`, as a machine has one place that adds. Each of the three is `repeated` under the name by which C calls it.
#[unsafe(no_mangle)]
pub extern "C" fn bench_add(n: u64, kind: u8, first: u64, second: u64, last: &mut u64) -> u64
    ensures { Gives (λ x. add_of x (number_at kind second)) n (number_at kind first) result last.old last.new }
{
    repeated(
        |x, y| number_arithmetic::add(x, y),
        n,
        kind,
        first,
        second,
        last,
    )
}

#[unsafe(no_mangle)]
pub extern "C" fn bench_sub(n: u64, kind: u8, first: u64, second: u64, last: &mut u64) -> u64
    ensures { Gives (λ x. sub_of x (number_at kind second)) n (number_at kind first) result last.old last.new }
{
    repeated(
        |x, y| number_arithmetic::sub(x, y),
        n,
        kind,
        first,
        second,
        last,
    )
}

#[unsafe(no_mangle)]
pub extern "C" fn bench_mul(n: u64, kind: u8, first: u64, second: u64, last: &mut u64) -> u64
    ensures { Gives (λ x. mul_of x (number_at kind second)) n (number_at kind first) result last.old last.new }
{
    repeated(
        |x, y| number_arithmetic::mul(x, y),
        n,
        kind,
        first,
        second,
        last,
    )
}

// Counts by threes while the count, as a number of the kind, is less than the second operand, then by ones.
#[unsafe(no_mangle)]
pub extern "C" fn bench_less(n: u64, kind: u8, second: u64, last: &mut u64) -> u64
    ensures { (result ≡ n) × (last.new ≡ steps (count_on kind (number_at kind second)) n last.old) }
{
    let mut acc: u64 = *last;
    let bound = number(kind, second);
    for _ in 0..n {
        acc = acc.wrapping_add(pace(number_comparison::less(number(kind, acc), bound)));
    }
    *last = acc;
    n
}

// Casts to Float and back to Int.
#[unsafe(no_mangle)]
pub extern "C" fn bench_cast(n: u64, kind: u8, first: u64, last: &mut u64) -> u64
    ensures { (result ≡ n) × (last.new ≡ payload_of (steps there_and_back n (number_at kind first))) }
{
    let mut acc = number(kind, first);
    for _ in 0..n {
        acc = value_or(number_casts::cast(CastTarget::ToFloat, acc), acc);
        acc = value_or(
            number_casts::cast(CastTarget::ToInteger(IntKind::I64), acc),
            acc,
        );
    }
    *last = number_codes::payload_of(acc);
    n
}
