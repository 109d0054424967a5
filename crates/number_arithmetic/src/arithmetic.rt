// Add, Sub, Mul and Div. Two Ints are added and subtracted in the type itself: they are what a sheet computes with most.
ghost use Rattle.std.specs.Prelude.{◌≡◌, ◌+ℤ◌, ◌-ℤ◌, ◌*ℤ◌, ℤ, Result, MatchResult, Err};
ghost use Rattle.std.specs.Float.Ieee as Ieee;
ghost use Rattle.std.specs.Float.Ieee.{unlike};
ghost use Rattle.std.specs.Float.{Format, binary32, binary64};
ghost use Rattle.numbers.specs.declared.IntKind.{IntKind};
ghost use Rattle.numbers.specs.declared.IntKind.TheVariants.{I64};
ghost use Rattle.numbers.specs.declared.Number.{Number};
ghost use Rattle.numbers.specs.declared.NumberFault.{NumberFault};
ghost use Rattle.number_operands.specs.Operands.{value_of};
ghost use Rattle.numbers.specs.Scalars.{scalar_of, same_kind};
ghost use Rattle.numbers.specs.Arithmetic.{checked as checked_of, checked_div, arithmetic, add_of, sub_of, mul_of, div_of};

use number_operands::{OperandPair, SignMagnitude, checked, pair_of};
use numbers::{IntKind, Number, NumberFault};

fn add_integers(kind: IntKind, a: SignMagnitude, b: SignMagnitude) -> Result<Number, NumberFault>
    ensures { result ≡ checked_of kind (value_of a +ℤ value_of b) }
{
    if a.negative == b.negative {
        return match a.magnitude.checked_add(b.magnitude) {
            Some(magnitude) => checked(kind, SignMagnitude { magnitude, ..a }),
            None => Err(NumberFault::Overflow),
        };
    }
    if b.magnitude <= a.magnitude {
        let magnitude = a.magnitude - b.magnitude;
        checked(kind, SignMagnitude { magnitude, ..a })
    } else {
        let magnitude = b.magnitude - a.magnitude;
        checked(kind, SignMagnitude { magnitude, ..b })
    }
}

fn sub_integers(kind: IntKind, a: SignMagnitude, b: SignMagnitude) -> Result<Number, NumberFault>
    ensures { result ≡ checked_of kind (value_of a -ℤ value_of b) }
{
    let negative = !b.negative;
    add_integers(kind, a, SignMagnitude { negative, ..b })
}

// The number of the kind with the sign of a product or a quotient of a and b, and this magnitude.
fn of_magnitudes(
    kind: IntKind,
    a: SignMagnitude,
    b: SignMagnitude,
    magnitude: Result<u64, NumberFault>,
) -> Result<Number, NumberFault>
    ensures { MatchResult magnitude (λ m. result ≡ checked_of kind (value_of (record { negative = unlike a.negative b.negative; magnitude = m }))) (λ fault. result ≡ Err fault) }
{
    checked(
        kind,
        SignMagnitude {
            negative: a.negative != b.negative,
            magnitude: magnitude?,
        },
    )
}

// What an operation does to two integers of one kind, and to two floats of one format. What is alike in its instances is in the functions above.
trait Operation {
    ghost on_integers: { IntKind → ℤ → ℤ → Result Number NumberFault };

    ghost on_floats: { Format → Ieee.Float → Ieee.Float → Ieee.Float };

    fn integers(
        &self,
        kind: IntKind,
        a: SignMagnitude,
        b: SignMagnitude,
    ) -> Result<Number, NumberFault>
        ensures { result ≡ on_integers kind (value_of a) (value_of b) };

    fn doubles(&self, x: f64, y: f64) -> f64
        ensures { result ≡ on_floats binary64 x y };

    fn singles(&self, x: f32, y: f32) -> f32
        ensures { result ≡ on_floats binary32 x y };
}

#[derive(Clone, Copy)]
struct Addition;

#[derive(Clone, Copy)]
struct Subtraction;

#[derive(Clone, Copy)]
struct Multiplication;

#[derive(Clone, Copy)]
struct Division;

// What it does to two Ints, in the type itself.
trait OnInts: Operation {
    fn ints(&self, x: i64, y: i64) -> Result<Number, NumberFault>
        ensures { result ≡ Self.on_integers I64 x y };
}

impl OnInts for Addition {
    fn ints(&self, x: i64, y: i64) -> Result<Number, NumberFault> {
        x.checked_add(y)
            .map(Number::Int)
            .ok_or(NumberFault::Overflow)
    }
}

impl OnInts for Subtraction {
    fn ints(&self, x: i64, y: i64) -> Result<Number, NumberFault> {
        x.checked_sub(y)
            .map(Number::Int)
            .ok_or(NumberFault::Overflow)
    }
}

impl Operation for Addition {
    ghost on_integers = { λ kind a b. checked_of kind (a +ℤ b) };

    ghost on_floats = { Ieee.add };

    fn integers(
        &self,
        kind: IntKind,
        a: SignMagnitude,
        b: SignMagnitude,
    ) -> Result<Number, NumberFault> {
        add_integers(kind, a, b)
    }

    fn doubles(&self, x: f64, y: f64) -> f64 {
        x + y
    }

    fn singles(&self, p: f32, q: f32) -> f32 {
        p + q
    }
}

impl Operation for Subtraction {
    ghost on_integers = { λ kind a b. checked_of kind (a -ℤ b) };

    ghost on_floats = { Ieee.sub };

    fn integers(
        &self,
        kind: IntKind,
        a: SignMagnitude,
        b: SignMagnitude,
    ) -> Result<Number, NumberFault> {
        sub_integers(kind, a, b)
    }

    fn doubles(&self, x: f64, y: f64) -> f64 {
        x - y
    }

    fn singles(&self, p: f32, q: f32) -> f32 {
        p - q
    }
}

impl Operation for Multiplication {
    ghost on_integers = { λ kind a b. checked_of kind (a *ℤ b) };

    ghost on_floats = { Ieee.mul };

    fn integers(
        &self,
        kind: IntKind,
        a: SignMagnitude,
        b: SignMagnitude,
    ) -> Result<Number, NumberFault> {
        // It needs up to 128 bits, and is past every kind where it does not fit 64.
        let product = a.magnitude.checked_mul(b.magnitude);
        of_magnitudes(kind, a, b, product.ok_or(NumberFault::Overflow))
    }

    fn doubles(&self, x: f64, y: f64) -> f64 {
        x * y
    }

    fn singles(&self, p: f32, q: f32) -> f32 {
        p * q
    }
}

impl Operation for Division {
    ghost on_integers = { checked_div };

    ghost on_floats = { Ieee.div };

    fn integers(
        &self,
        kind: IntKind,
        a: SignMagnitude,
        b: SignMagnitude,
    ) -> Result<Number, NumberFault> {
        let quotient = a.magnitude.checked_div(b.magnitude);
        of_magnitudes(kind, a, b, quotient.ok_or(NumberFault::ZeroDivisor))
    }

    fn doubles(&self, x: f64, y: f64) -> f64 {
        x / y
    }

    fn singles(&self, p: f32, q: f32) -> f32 {
        p / q
    }
}

// Two numbers of one kind, by the operation's rule for it.
fn operate<O: Operation>(operation: &O, a: Number, b: Number) -> Result<Number, NumberFault>
    ensures { result ≡ arithmetic O.on_integers O.on_floats (same_kind (scalar_of a) (scalar_of b)) }
{
    match pair_of(a, b) {
        Some(OperandPair::Integers(kind, p, q)) => operation.integers(kind, p, q),
        Some(OperandPair::Doubles(p, q)) => Ok(Number::Float(operation.doubles(p, q))),
        Some(OperandPair::Singles(p, q)) => Ok(Number::SFloat(operation.singles(p, q))),
        None => Err(NumberFault::WrongKind),
    }
}

// An enum is handed to a function by its address. Copies go to the shared way, and its answer into a local, so that the operands and the answer of
// two Ints, which the caller has in registers, need no memory.
fn quickly<O: OnInts>(operation: &O, a: Number, b: Number) -> Result<Number, NumberFault>
    ensures { result ≡ arithmetic O.on_integers O.on_floats (same_kind (scalar_of a) (scalar_of b)) }
{
    match a {
        Number::Int(x) => match b {
            Number::Int(y) => operation.ints(x, y),
            _ => {
                let p = a;
                let q = b;
                let r = operate(operation, p, q);
                r
            }
        },
        _ => {
            let p = a;
            let q = b;
            let r = operate(operation, p, q);
            r
        }
    }
}

pub fn add(a: Number, b: Number) -> Result<Number, NumberFault>
    ensures { result ≡ add_of a b }
{
    quickly(&Addition, a, b)
}

pub fn sub(a: Number, b: Number) -> Result<Number, NumberFault>
    ensures { result ≡ sub_of a b }
{
    quickly(&Subtraction, a, b)
}

pub fn mul(a: Number, b: Number) -> Result<Number, NumberFault>
    ensures { result ≡ mul_of a b }
{
    operate(&Multiplication, a, b)
}

pub fn div(a: Number, b: Number) -> Result<Number, NumberFault>
    ensures { result ≡ div_of a b }
{
    operate(&Division, a, b)
}
