// Cast. A float is made whole through its bits: there are no 128-bit integers here.
#![tactic(auto)]

ghost use Rattle.std.specs.Prelude.{◌≡◌, ◌%◌, ◌^◌, ℤ, pos};
ghost use Rattle.std.specs.Float.Ieee as Ieee;
ghost use Rattle.std.specs.Float.{binary64};
ghost use Rattle.numbers.specs.Kinds.{in_range, low_bits, twos_complement};
ghost use Rattle.number_operands.specs.Operands.{value_of, operand_scalar};
ghost use Rattle.numbers.specs.Casts.{cast_integer, cast_of, truncated, as_float};
ghost use Rattle.number_casts.specs.Whole.{whole_part_of, Truncates};

use float_bits::FloatBits;
use number_operands::{Operand, SignMagnitude, in_range, number_of_word, word_of};
use numbers::{CastTarget, IntKind, Number, NumberFault};

// The whole part of a float's magnitude, or from 2^64 on its low 64 bits.
#[derive(Clone, Copy)]
pub enum WholePart {
    Below64(u64),
    Below127(u64),
}

// A float made whole: the integer, or from 2^64 on, where no kind's range holds it, its low 64 bits in two's complement.
#[derive(Clone, Copy)]
pub enum Truncated {
    Integer(SignMagnitude),
    LowWord(u64),
}

// The whole part of the magnitude of the f64 with the bits b; none where it is too large for 128 bits with a sign. The exponent's field is e, and the digits stand for sig * 2^(e - 1075).
fn whole_part(b: u64) -> Option<WholePart>
    ensures { result ≡ whole_part_of (Ieee.to_unsigned 128 (Ieee.of_bits binary64 (b % 2 ^ 63))) }
{
    let m = b % 0x8000_0000_0000_0000;
    if 0x7ff0_0000_0000_0000 < m {
        return Some(WholePart::Below64(0));
    }
    let e = m / 0x10_0000_0000_0000;
    let d = m % 0x10_0000_0000_0000;
    if e < 1023 {
        return Some(WholePart::Below64(0));
    }
    let sig = 0x10_0000_0000_0000 + d;
    if e <= 1075 {
        return Some(WholePart::Below64(sig >> (1075 - e)));
    }
    let k = e - 1075;
    if k < 12 {
        return Some(WholePart::Below64(sig << k));
    }
    if k < 64 {
        return Some(WholePart::Below127(sig << k));
    }
    if k < 75 {
        return Some(WholePart::Below127(0));
    }
    None
}

// At the ends of 128 bits the low 64 bits are those of -2^127 and of 2^127 - 1.
fn make_whole(x: f64) -> Truncated
    ensures { Truncates result (Ieee.to_signed 127 x) }
{
    let b = x.to_word();
    let negative = 0x8000_0000_0000_0000 <= b;
    match whole_part(b) {
        Some(WholePart::Below64(magnitude)) => Truncated::Integer(SignMagnitude {
            negative,
            magnitude,
        }),
        Some(WholePart::Below127(magnitude)) => Truncated::LowWord(word_of(SignMagnitude {
            negative,
            magnitude,
        })),
        None if negative => Truncated::LowWord(0),
        None => Truncated::LowWord(0xffff_ffff_ffff_ffff),
    }
}

// The cast of an integer z to an integer kind, by the low 64 bits of z and whether the kind's range holds it.
fn cast_word(kind: IntKind, fits: bool, w: u64) -> Result<Number, NumberFault>
    ensures { (z : ℤ) → w ≡ low_bits 64 z → fits ≡ in_range kind z → result ≡ cast_integer kind z }
{
    if kind == IntKind::I64 {
        Ok(number_of_word(IntKind::I64, w))
    } else if fits {
        Ok(number_of_word(kind, w))
    } else {
        Err(NumberFault::InvalidCast)
    }
}

fn cast_integer(kind: IntKind, x: Truncated) -> Result<Number, NumberFault>
    ensures { (z : ℤ) → Truncates x z → result ≡ cast_integer kind z }
{
    match x {
        Truncated::Integer(n) => cast_word(kind, in_range(kind, n), word_of(n)),
        Truncated::LowWord(w) => cast_word(kind, false, w),
    }
}

// The f64 nearest to x. A zero has no negative there.
fn nearest_f64(x: SignMagnitude) -> f64
    ensures { result ≡ Ieee.of_int binary64 (value_of x) }
{
    let nearest = std::num::nearest_u64_to_f64(x.magnitude);
    if x.negative && x.magnitude != 0 {
        -nearest
    } else {
        nearest
    }
}

// A number made whole.
fn whole_of(x: Operand) -> Truncated
    ensures { Truncates result (truncated (operand_scalar x)) }
{
    match x {
        Operand::Integer(_, n) => Truncated::Integer(n),
        Operand::Double(y) => make_whole(y),
        Operand::Single(y) => make_whole(std::num::f32_to_f64_with_nan(y)),
    }
}

// A number as an f64.
fn as_float(x: Operand) -> f64
    ensures { result ≡ as_float (operand_scalar x) }
{
    match x {
        Operand::Integer(_, n) => nearest_f64(n),
        Operand::Double(y) => y,
        Operand::Single(y) => std::num::f32_to_f64_with_nan(y),
    }
}

// The casts that a sheet makes most, by their words: an Int to Float, a UInt to Float, and a Float to Int. A UInt to Int keeps its word.
pub fn int_to_float_word(p: u64) -> u64
    ensures { Ieee.of_bits binary64 result ≡ Ieee.of_int binary64 (twos_complement 63 p) }
{
    nearest_f64(SignMagnitude::from(p.cast_signed())).to_word()
}

pub fn uint_to_float_word(p: u64) -> u64
    ensures { Ieee.of_bits binary64 result ≡ Ieee.of_int binary64 (pos p) }
{
    std::num::nearest_u64_to_f64(p).to_word()
}

pub fn float_to_int_word(p: u64) -> u64
    ensures { result ≡ low_bits 64 (Ieee.to_signed 127 (Ieee.of_bits binary64 p)) }
{
    match make_whole(f64::of_word(p)) {
        Truncated::Integer(n) => word_of(n),
        Truncated::LowWord(w) => w,
    }
}

#[tactic(auto, unfolding(numbers::specs::Casts::cast_of))]
pub fn cast(target: CastTarget, a: Number) -> Result<Number, NumberFault>
    ensures { result ≡ cast_of target a }
{
    let x = Operand::from(a);
    match target {
        CastTarget::ToInteger(k) => cast_integer(k, whole_of(x)),
        CastTarget::ToFloat => Ok(Number::Float(as_float(x))),
        CastTarget::ToSFloat => { Ok(Number::SFloat(float_bits::nearest_f64_to_f32(as_float(x)))) }
    }
}
