// A float and its bits at both widths, a NaN included, and the rounding of an f64 to the nearest f32.
// The language's own conversions take no NaN; these take every value.
#![tactic(auto)]

ghost use Rattle.std.specs.Prelude.{◌≡◌, ℕ, Bool, cond, ◌+◌, ◌^◌, ◌%◌, ◌<◌, Float};
ghost use Rattle.std.specs.Float.Ieee as Ieee;
ghost use Rattle.std.specs.Float.{Format, binary32, binary64};
ghost use Rattle.std.specs.Float.Ieee.Nearest.{closest};
ghost use Rattle.float_bits.specs.Computes.{Computes};
ghost use Rattle.float_bits.specs.Nearest.{nearest_binary32};

use std::ops::{Add, Div, Mul, Sub};

// A float type and its bits. IEEE 754 says what its operators compute.
pub trait FloatBits: Copy
    + Add<Output = Self>
    + Sub<Output = Self>
    + Mul<Output = Self>
    + Div<Output = Self> {
    ghost format: { Format };

    ghost float: { Self → Float };

    // What of a word of 64 bits is the float's: all of it, or the low half.
    ghost bits: { ℕ → ℕ };

    // The bits of a float. A NaN is the quiet one with a clear sign and no payload, as a result codes it.
    fn to_word(self) -> u64
        ensures word { result ≡ Ieee.to_bits format (float self) }
        ensures short { bits result ≡ result };

    // The float with the bits w. Every pattern above the infinity's, the sign left out, is a NaN, a signalling one too.
    fn of_word(w: u64) -> Self
        ensures { float result ≡ Ieee.of_bits format (bits w) };

    ghost sums: { Computes float (Ieee.add format) Self.can_add Self.add_gives };

    ghost differences: { Computes float (Ieee.sub format) Self.can_sub Self.sub_gives };

    ghost products: { Computes float (Ieee.mul format) Self.can_mul Self.mul_gives };

    ghost quotients: { Computes float (Ieee.div format) Self.can_div Self.div_gives };
}

impl FloatBits for f64 {
    ghost format = { binary64 };

    ghost float = { λ x. x };

    ghost bits = { λ w. w };

    ghost sums = { λ x y. (tt, λ r e. e) };

    ghost differences = { λ x y. (tt, λ r e. e) };

    ghost products = { λ x y. (tt, λ r e. e) };

    ghost quotients = { λ x y. (tt, λ r e. e) };

    fn to_word(self) -> u64 {
        if self.is_nan() {
            0x7ff8_0000_0000_0000
        } else {
            self.to_bits()
        }
    }

    fn of_word(w: u64) -> f64 {
        if 0x7ff0_0000_0000_0000 < w % 0x8000_0000_0000_0000 {
            f64::NAN
        } else {
            f64::from_bits(w)
        }
    }
}

impl FloatBits for f32 {
    ghost format = { binary32 };

    ghost float = { λ x. x };

    ghost bits = { λ w. w % 2 ^ 32 };

    ghost sums = { λ x y. (tt, λ r e. e) };

    ghost differences = { λ x y. (tt, λ r e. e) };

    ghost products = { λ x y. (tt, λ r e. e) };

    ghost quotients = { λ x y. (tt, λ r e. e) };

    fn to_word(self) -> u64 {
        if self.is_nan() {
            0x7fc0_0000
        } else {
            self.to_bits() as u64
        }
    }

    fn of_word(w: u64) -> f32 {
        let bits = (w % 0x1_0000_0000) as u32;
        if 0x7f80_0000 < bits % 0x8000_0000 {
            f32::NAN
        } else {
            f32::from_bits(bits)
        }
    }
}

// n / 2^r to the nearest whole number, a tie to the even one.
fn shift_to_nearest(n: u64, r: u64) -> u64
    requires { (0 < r) × (r < 64) }
    ensures { result ≡ closest n (2 ^ r) }
{
    let u = 1u64 << r;
    let q = n >> r;
    let rest = n - q * u;
    let other = u - rest;
    if rest < other {
        q
    } else if other < rest {
        q + 1
    } else {
        q + q % 2
    }
}

// The bits of the f32 nearest to the f64 whose bits, the sign taken off, are m, whichever the sign s.
// The exponent's field e is 896 more than the f32's. From 1151 the f32 is an infinity, from 897 a normal number (29 digits are
// dropped, and a carry out of the digits raises the exponent by itself), from 872 a subnormal one, below that 0.
fn nearest_magnitude(m: u64) -> u64
    requires { m < 2 ^ 63 }
    ensures nearest { (s : Bool) → Ieee.of_bits binary32 (cond s (2 ^ 31) 0 + result) ≡ nearest_binary32 (Ieee.of_bits binary64 (cond s (2 ^ 63) 0 + m)) }
    ensures upper_bound { result < 2 ^ 31 }
{
    if 0x7ff0_0000_0000_0000 < m {
        return 0x7fc0_0000;
    }
    let e = m / 0x10_0000_0000_0000;
    let d = m % 0x10_0000_0000_0000;
    if 1151 <= e {
        return 0x7f80_0000;
    }
    let sig = 0x10_0000_0000_0000 + d;
    if 897 <= e {
        return (e - 897) * 0x80_0000 + shift_to_nearest(sig, 29);
    }
    if 872 <= e {
        return shift_to_nearest(sig, 926 - e);
    }
    0
}

// The bits of the f32 nearest to the f64 with the bits b.
fn nearest_word(b: u64) -> u64
    ensures nearest { Ieee.of_bits binary32 result ≡ nearest_binary32 (Ieee.of_bits binary64 b) }
    ensures upper_bound { result < 2 ^ 32 }
{
    let w = nearest_magnitude(b % 0x8000_0000_0000_0000);
    if 0x8000_0000_0000_0000 <= b {
        0x8000_0000 + w
    } else {
        w
    }
}

// The f32 nearest to x, a tie to the one with an even last digit; a NaN gives a NaN. This is Rust's `x as f32`.
pub fn nearest_f64_to_f32(x: f64) -> f32
    ensures { result ≡ nearest_binary32 x }
{
    f32::of_word(nearest_word(x.to_word()))
}
