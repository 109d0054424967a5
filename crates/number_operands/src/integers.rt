// Integers by sign and magnitude, and by their bits in two's complement: what the eight integer kinds share.
ghost use Rattle.std.specs.Prelude.{◌≡◌, pos};
ghost use Rattle.kinds.specs.Codes.{code_of};
ghost use Rattle.numbers.specs.Kinds.{int_kind_code, least_magnitude, greatest, in_range, as_kind, low_bits, wrapping};
ghost use Rattle.number_operands.specs.Operands.{value_of};
ghost use Rattle.numbers.specs.Arithmetic.{checked as checked_of};

use super::SignMagnitude;
use kinds::Kind;
use numbers::{IntKind, Number, NumberFault};

pub fn int_kind_of(kind: IntKind) -> Kind
    ensures { code_of result ≡ int_kind_code kind }
{
    match kind {
        IntKind::I64 => Kind::Int,
        IntKind::U64 => Kind::UInt,
        IntKind::I32 => Kind::SInt,
        IntKind::U32 => Kind::SUInt,
        IntKind::U8 => Kind::Byte,
        IntKind::I8 => Kind::SByte,
        IntKind::U16 => Kind::BByte,
        IntKind::I16 => Kind::BSByte,
    }
}

// The least number of the kind, without its sign. This and the next are tables of the kinds' bounds: worked out from a kind's bits and whether it has a
// sign, they would be two more tables and two more computations.
pub fn least_magnitude(kind: IntKind) -> u64
    ensures { result ≡ least_magnitude kind }
{
    match kind {
        IntKind::I64 => 0x8000_0000_0000_0000,
        IntKind::U64 => 0,
        IntKind::I32 => 0x8000_0000,
        IntKind::U32 => 0,
        IntKind::U8 => 0,
        IntKind::I8 => 0x80,
        IntKind::U16 => 0,
        IntKind::I16 => 0x8000,
    }
}

pub fn greatest_of(kind: IntKind) -> u64
    ensures { result ≡ greatest kind }
{
    match kind {
        IntKind::I64 => 0x7fff_ffff_ffff_ffff,
        IntKind::U64 => 0xffff_ffff_ffff_ffff,
        IntKind::I32 => 0x7fff_ffff,
        IntKind::U32 => 0xffff_ffff,
        IntKind::U8 => 0xff,
        IntKind::I8 => 0x7f,
        IntKind::U16 => 0xffff,
        IntKind::I16 => 0x7fff,
    }
}

pub fn in_range(kind: IntKind, x: SignMagnitude) -> bool
    ensures { result ≡ in_range kind (value_of x) }
{
    if x.negative {
        x.magnitude <= least_magnitude(kind)
    } else {
        x.magnitude <= greatest_of(kind)
    }
}

impl From<i64> for SignMagnitude {
    ghost from_gives = { λ x parts. value_of parts ≡ x };

    fn from(x: i64) -> SignMagnitude {
        SignMagnitude {
            negative: x.is_negative(),
            magnitude: x.unsigned_abs(),
        }
    }
}

// The low 64 bits of x in two's complement: a negative number is subtracted from zero, wrapping.
pub fn word_of(x: SignMagnitude) -> u64
    ensures { result ≡ low_bits 64 (value_of x) }
{
    if x.negative {
        x.magnitude.wrapping_neg()
    } else {
        x.magnitude
    }
}

// The number of the kind that the low bits of n are.
pub fn number_of_word(kind: IntKind, n: u64) -> Number
    ensures { result ≡ as_kind kind (wrapping kind (pos n)) }
{
    match kind {
        IntKind::I64 => Number::Int(n.cast_signed()),
        IntKind::U64 => Number::UInt(n),
        IntKind::I32 => Number::SInt(((n % 0x1_0000_0000) as u32).cast_signed()),
        IntKind::U32 => Number::SUInt((n % 0x1_0000_0000) as u32),
        IntKind::U8 => Number::Byte((n % 0x100) as u8),
        IntKind::I8 => Number::SByte(((n % 0x100) as u8).cast_signed()),
        IntKind::U16 => Number::BByte((n % 0x1_0000) as u16),
        IntKind::I16 => Number::BSByte(((n % 0x1_0000) as u16).cast_signed()),
    }
}

// The number x of the kind, or 37 where it is out of range.
pub fn checked(kind: IntKind, x: SignMagnitude) -> Result<Number, NumberFault>
    ensures { result ≡ checked_of kind (value_of x) }
{
    if in_range(kind, x) {
        Ok(number_of_word(kind, word_of(x)))
    } else {
        Err(NumberFault::Overflow)
    }
}
