// Numbers by their codes: a kind's code with a payload, as images and results hold them, and the target number of a Cast.
#![tactic(auto)]

ghost use Rattle.std.specs.Prelude.{◌≡◌};
ghost use Rattle.number_codes.specs.Payloads.{payload_of, number_of_payload};
ghost use Rattle.number_codes.specs.Targets.{cast_target_of};

use numbers::{CastTarget, IntKind, Number};

// The bits of a number at its own width, in two's complement or IEEE 754: the second of the two words that hold it as a value.
pub fn payload_of(a: Number) -> u64
    ensures { result ≡ payload_of a }
{
    values::number_word(a)
}

// The number of the kind with this code that the low bits of w, as many as the kind has, are: the number that the value of the two words is;
// none where the code is no number's.
pub fn number_of_payload(code: u8, w: u64) -> Option<Number>
    ensures { result ≡ number_of_payload code w }
{
    values::number_in(values::value_at(u64::from(code), w))
}

// The target with the number that a Cast instruction holds, where there is one: the numbers are the image's, in an order of their own.
pub fn cast_target(number: u64) -> Option<CastTarget>
    ensures { result ≡ cast_target_of number }
{
    match number {
        0 => Some(CastTarget::ToInteger(IntKind::I64)),
        1 => Some(CastTarget::ToFloat),
        2 => Some(CastTarget::ToInteger(IntKind::U64)),
        3 => Some(CastTarget::ToSFloat),
        4 => Some(CastTarget::ToInteger(IntKind::U32)),
        5 => Some(CastTarget::ToInteger(IntKind::I32)),
        6 => Some(CastTarget::ToInteger(IntKind::U16)),
        7 => Some(CastTarget::ToInteger(IntKind::I16)),
        8 => Some(CastTarget::ToInteger(IntKind::U8)),
        9 => Some(CastTarget::ToInteger(IntKind::I8)),
        _ => None,
    }
}
