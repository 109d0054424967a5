// Negate. An integer is negated in its own type: the least number of a kind has no negative there.
ghost use Rattle.std.specs.Prelude.{◌≡◌};
ghost use Rattle.numbers.specs.Arithmetic.{negate_of};

use numbers::NumberFault::Overflow;
use numbers::{Number, NumberFault};

#[tactic(auto, unfolding(numbers::specs::Arithmetic::negate_of))]
pub fn negate(a: Number) -> Result<Number, NumberFault>
    ensures { result ≡ negate_of a }
{
    match a {
        Number::Int(x) => x.checked_neg().map(Number::Int).ok_or(Overflow),
        Number::SInt(x) => x.checked_neg().map(Number::SInt).ok_or(Overflow),
        Number::BSByte(x) => x.checked_neg().map(Number::BSByte).ok_or(Overflow),
        Number::SByte(x) => x.checked_neg().map(Number::SByte).ok_or(Overflow),
        Number::Float(x) => Ok(Number::Float(-x)),
        Number::SFloat(x) => Ok(Number::SFloat(-x)),
        Number::UInt(_) => Err(NumberFault::WrongKind),
        Number::SUInt(_) => Err(NumberFault::WrongKind),
        Number::Byte(_) => Err(NumberFault::WrongKind),
        Number::BByte(_) => Err(NumberFault::WrongKind),
    }
}
