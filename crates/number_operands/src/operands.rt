// A number's kind, and one or two numbers taken apart.
ghost use Rattle.std.specs.Prelude.{◌≡◌, false};
ghost use Rattle.kinds.specs.Codes.{code_of};
ghost use Rattle.numbers.specs.Kinds.{kind_code};
ghost use Rattle.numbers.specs.Scalars.{integer, scalar_of, same_kind};
ghost use Rattle.number_operands.specs.Operands.{operand_scalar, operand_pair};

use super::{Operand, OperandPair, SignMagnitude};
use kinds::Kind;
use numbers::{IntKind, Number};

pub fn kind_of(a: Number) -> Kind
    ensures { code_of result ≡ kind_code a }
{
    match a {
        Number::Int(_) => Kind::Int,
        Number::UInt(_) => Kind::UInt,
        Number::SInt(_) => Kind::SInt,
        Number::SUInt(_) => Kind::SUInt,
        Number::Float(_) => Kind::Float,
        Number::SFloat(_) => Kind::SFloat,
        Number::Byte(_) => Kind::Byte,
        Number::SByte(_) => Kind::SByte,
        Number::BByte(_) => Kind::BByte,
        Number::BSByte(_) => Kind::BSByte,
    }
}

fn unsigned(kind: IntKind, magnitude: u64) -> Operand
    ensures { result ≡ Operand.Integer kind (record { negative = false; magnitude = magnitude }) }
{
    Operand::Integer(
        kind,
        SignMagnitude {
            negative: false,
            magnitude,
        },
    )
}

fn signed(kind: IntKind, x: i64) -> Operand
    ensures { operand_scalar result ≡ integer kind x }
{
    Operand::Integer(kind, SignMagnitude::from(x))
}

impl From<Number> for Operand {
    ghost from_gives = { λ a operand. operand_scalar operand ≡ scalar_of a };

    fn from(a: Number) -> Operand {
        match a {
            Number::Int(x) => signed(IntKind::I64, x),
            Number::UInt(x) => unsigned(IntKind::U64, x),
            Number::SInt(x) => signed(IntKind::I32, i64::from(x)),
            Number::SUInt(x) => unsigned(IntKind::U32, u64::from(x)),
            Number::Float(x) => Operand::Double(x),
            Number::SFloat(x) => Operand::Single(x),
            Number::Byte(x) => unsigned(IntKind::U8, u64::from(x)),
            Number::SByte(x) => signed(IntKind::I8, i64::from(x)),
            Number::BByte(x) => unsigned(IntKind::U16, u64::from(x)),
            Number::BSByte(x) => signed(IntKind::I16, i64::from(x)),
        }
    }
}

// Two numbers of one kind; none where their kinds differ.
pub fn pair_of(a: Number, b: Number) -> Option<OperandPair>
    ensures { operand_pair result ≡ same_kind (scalar_of a) (scalar_of b) }
{
    match (Operand::from(a), Operand::from(b)) {
        (Operand::Integer(j, p), Operand::Integer(k, q)) if j == k => {
            Some(OperandPair::Integers(j, p, q))
        }
        (Operand::Double(p), Operand::Double(q)) => Some(OperandPair::Doubles(p, q)),
        (Operand::Single(p), Operand::Single(q)) => Some(OperandPair::Singles(p, q)),
        _ => None,
    }
}
