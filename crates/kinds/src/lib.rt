// The kinds of values, and the code of each: in images, in the words of lent slices, in results and in IsKind.
#![tactic(auto)]

ghost use Rattle.std.specs.Prelude.{◌≡◌};
ghost use Rattle.kinds.specs.Codes.{code_of, Decodes};

#[derive(Clone, Copy, Debug, PartialEq, Eq)]
pub enum Kind {
    Null,
    Int,
    UInt,
    SInt,
    SUInt,
    Float,
    SFloat,
    Bool,
    Str,
    Char,
    Byte,
    SByte,
    BByte,
    BSByte,
    Arr,
    Tuple,
    Function,
    Ok,
    Error,
    Err,
    Closure,
}

// A code that is no kind's.
#[derive(Clone, Copy, Debug, PartialEq, Eq)]
pub struct UnknownKind(pub u64);

impl From<Kind> for u8 {
    ghost from_gives = { λ kind code. code ≡ code_of kind };

    fn from(kind: Kind) -> u8 {
        match kind {
            Kind::Null => 0,
            Kind::Int => 1,
            Kind::UInt => 2,
            Kind::SInt => 3,
            Kind::SUInt => 4,
            Kind::Float => 5,
            Kind::SFloat => 6,
            Kind::Bool => 7,
            Kind::Str => 8,
            Kind::Char => 9,
            Kind::Byte => 10,
            Kind::SByte => 11,
            Kind::BByte => 12,
            Kind::BSByte => 13,
            Kind::Arr => 14,
            Kind::Tuple => 17,
            Kind::Function => 20,
            Kind::Ok => 22,
            Kind::Error => 23,
            Kind::Err => 24,
            Kind::Closure => 25,
        }
    }
}

impl TryFrom<u64> for Kind {
    type Error = UnknownKind;

    ghost try_from_gives = { Decodes };

    fn try_from(code: u64) -> Result<Self, UnknownKind> {
        match code {
            0 => Ok(Kind::Null),
            1 => Ok(Kind::Int),
            2 => Ok(Kind::UInt),
            3 => Ok(Kind::SInt),
            4 => Ok(Kind::SUInt),
            5 => Ok(Kind::Float),
            6 => Ok(Kind::SFloat),
            7 => Ok(Kind::Bool),
            8 => Ok(Kind::Str),
            9 => Ok(Kind::Char),
            10 => Ok(Kind::Byte),
            11 => Ok(Kind::SByte),
            12 => Ok(Kind::BByte),
            13 => Ok(Kind::BSByte),
            14 => Ok(Kind::Arr),
            17 => Ok(Kind::Tuple),
            20 => Ok(Kind::Function),
            22 => Ok(Kind::Ok),
            23 => Ok(Kind::Error),
            24 => Ok(Kind::Err),
            25 => Ok(Kind::Closure),
            _ => Err(UnknownKind(code)),
        }
    }
}
