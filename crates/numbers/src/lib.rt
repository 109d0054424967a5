// The numbers of the machine: ten kinds, the faults of an operation on them, and the definitions of the operations (specs/). `number_operands`
// takes numbers apart; `number_arithmetic`, `number_comparison` and `number_casts` have the operations.
#![tactic(auto)]

mod answers;

pub use answers::{comparison_fault, fault_number};

#[derive(Clone, Copy)]
pub enum Number {
    Int(i64),
    UInt(u64),
    SInt(i32),
    SUInt(u32),
    Float(f64),
    SFloat(f32),
    Byte(u8),
    SByte(i8),
    BByte(u16),
    BSByte(i16),
}

// Why arithmetic, negation or a cast has no number to answer.
#[derive(Clone, Copy, Debug, PartialEq, Eq)]
pub enum NumberFault {
    Overflow,
    ZeroDivisor,
    WrongKind,
    InvalidCast,
}

// Why an ordered comparison has no answer: a NaN has no order, and numbers of two kinds have none.
#[derive(Clone, Copy, Debug, PartialEq, Eq)]
pub enum ComparisonFault {
    Unordered,
    WrongKind,
}

// The eight integer kinds, by the Rust type that each holds.
#[derive(Clone, Copy, PartialEq, Eq)]
pub enum IntKind {
    I64,
    U64,
    I32,
    U32,
    U8,
    I8,
    U16,
    I16,
}

// What a cast makes.
#[derive(Clone, Copy)]
pub enum CastTarget {
    ToInteger(IntKind),
    ToFloat,
    ToSFloat,
}
