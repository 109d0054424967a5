// Numbers taken apart for the operations on them, and put together again. The eight integer kinds share one way, by sign and magnitude, so that
// each rule is written and proved once for every width.
#![tactic(auto)]

mod integers;
mod operands;

pub use integers::{checked, in_range, int_kind_of, number_of_word, word_of};
use numbers::IntKind;
pub use operands::{kind_of, pair_of};

// An integer of at most 65 bits with its sign. Zero may have either sign.
#[derive(Clone, Copy)]
pub struct SignMagnitude {
    pub negative: bool,
    pub magnitude: u64,
}

// A number taken apart: an integer kind with its value, or a float.
#[derive(Clone, Copy)]
pub enum Operand {
    Integer(IntKind, SignMagnitude),
    Double(f64),
    Single(f32),
}

// Two numbers of one kind.
#[derive(Clone, Copy)]
pub enum OperandPair {
    Integers(IntKind, SignMagnitude, SignMagnitude),
    Doubles(f64, f64),
    Singles(f32, f32),
}
