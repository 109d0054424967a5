// Add, Sub, Mul, Div and Negate on the numbers of the machine.
#![tactic(auto)]

mod arithmetic;
mod negation;

pub use arithmetic::{add, div, mul, sub};
pub use negation::negate;
