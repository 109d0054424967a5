// The fault numbers of the answers; 0 where there is a value.
ghost use Rattle.std.specs.Prelude.{◌≡◌};
ghost use Rattle.numbers.specs.Answers.{number_of_fault, number_of_comparison_fault, answer_number, comparison_fault};

use super::{ComparisonFault, Number, NumberFault};

impl From<NumberFault> for u8 {
    ghost from_gives = { λ fault n. n ≡ number_of_fault fault };

    fn from(fault: NumberFault) -> u8 {
        match fault {
            NumberFault::Overflow => 37,
            NumberFault::ZeroDivisor => 38,
            NumberFault::WrongKind => 39,
            NumberFault::InvalidCast => 42,
        }
    }
}

impl From<ComparisonFault> for u8 {
    ghost from_gives = { λ fault n. n ≡ number_of_comparison_fault fault };

    fn from(fault: ComparisonFault) -> u8 {
        match fault {
            ComparisonFault::Unordered => 40,
            ComparisonFault::WrongKind => 39,
        }
    }
}

// Two functions, of one match each: a common one needs a trait for the two kinds of fault beside their `From`, and saves no line.
pub fn fault_number(answer: Result<Number, NumberFault>) -> u8
    ensures { result ≡ answer_number answer }
{
    match answer {
        Ok(_) => 0,
        Err(fault) => u8::from(fault),
    }
}

pub fn comparison_fault(answer: Result<bool, ComparisonFault>) -> u8
    ensures { result ≡ comparison_fault answer }
{
    match answer {
        Ok(_) => 0,
        Err(fault) => u8::from(fault),
    }
}
