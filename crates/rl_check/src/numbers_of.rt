// An answer of `check` as plain numbers: document 01's number, and its place.
ghost use Rattle.std.specs.Prelude.{◌≡◌};
ghost use Rattle.stack_check.specs.Answer.{reason_number};
ghost use Rattle.rl_check.specs.Numbers.{AreNumbersOf};

use crate::CheckAnswer;

// `usize::from` under a name.
pub fn fault_number(r: stack_check::Reason) -> usize
    ensures { result ≡ reason_number r }
{
    usize::from(r)
}

// An answer as numbers. Each is 0 where the answer has none.
#[derive(Clone, Copy)]
pub struct CheckNumbers {
    pub number: usize, // document 01's; 0 for a pass
    pub line: usize, // of a refusal
    pub chunk: usize, // of a fault, and its offset
    pub offset: usize,
}

const NOTHING: CheckNumbers = CheckNumbers {
    number: 0,
    line: 0,
    chunk: 0,
    offset: 0,
};

impl From<CheckAnswer> for CheckNumbers {
    ghost from_gives = { AreNumbersOf };

    fn from(answer: CheckAnswer) -> CheckNumbers {
        match answer {
            CheckAnswer::Refused(reason, line) => CheckNumbers {
                number: usize::from(reason),
                line,
                ..NOTHING
            },
            CheckAnswer::Pass => NOTHING,
            CheckAnswer::Fault(fault, chunk, offset) => CheckNumbers {
                number: usize::from(fault),
                chunk,
                offset,
                ..NOTHING
            },
        }
    }
}
