// Replays the published Rust's answers on numbers against this repository's, and prints for each operation how many agree. Where a
// request of document 02 departs from the Rust, the list has the answers of tests/model: at a Cast of a UInt, which the Rust does not do (E1), and
// where the least number of a kind is negated, which wraps there (E5).
// A line of the list has 57 bytes, in upper-case hexadecimal: the operation by its instruction number (2 digits), the kind code and the
// payload of the first operand (2 and 16), those of the second (2 and 16; for Cast 00 and the target number, for Negate 00 and 0), the
// kind code and the payload of the answer (2 and 16; 07 for a Bool, or the number of a fault and 0), and a line feed.
#![tactic(auto)]

use case_list::read_full;
use line_digits::hex;
use number_arithmetic::{add, div, mul, negate, sub};
use number_casts::cast;
use number_comparison::{greater, greater_eq, less, less_eq};
use numbers::{ComparisonFault, Number, NumberFault};
use std::io;
use std::io::Read;

// ---- the operations

// In the order of the report.
#[derive(Clone, Copy, Debug, PartialEq, Eq)]
enum Operation {
    Add,
    Sub,
    Mul,
    Div,
    Negate,
    Less,
    LessEq,
    Greater,
    GreaterEq,
    Cast,
}

const OPERATIONS: [Operation; 10] = [
    Operation::Add,
    Operation::Sub,
    Operation::Mul,
    Operation::Div,
    Operation::Negate,
    Operation::Less,
    Operation::LessEq,
    Operation::Greater,
    Operation::GreaterEq,
    Operation::Cast,
];

impl Operation {
    fn name(self) -> &'static str {
        match self {
            Operation::Add => "Add",
            Operation::Sub => "Sub",
            Operation::Mul => "Mul",
            Operation::Div => "Div",
            Operation::Negate => "Negate",
            Operation::Less => "Less",
            Operation::LessEq => "LessEq",
            Operation::Greater => "Greater",
            Operation::GreaterEq => "GreaterEq",
            Operation::Cast => "Cast",
        }
    }
}

// A number that is no instruction's on numbers.
#[derive(Clone, Copy, Debug, PartialEq, Eq)]
struct UnknownOperation(u64);

impl TryFrom<u64> for Operation {
    type Error = UnknownOperation;

    fn try_from(instruction: u64) -> Result<Self, UnknownOperation> {
        match instruction {
            1 => Ok(Operation::Add),
            2 => Ok(Operation::Sub),
            3 => Ok(Operation::Mul),
            4 => Ok(Operation::Div),
            5 => Ok(Operation::Negate),
            9 => Ok(Operation::Less),
            10 => Ok(Operation::LessEq),
            11 => Ok(Operation::Greater),
            12 => Ok(Operation::GreaterEq),
            36 => Ok(Operation::Cast),
            _ => Err(UnknownOperation(instruction)),
        }
    }
}

// ---- an operation worked out with `numbers`, in the list's coding

// A number as the list has it, or another answer: a Bool under the kind code 7, the number of a fault and 0.
#[derive(Clone, Copy, Debug, PartialEq, Eq)]
struct Coded {
    kind: u64,
    word: u64,
}

impl From<Result<Number, NumberFault>> for Coded {
    fn from(answer: Result<Number, NumberFault>) -> Coded {
        match answer {
            Ok(x) => Coded {
                kind: u64::from(u8::from(number_operands::kind_of(x))),
                word: number_codes::payload_of(x),
            },
            Err(fault) => Coded {
                kind: u64::from(u8::from(fault)),
                word: 0,
            },
        }
    }
}

impl From<Result<bool, ComparisonFault>> for Coded {
    fn from(answer: Result<bool, ComparisonFault>) -> Coded {
        match answer {
            Ok(holds) => Coded {
                kind: 7,
                word: u64::from(holds),
            },
            Err(fault) => Coded {
                kind: u64::from(u8::from(fault)),
                word: 0,
            },
        }
    }
}

// The number that is coded, whose payload has no bit above its kind's width. Any payload of a NaN is taken.
fn number(coded: Coded) -> Option<Number> {
    let kind = u8::try_from(coded.kind).ok()?;
    if kind == 6 && 0xffff_ffff < coded.word {
        return None;
    }
    let x = number_codes::number_of_payload(kind, coded.word)?;
    if kind != 5 && kind != 6 && number_codes::payload_of(x) != coded.word {
        return None;
    }
    Some(x)
}

// What stands in the place of a second number, where the operation has none.
fn bare_word(coded: Coded) -> Option<u64> {
    match coded {
        Coded { kind: 0, word } => Some(word),
        _ => None,
    }
}

// The answer to an operation; none where the line is not of its form.
fn work(operation: Operation, x: Number, second: Coded) -> Option<Coded> {
    let y = number(second);
    let other = bare_word(second);
    Some(match operation {
        Operation::Add => Coded::from(add(x, y?)),
        Operation::Sub => Coded::from(sub(x, y?)),
        Operation::Mul => Coded::from(mul(x, y?)),
        Operation::Div => Coded::from(div(x, y?)),
        Operation::Negate if other == Some(0) => Coded::from(negate(x)),
        Operation::Negate => return None,
        Operation::Less => Coded::from(less(x, y?)),
        Operation::LessEq => Coded::from(less_eq(x, y?)),
        Operation::Greater => Coded::from(greater(x, y?)),
        Operation::GreaterEq => Coded::from(greater_eq(x, y?)),
        Operation::Cast => Coded::from(cast(number_codes::cast_target(other?)?, x)),
    })
}

// ---- one line of the list: its fields, and whether the answer in it is the one worked out here

// The number that these digits are.
fn field(digits: &[u8]) -> Option<u64> {
    digits
        .iter()
        .try_fold(0u64, |n, digit| Some(n << 4 | u64::from(hex(*digit)?)))
}

// A kind code of two digits and a payload of sixteen.
fn coded_in(digits: &[u8; 18]) -> Option<Coded> {
    Some(Coded {
        kind: field(&digits[..2])?,
        word: field(&digits[2..])?,
    })
}

#[derive(Clone, Copy)]
struct Line {
    operation: Operation,
    first: Coded,
    second: Coded,
    answer: Coded,
}

fn line_of(text: &[u8]) -> Option<Line> {
    let (operation, rest) = text.split_first_chunk::<2>()?;
    let (first, rest) = rest.split_first_chunk::<18>()?;
    let (second, rest) = rest.split_first_chunk::<18>()?;
    let (answer, rest) = rest.split_first_chunk::<18>()?;
    let b"\n" = rest else {
        return None;
    };
    Some(Line {
        operation: Operation::try_from(field(operation)?).ok()?,
        first: coded_in(first)?,
        second: coded_in(second)?,
        answer: coded_in(answer)?,
    })
}

// What a line shows: whether the answer of this operation agrees; none where it has not the form of one.
fn judge(text: &[u8]) -> Option<(Operation, bool)> {
    let line = line_of(text)?;
    let answer = work(line.operation, number(line.first)?, line.second)?;
    Some((line.operation, answer == line.answer))
}

// ---- what the program counts and prints: a line for each operation, and the sums

#[derive(Clone, Copy, Default)]
struct Count {
    agree: u64,
    differ: u64,
}

impl Count {
    fn with(self, agrees: bool) -> Count {
        if agrees {
            Count {
                agree: self.agree.wrapping_add(1),
                ..self
            }
        } else {
            Count {
                differ: self.differ.wrapping_add(1),
                ..self
            }
        }
    }

    fn plus(self, other: Count) -> Count {
        Count {
            agree: self.agree.wrapping_add(other.agree),
            differ: self.differ.wrapping_add(other.differ),
        }
    }

    fn print(self, rt: &impl Print, name: &str) -> io::Result<()> {
        let Count { agree, differ } = self;
        print!(rt; "{name} {agree} agree, {differ} differ")
    }
}

// The lines of the list, by operation, and those that are malformed.
#[derive(Clone, Copy, Default)]
struct Report {
    counts: [Count; 10],
    malformed: u64,
}

impl Report {
    fn add(&mut self, verdict: Option<(Operation, bool)>) {
        match verdict {
            Some((operation, agrees)) => {
                let count = &mut self.counts[operation as usize];
                *count = count.with(agrees);
            }
            None => self.malformed = self.malformed.wrapping_add(1),
        }
    }

    fn print(&self, rt: &impl Print) -> io::Result<()> {
        for (operation, count) in OPERATIONS.iter().zip(&self.counts) {
            count.print(rt, operation.name())?;
            println!(rt)?;
        }
        let all = self
            .counts
            .iter()
            .fold(Count::default(), |sum, count| sum.plus(*count));
        all.print(rt, "all")?;
        let malformed = self.malformed;
        println!(rt; ", {malformed} malformed")
    }
}

// ---- the run

// No list is longer: the program ends whatever it is given, and says so where it stops before the end.
const MOST: u64 = 1_000_000;

// Counts the lines of the list, and answers whether it came to their end.
fn replay(input: &mut impl Read, report: &mut Report) -> io::Result<bool> {
    let mut room = [0u8; 57];
    for _ in 0..MOST {
        let text = read_full(input, &mut room)?;
        if text.is_empty() {
            return Ok(true);
        }
        report.add(judge(text));
    }
    Ok(false)
}

// A read or a write that fails ends the run with its error.
fn main(rt: HostRuntime) -> io::Result<()> {
    let mut report = Report::default();
    let ended = replay(&mut rt.stdin(), &mut report)?;
    report.print(&rt)?;
    if ended {
        Ok(())
    } else {
        println!(rt; "stopped before the end of the list")
    }
}
