// The line of an answer of `check`.
ghost use Rattle.std.specs.Prelude.{◌≡◌, [], ◌∷◌, ◌++◌, ◌+◌, ◌≤◌};
ghost use Rattle.arrayvec.specs.ArrayString.{array_string_len};
ghost use Rattle.definition.specs.Runner.{ascii, decimal, padded, words};
ghost use Rattle.rl_check.specs.Check.{answer_of};
ghost use Rattle.checker.specs.Line.{checker_line};

use arrayvec::ArrayString;
use line_output::{push_decimal, push_place, push_refused};
use rl_vm::CheckAnswer;

// A line of the checker. The longest is that of a fault, with three numbers of 20 digits at most.
pub type Line = ArrayString<96>;

fn push_fault(line: &mut Line, number: usize, chunk: usize, offset: usize)
    requires { array_string_len line.old + 69 ≤ 96 }
    ensures { line.new.bytes ≡ line.old.bytes ++ words (ascii "fault" ∷ decimal number ∷ padded chunk ∷ padded offset ∷ []) }
{
    line.push_str("fault ");
    push_decimal(line, number);
    line.push_str(" ");
    push_place(line, chunk, offset);
    line.push_str("\n");
}

// An answer as the line that says it, with its line feed.
pub fn line_of(answer: CheckAnswer) -> Line
    ensures { result.bytes ≡ checker_line (answer_of answer) }
{
    let mut line = Line::new();
    match answer {
        CheckAnswer::Refused(reason, at) => push_refused(&mut line, usize::from(reason), at),
        CheckAnswer::Pass => line.push_str("pass\n"),
        CheckAnswer::Fault(reason, chunk, offset) => push_fault(
            &mut line,
            usize::from(reason),
            chunk,
            offset,
        ),
    }
    line
}
