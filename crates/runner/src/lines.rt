// The line of an answer of `run`.
ghost use Rattle.std.specs.Prelude.{◌≡◌, [], ◌≤◌, length};
ghost use Rattle.run_answers.specs.Numbers.{run_length};
ghost use Rattle.runner.specs.Line.{line_of};

use arrayvec::ArrayString;
use line_output::push_run;
use rl_vm::RunAnswer;

// How many bytes the result may have: document 01 says it of the runner.
pub const RESULT: usize = 4096;

// A line of the runner. The longest is that of a value of 4,096 bytes, two digits each, behind its count.
pub type Line = ArrayString<8224>;

// An answer and its result slice, as the line that says it, with its line feed. The line is lent: handed back by value, it would be copied from function
// to function.
pub fn line_of(answer: RunAnswer, res: &[u8], line: &mut Line)
    requires { (line.old.bytes ≡ []) × (run_length answer ≤ length res.now) × (length res.now ≤ 4096) }
    ensures { line.new.bytes ≡ line_of answer res.now }
{
    push_run(line, answer, res);
}
