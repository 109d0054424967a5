// The line of an answer of `run`.
ghost use Rattle.std.specs.Prelude.{◌≡◌, [], ◌∷◌, ◌++◌, ◌+◌, ◌*◌, ◌≤◌, length};
ghost use Rattle.arrayvec.specs.ArrayString.{array_string_len};
ghost use Rattle.definition.specs.Runner.{ascii, decimal, padded, hex, words, answer_line};
ghost use Rattle.run_answers.specs.Numbers.{run_length};
ghost use Rattle.run_answers.specs.Run.{answer_of};
ghost use Rattle.vm_acts.specs.Reasons.{reason_number};

use crate::{push_decimal, push_hex, push_place, push_refused};
use arrayvec::ArrayString;
use run_answers::RunAnswer;
use vm_acts::Stopped;

fn push_value<const N: usize>(line: &mut ArrayString<N>, count: usize, bytes: &[u8])
    requires { array_string_len line.old + 32 + 2 * length bytes.now ≤ N }
    ensures { line.new.bytes ≡ line.old.bytes ++ words (ascii "value" ∷ decimal count ∷ hex bytes.now ∷ []) }
{
    line.push_str("value ");
    push_decimal(line, count);
    line.push_str(" ");
    push_hex(line, bytes);
    line.push_str("\n");
}

fn push_stop<const N: usize>(line: &mut ArrayString<N>, stop: Stopped)
    requires { array_string_len line.old + 96 ≤ N }
    ensures { line.new.bytes ≡ line.old.bytes ++ words (ascii "stop" ∷ decimal (reason_number stop.reason) ∷ decimal stop.count ∷ padded stop.chunk ∷ padded stop.offset ∷ []) }
{
    let Stopped {
        reason,
        count,
        chunk,
        offset,
    } = stop;
    line.push_str("stop ");
    push_decimal(line, usize::from(reason));
    line.push_str(" ");
    push_decimal(line, count);
    line.push_str(" ");
    push_place(line, chunk, offset);
    line.push_str("\n");
}

// The line of an answer and its result slice, with its line feed. A value's has at most 32 bytes and two for each of the slice, another
// 96.
pub fn push_run<const N: usize>(line: &mut ArrayString<N>, answer: RunAnswer, res: &[u8])
    requires length { run_length answer ≤ length res.now }
    requires value { array_string_len line.old + 32 + 2 * length res.now ≤ N }
    requires others { array_string_len line.old + 96 ≤ N }
    ensures { line.new.bytes ≡ line.old.bytes ++ answer_line (answer_of answer res.now) }
{
    match answer {
        RunAnswer::Refused(reason, at) => push_refused(line, usize::from(reason), at),
        RunAnswer::Value { count, length } => push_value(line, count, &res[..length]),
        RunAnswer::Stop(stop) => push_stop(line, stop),
    }
}
