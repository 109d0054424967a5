// Runs each image of a list on standard input, and compares the answers with those of the list.
//
// A case is the image, byte for byte, and then a line `= BUDGET ROOM ANSWER`: the budget, the length of the result slice, and the runner's line,
// `value COUNT RESULT`, `stop NUMBER COUNT CHUNK OFFSET` or `refused NUMBER LINE`. A line of another form after `=`, and what stands after the last
// answer, are counted as malformed. The list is made by tests/stored, which says where its answers come from.
#![tactic(auto)]

ghost use Rattle.std.specs.Prelude.{◌≡◌, [], ◌≤◌, length};

use arrayvec::ArrayString;
use case_list::{Case, Cases, Tally, Verdict, read_full};
use line_output::push_run;
use rl_vm::{least, run};
use std::io::Result;

// The longest result slice that a case may ask for: the runner's.
const MOST_ROOM: usize = 4096;

// A line of the runner, with its line feed.
type Line = ArrayString<8224>;

// What the line of a case says.
#[derive(Clone, Copy)]
struct Asked<'a> {
    budget: usize,
    room: usize,
    answer: &'a [u8],
}

// The decimal number that the text begins with, and what stands behind the first character that is no digit. The number wraps: none of the list is so
// large.
fn number(text: &[u8]) -> (usize, &[u8]) {
    let mut parts = text.splitn(2, |byte| !byte.is_ascii_digit());
    let digits = parts.next().unwrap_or(b"");
    let value = digits.iter().fold(0usize, |n, digit| {
        n.wrapping_mul(10)
            .wrapping_add(usize::from(digit.wrapping_sub(b'0')))
    });
    (value, parts.next().unwrap_or(b""))
}

fn asked_in(line: &[u8]) -> Option<Asked<'_>> {
    let (budget, rest) = number(line.get(2..)?);
    let (room, answer) = number(rest);
    if answer.is_empty() {
        return None;
    }
    Some(Asked {
        budget,
        room,
        answer,
    })
}

// The runner's line for an image, with this budget and this result slice, in a text that is lent empty: handed back by value, it would be copied. The work slices are lent one by one, as `run` asks for them, in one place.
fn push_line(image: &[u8], budget: usize, res: &mut [u8], line: &mut Line)
    requires { (line.old.bytes ≡ []) × (length res.old ≤ 4096) }
{
    let mut bytes = [0u8; least::BYTES];
    let mut ends = [0usize; least::ENDS];
    let mut kinds = [0u8; least::KINDS];
    let mut payloads = [0u64; least::PAYLOADS];
    let mut table = [0usize; least::TABLE];
    let mut texts = [0u64; least::TEXTS];
    let mut classes = [0u64; least::CLASSES];
    let mut stack = [0u64; least::STACK];
    let mut locals = [0u64; least::LOCALS];
    let mut starts = [0usize; least::STARTS];
    let mut globals = [0u64; least::GLOBALS];
    let mut cells = [0u64; least::CELLS];
    let mut memo = [0u16; least::MEMO];
    let answer = run(
        image,
        budget,
        res,
        &mut bytes,
        &mut ends,
        &mut kinds,
        &mut payloads,
        &mut table,
        &mut texts,
        &mut classes,
        &mut stack,
        &mut locals,
        &mut starts,
        &mut globals,
        &mut cells,
        &mut memo,
    );
    push_run(line, answer, res);
}

// The same with a result slice of `room` bytes; whether it may be so long.
fn runs_within(image: &[u8], budget: usize, room: usize, line: &mut Line) -> bool
    requires { line.old.bytes ≡ [] }
{
    let mut result = [0u8; MOST_ROOM];
    if room <= result.len() {
        push_line(image, budget, &mut result[..room], line);
        return true;
    }
    false
}

// What a case comes to: the line that is answered, without its line feed, beside the list's.
fn verdict_on(case: Case<'_>) -> Verdict {
    let Some(asked) = asked_in(case.answer) else {
        return Verdict::Malformed;
    };
    let mut line = Line::new();
    if !runs_within(case.image, asked.budget, asked.room, &mut line) {
        return Verdict::Malformed;
    }
    if line.as_bytes().strip_suffix(b"\n") == Some(asked.answer) {
        Verdict::Agrees
    } else {
        Verdict::Differs
    }
}

// All cases of the list; what stands after the last answer is one malformed case.
fn replay(rt: &impl Print, list: &[u8]) -> Result<Tally> {
    let mut tally = Tally::default();
    for case in (Cases { list, marks: b"=" }) {
        let verdict = verdict_on(case);
        tally = tally.with(verdict);
        if verdict == Verdict::Differs {
            let number = tally.cases;
            println!(rt; "differs: case {number}")?;
        }
    }
    Ok(tally)
}

// A read or a write that fails ends the run with its error.
fn main(rt: HostRuntime) -> Result<()> {
    let mut room = [0u8; 524288];
    let list = read_full(&mut rt.stdin(), &mut room)?;
    let tally = replay(&rt, list)?;
    print!(rt; "{tally}")
}
