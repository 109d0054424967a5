// The runner: an image on standard input, one line on standard output (docs/OPERATIONS.md). It reads one byte more than an image may have; so an
// input of any length beyond that is refused with 1.
#![tactic(auto)]

mod lines; // the line of an answer

ghost use Rattle.std.specs.Prelude.{◌≡◌, [], List, ℕ, ◌≤◌, ◌<◌, length};
ghost use Rattle.definition.specs.Runner.{runner_line};
ghost use Rattle.image_input.specs.Read.{ReadOf};

use image_input::read_input;
use line_output::write_line;
use lines::{Line, RESULT, line_of};
use rl_vm::{IMAGE_MOST, least, run};

// How many instructions a run may begin: document 01 says it of the runner.
const BUDGET: usize = 1_000_000;

// The line for an image, in a text that is lent empty.
fn answer_line(image: &[u8], line: &mut Line)
    requires { line.old.bytes ≡ [] }
    ensures { line.new.bytes ≡ runner_line image.now }
{
    let mut result = [0u8; RESULT];
    let mut bytes = [0u8; least::BYTES];
    let mut ends = [0usize; least::ENDS];
    let mut kinds = [0u8; least::KINDS];
    let mut payloads = [0u64; least::PAYLOADS];
    let mut table = [0usize; least::TABLE];
    let mut texts = [0u64; least::TEXTS];
    let mut classes = [0u64; least::CLASSES];
    let mut stack = [0u64; least::STACK];
    let mut locals = [0u64; least::LOCALS];
    let mut starts = [0usize; least::STARTS];
    let mut globals = [0u64; least::GLOBALS];
    let mut cells = [0u64; least::CELLS];
    let mut memo = [0u16; least::MEMO];
    let answer = run(
        image,
        BUDGET,
        &mut result,
        &mut bytes,
        &mut ends,
        &mut kinds,
        &mut payloads,
        &mut table,
        &mut texts,
        &mut classes,
        &mut stack,
        &mut locals,
        &mut starts,
        &mut globals,
        &mut cells,
        &mut memo,
    );
    line_of(answer, &result, line);
}

// The line for the input of which the first n bytes of `read` were read. It is the same for every such input, also for one that is longer than `read`.
// The buffer comes with its count, and not as a slice of what was read: that it is full is what tells an input that may be longer (`ReadOf`).
fn input_line(read: &[u8], n: usize, line: &mut Line)
    requires { (65536 < length read.now) × (n ≤ length read.now) × (line.old.bytes ≡ []) }
    ensures { (input : List ℕ) → ReadOf read.now n input → line.new.bytes ≡ runner_line input }
{
    answer_line(&read[..n], line);
}

// As the checker's `main`: one function of both would be lent `input_line`, with what that asks and ensures as `F.pre` and `F.post`, and be longer.
fn main(rt: HostRuntime) {
    let mut read = [0u8; IMAGE_MOST + 1];
    let mut errors = rt.stderr();
    if let Some(n) = read_input(&mut rt.stdin(), &mut errors, b"runner", &mut read).bytes() {
        let mut line = Line::new();
        input_line(&read, n, &mut line);
        write_line(&mut rt.stdout(), &mut errors, b"runner", line.as_bytes());
    }
}
