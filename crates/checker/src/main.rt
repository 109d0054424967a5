// The checker: an image on standard input, one line on standard output. `pass`, `fault NUMBER CHUNK OFFSET` or `refused NUMBER LINE`
// (docs/OPERATIONS.md). It reads one byte more than an image may have; so an input of any length beyond that is refused with 1.
#![tactic(auto)]

mod lines; // the line of an answer

ghost use Rattle.std.specs.Prelude.{List, ℕ, ◌≤◌, ◌<◌, length};
ghost use Rattle.image_input.specs.Read.{ReadOf};
ghost use Rattle.checker.specs.Line.{Says};

use image_input::read_input;
use line_output::write_line;
use lines::{Line, line_of};
use rl_vm::{IMAGE_MOST, check, least};

// The line for an image.
fn answer_line(image: &[u8]) -> Line
    ensures { Says image.now result.bytes }
{
    let mut bytes = [0u8; least::BYTES];
    let mut ends = [0usize; least::ENDS];
    let mut kinds = [0u8; least::KINDS];
    let mut payloads = [0u64; least::PAYLOADS];
    let mut table = [0usize; least::TABLE];
    let mut heights = [0usize; least::HEIGHTS];
    let mut depths = [0usize; least::DEPTHS];
    let mut todo = [0usize; least::TODO];
    line_of(check(
        image,
        &mut bytes,
        &mut ends,
        &mut kinds,
        &mut payloads,
        &mut table,
        &mut heights,
        &mut depths,
        &mut todo,
    ))
}

// The line for the input of which the first n bytes of `read` were read. It is the same for every such input, also for one that is longer than `read`.
// The buffer comes with its count, and not as a slice of what was read: that it is full is what tells an input that may be longer (`ReadOf`).
fn input_line(read: &[u8], n: usize) -> Line
    requires { (65536 < length read.now) × (n ≤ length read.now) }
    ensures { (input : List ℕ) → ReadOf read.now n input → Says input result.bytes }
{
    answer_line(&read[..n])
}

// As the runner's `main`: one function of both would be lent `input_line`, with what that asks and ensures as `F.pre` and `F.post`, and be longer.
fn main(rt: HostRuntime) {
    let mut read = [0u8; IMAGE_MOST + 1];
    let mut errors = rt.stderr();
    if let Some(n) = read_input(&mut rt.stdin(), &mut errors, b"checker", &mut read).bytes() {
        let line = input_line(&read, n);
        write_line(&mut rt.stdout(), &mut errors, b"checker", line.as_bytes());
    }
}
