// Check: loads the image, judges it by the stack check, and clears all work memory.
#![tactic(auto)]

pub mod least; // the least lengths of its own work slices
mod numbers_of; // document 01's numbers of the answers

ghost use Rattle.std.specs.Prelude.{◌≡◌, false, ◌≤◌, length};
ghost use Rattle.image.specs.Answer.{slices};
ghost use Rattle.rl_check.specs.Work.{is_short, check_work, CheckZero};
ghost use Rattle.rl_check.specs.Check.{Checks, Ready, Judges};

use clearing::clear;
use image::{Loaded, load};
use load_answers::clear_load;
pub use numbers_of::{CheckNumbers, fault_number};
use stack_check::Work;

// What `check` answers: a refusal with its line, a pass, or the fault with chunk and offset. specs/Check.antt, `answer_of`, gives document 01's
// number of each. No Result: each caller goes three ways, and would match twice.
#[derive(Clone, Copy)]
pub enum CheckAnswer {
    Refused(image::Reason, usize),
    Pass,
    Fault(stack_check::Reason, usize, usize),
}

// Whether one of the three slices of the stack check is shorter than docs/OPERATIONS.md says, by their lengths.
fn is_short(heights: usize, depths: usize, todo: usize) -> bool
    ensures says { result ≡ is_short heights depths todo }
    ensures long { result ≡ false → (4096 ≤ heights) × (4096 ≤ depths) × (4096 ≤ todo) }
{
    heights < least::HEIGHTS || depths < least::DEPTHS || todo < least::TODO
}

// The stack check of an image that `load` left in the slices.
fn check_loaded(image: Loaded, work: &mut Work) -> CheckAnswer
    requires { Ready image (length work.old.heights.now) }
    ensures { Judges image.entry result }
{
    match work.check_image(image) {
        Ok(()) => CheckAnswer::Pass,
        Err(fault) => CheckAnswer::Fault(fault.reason, fault.chunk, fault.at),
    }
}

// The answer of `check`, where there is room for the stack check. The work slices hold what the work left.
fn judge(
    image: &[u8],
    bytes: &mut [u8],
    ends: &mut [usize],
    kinds: &mut [u8],
    payloads: &mut [u64],
    table: &mut [usize],
    work: &mut Work,
) -> CheckAnswer
    requires { 4096 ≤ length work.old.heights.now }
    ensures { Checks image.now (check_work (slices bytes.old ends.old kinds.old payloads.old table.old) work.old.heights.now work.old.depths.now work.old.todo.now) result }
{
    match load(image, bytes, ends, kinds, payloads, table) {
        Ok(counts) => check_loaded(
            Loaded {
                bytes,
                ends,
                kinds,
                payloads,
                table,
                counts,
            },
            work,
        ),
        Err(refusal) => CheckAnswer::Refused(refusal.reason, refusal.line),
    }
}

// Check: loads the image and judges it by the stack check. For any bytes, and whatever the slices held before: 9 exactly if a slice is shorter than
// its length (docs/OPERATIONS.md); otherwise exactly the answer of document 01's rules. A pass promises that no run of the image costs a caller
// anything. Every slice is zero to its end afterwards. The slices are eight, of any length, as the C interface lends them.
pub fn check(
    image: &[u8],
    bytes: &mut [u8],
    ends: &mut [usize],
    kinds: &mut [u8],
    payloads: &mut [u64],
    table: &mut [usize],
    heights: &mut [usize],
    depths: &mut [usize],
    todo: &mut [usize],
) -> CheckAnswer
    ensures answer { Checks image.now (check_work (slices bytes.old ends.old kinds.old payloads.old table.old) heights.old depths.old todo.old) result }
    ensures cleared { CheckZero (check_work (slices bytes.new ends.new kinds.new payloads.new table.new) heights.new depths.new todo.new) }
{
    let answer = if is_short(heights.len(), depths.len(), todo.len()) {
        CheckAnswer::Refused(image::Reason::ShortSlice, 0)
    } else {
        // No more of the three than the longest code asks for.
        let mut work = Work {
            heights: &mut heights[..least::HEIGHTS],
            depths: &mut depths[..least::DEPTHS],
            todo: &mut todo[..least::TODO],
        };
        judge(image, bytes, ends, kinds, payloads, table, &mut work)
    };
    clear_load(bytes, ends, kinds, payloads, table);
    clear(heights);
    clear(depths);
    clear(todo);
    answer
}
