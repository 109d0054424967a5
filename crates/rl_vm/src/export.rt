// The operations for C and Rust: numbers and slices, of which each is a pointer and length (bindings/c/rl_vm.h). They ask no more of a caller than
// such slices always do: that each points to as many elements as its length says, and that none overlaps another.
ghost use Rattle.image.specs.Answer.{slices};
ghost use Rattle.rl_check.specs.Work.{check_work, CheckZero};
ghost use Rattle.rl_vm.specs.Export.{ChecksAs};

use rl_check::{CheckNumbers, check};

// `check`: 0 for a pass, else document 01's number, with its line or its chunk and offset in the last three.
pub fn rl_vm_check(
    image: &[u8],
    bytes: &mut [u8],
    ends: &mut [usize],
    kinds: &mut [u8],
    payloads: &mut [u64],
    table: &mut [usize],
    heights: &mut [usize],
    depths: &mut [usize],
    todo: &mut [usize],
    line: &mut usize,
    chunk: &mut usize,
    offset: &mut usize,
) -> usize
    ensures answer { ChecksAs image.now (check_work (slices bytes.old ends.old kinds.old payloads.old table.old) heights.old depths.old todo.old) result line.new chunk.new offset.new }
    ensures cleared { CheckZero (check_work (slices bytes.new ends.new kinds.new payloads.new table.new) heights.new depths.new todo.new) }
{
    let answer = check(
        image, bytes, ends, kinds, payloads, table, heights, depths, todo,
    );
    let numbers = CheckNumbers::from(answer);
    *line = numbers.line;
    *chunk = numbers.chunk;
    *offset = numbers.offset;
    numbers.number
}
