// `run` for C and Rust, in the way of `rl_vm_check`.
ghost use Rattle.image.specs.Answer.{slices};
ghost use Rattle.load_answers.specs.Zero.{LoadZero};
ghost use Rattle.run_answers.specs.Run.{own, OwnZero};
ghost use Rattle.rl_vm.specs.RunExport.{RunsAs};

use rl_run::run;
use run_answers::RunNumbers;

// `run`: 0 for a value, else document 01's number. The last five numbers are the count, the length of the coded value, the line of a refusal, and
// the chunk and offset of a stop.
pub fn rl_vm_run(
    image: &[u8],
    budget: usize,
    res: &mut [u8],
    bytes: &mut [u8],
    ends: &mut [usize],
    kinds: &mut [u8],
    payloads: &mut [u64],
    table: &mut [usize],
    texts: &mut [u64],
    classes: &mut [u64],
    stack: &mut [u64],
    locals: &mut [u64],
    starts: &mut [usize],
    globals: &mut [u64],
    cells: &mut [u64],
    memo: &mut [u16],
    count: &mut usize,
    length: &mut usize,
    line: &mut usize,
    chunk: &mut usize,
    offset: &mut usize,
) -> usize
    ensures answer { RunsAs image.now budget (slices bytes.old ends.old kinds.old payloads.old table.old) (own texts.old classes.old stack.old locals.old starts.old globals.old cells.old memo.old) res.old res.new result count.new length.new line.new chunk.new offset.new }
    ensures loading { LoadZero (slices bytes.new ends.new kinds.new payloads.new table.new) }
    ensures cleared { OwnZero (own texts.new classes.new stack.new locals.new starts.new globals.new cells.new memo.new) }
{
    let answer = run(
        image, budget, res, bytes, ends, kinds, payloads, table, texts, classes, stack, locals,
        starts, globals, cells, memo,
    );
    let numbers = RunNumbers::from(answer);
    *count = numbers.count;
    *length = numbers.length;
    *line = numbers.line;
    *chunk = numbers.chunk;
    *offset = numbers.offset;
    numbers.number
}
