// The machine as a static library: the operations under the names by which C and Rust link them (bindings/c/rl_vm.h). Each only calls `rl_vm`.
#![tactic(auto)]

ghost use Rattle.image.specs.Answer.{slices};
ghost use Rattle.load_answers.specs.Zero.{LoadZero};
ghost use Rattle.rl_check.specs.Work.{check_work, CheckZero};
ghost use Rattle.run_answers.specs.Run.{own, OwnZero};
ghost use Rattle.rl_vm.specs.Export.{ChecksAs};
ghost use Rattle.rl_vm.specs.RunExport.{RunsAs};

// `check` for C and Rust: 0 for a pass, else document 01's number, with its line or its chunk and offset in the last three.
#[unsafe(no_mangle)]
pub extern "C" fn rl_vm_check(
    image: &[u8],
    bytes: &mut [u8],
    ends: &mut [usize],
    kinds: &mut [u8],
    payloads: &mut [u64],
    table: &mut [usize],
    heights: &mut [usize],
    depths: &mut [usize],
    todo: &mut [usize],
    line: &mut usize,
    chunk: &mut usize,
    offset: &mut usize,
) -> usize
    ensures answer { ChecksAs image.now (check_work (slices bytes.old ends.old kinds.old payloads.old table.old) heights.old depths.old todo.old) result line.new chunk.new offset.new }
    ensures cleared { CheckZero (check_work (slices bytes.new ends.new kinds.new payloads.new table.new) heights.new depths.new todo.new) }
{
    rl_vm::rl_vm_check(
        image, bytes, ends, kinds, payloads, table, heights, depths, todo, line, chunk, offset,
    )
}

// `run` for C and Rust: 0 for a value, else document 01's number. The last five numbers are the count, the length of the coded value, the line of a refusal,
// and the chunk and offset of a stop.
#[unsafe(no_mangle)]
pub extern "C" fn rl_vm_run(
    image: &[u8],
    budget: usize,
    res: &mut [u8],
    bytes: &mut [u8],
    ends: &mut [usize],
    kinds: &mut [u8],
    payloads: &mut [u64],
    table: &mut [usize],
    texts: &mut [u64],
    classes: &mut [u64],
    stack: &mut [u64],
    locals: &mut [u64],
    starts: &mut [usize],
    globals: &mut [u64],
    cells: &mut [u64],
    memo: &mut [u16],
    count: &mut usize,
    length: &mut usize,
    line: &mut usize,
    chunk: &mut usize,
    offset: &mut usize,
) -> usize
    ensures answer { RunsAs image.now budget (slices bytes.old ends.old kinds.old payloads.old table.old) (own texts.old classes.old stack.old locals.old starts.old globals.old cells.old memo.old) res.old res.new result count.new length.new line.new chunk.new offset.new }
    ensures loading { LoadZero (slices bytes.new ends.new kinds.new payloads.new table.new) }
    ensures cleared { OwnZero (own texts.new classes.new stack.new locals.new starts.new globals.new cells.new memo.new) }
{
    rl_vm::rl_vm_run(
        image, budget, res, bytes, ends, kinds, payloads, table, texts, classes, stack, locals,
        starts, globals, cells, memo, count, length, line, chunk, offset,
    )
}
