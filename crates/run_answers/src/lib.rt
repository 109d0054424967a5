// What a run answers, and what it leaves in memory (specs/Run.antt): its end coded into the result slice, the numbers of its answers, and its own work
// memory judged and cleared.
#![tactic(auto)]

pub mod least; // the least lengths of its own work slices
mod run_numbers; // document 01's numbers of the answers

ghost use Rattle.std.specs.Prelude.{◌≡◌};
ghost use Rattle.vm_logic.specs.Endings.{EndHeld};
ghost use Rattle.run_answers.specs.Run.{own, any_short, OwnZero, Ended};

use clearing::clear;
pub use run_numbers::{RunNumbers, stop_number};
use value_coding::code_value;
use vm_acts::{StopReason, Stopped};
use vm_logic::RunValue;

// What `run` answers: a refusal with its line; a value, with the count of instructions begun and the length of its coding; or a stop with its
// place. specs/Run.antt, `answer_of`, gives document 01's number of each. No Result: each caller goes three ways, and would match twice.
#[derive(Clone, Copy)]
pub enum RunAnswer {
    Refused(image::Reason, usize),
    Value { count: usize, length: usize },
    Stop(Stopped),
}

// Whether one of the run's own slices is shorter than docs/OPERATIONS.md says, by their lengths.
#[tactic(auto, unfolding(crate::specs::Run::any_short))]
pub fn any_short(
    texts: usize,
    classes: usize,
    stack: usize,
    locals: usize,
    starts: usize,
    globals: usize,
    cells: usize,
    memo: usize,
) -> bool
    ensures { result ≡ any_short texts classes stack locals starts globals cells memo }
{
    texts < least::TEXTS
        || classes < least::CLASSES
        || stack < least::STACK
        || locals < least::LOCALS
        || starts < least::STARTS
        || globals < least::GLOBALS
        || cells < least::CELLS
        || memo < least::MEMO
}

// What the run was lent besides the slices of `load`.
pub fn clear_run(
    texts: &mut [u64],
    classes: &mut [u64],
    stack: &mut [u64],
    locals: &mut [u64],
    starts: &mut [usize],
    globals: &mut [u64],
    cells: &mut [u64],
    memo: &mut [u16],
)
    ensures { OwnZero (own texts.new classes.new stack.new locals.new starts.new globals.new cells.new memo.new) }
{
    clear(texts);
    clear(classes);
    clear(stack);
    clear(locals);
    clear(starts);
    clear(globals);
    clear(cells);
    clear(memo);
}

// What a run that ended answers: its value coded into the result slice, if it fits there, or its stop.
pub fn code_end(end: Result<RunValue, Stopped>, cells: &[u64], res: &mut [u8]) -> RunAnswer
    requires { EndHeld end cells.now }
    ensures { Ended end cells.now res.old res.new result }
{
    match end {
        Ok(
            RunValue {
                value,
                cells: taken,
                count,
            },
        ) => match code_value(cells, taken, value, res) {
            Some(length) => RunAnswer::Value { count, length },
            None => RunAnswer::Stop(Stopped {
                reason: StopReason::ResultTooLong,
                count,
                chunk: 0,
                offset: 0,
            }),
        },
        Err(stop) => RunAnswer::Stop(stop),
    }
}
