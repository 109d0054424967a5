// The stack check of one chunk and of an image (document 01, "The stack check").
#![tactic(auto)]

ghost use Rattle.std.specs.Prelude.{◌≡◌, ℕ, ◌+◌, ◌-◌, ◌^◌, ◌≤◌, ◌<◌, length};
ghost use Rattle.definition.specs.Decode.{fault};
ghost use Rattle.stack_check.specs.Node.{flow_effect, first_of, second_of, Drawn, NodeIs, Here, chunk_in};
ghost use Rattle.stack_check.specs.Flat.{Goes, Changeable, height_after};
ghost use Rattle.stack_check.specs.Progress.{Coming, Tested, Listed};
ghost use Rattle.stack_check.specs.Answer.{reason_number, ChunkIs, ChunkDecided, RowLent, RowDecided, Lent, Decided};

use chunk::{CodeCursor, Flow, Instr, StaticFault};
use clearing::clear;
use image::Loaded;

// Why a chunk does not pass: what `chunk` can see of one instruction, or that no heights exist.
#[derive(Clone, Copy)]
pub enum Reason {
    Instruction,
    Loop,
    Constant,
    NoHeights,
}

impl From<StaticFault> for Reason {
    ghost use Rattle.chunk.specs.Fault.{static_number};
    ghost use Rattle.stack_check.specs.Answer.{reason_number};

    ghost from_gives = { λ f r. reason_number r ≡ static_number f };

    fn from(fault: StaticFault) -> Reason {
        match fault {
            StaticFault::Instruction => Reason::Instruction,
            StaticFault::Loop => Reason::Loop,
            StaticFault::Constant => Reason::Constant,
        }
    }
}

// Document 01's number of a fault.
impl From<Reason> for usize {
    ghost from_gives = { λ reason number. number ≡ reason_number reason };

    fn from(reason: Reason) -> usize {
        match reason {
            Reason::Instruction => 10,
            Reason::Loop => 11,
            Reason::Constant => 12,
            Reason::NoHeights => 13,
        }
    }
}

// Why one chunk does not pass, and at which offset.
#[derive(Clone, Copy)]
pub struct ChunkFault {
    pub reason: Reason,
    pub at: usize,
}

// A chunk for which no heights exist is at fault at offset 0.
const NO_HEIGHTS: ChunkFault = ChunkFault {
    reason: Reason::NoHeights,
    at: 0,
};

// Why an image does not pass, in which chunk and at which offset.
#[derive(Clone, Copy)]
pub struct ImageFault {
    pub reason: Reason,
    pub chunk: usize,
    pub at: usize,
}

// What an instruction's flow asks: `exact` says that the height must be just what is needed, `drops` and `opens` how many scopes are closed and
// opened, `ends` that nothing comes after it.
#[derive(Clone, Copy)]
pub struct FlowEffect {
    pub exact: bool,
    pub drops: usize,
    pub opens: usize,
    pub ends: bool,
}

// What an instruction asks and does, and where control goes after it. `first` and `second` are the same but for JumpIfFalse.
#[derive(Clone, Copy)]
pub struct Node {
    pub need: usize,
    pub change: isize,
    pub exact: bool,
    pub drops: usize,
    pub opens: usize,
    pub ends: bool,
    pub first: usize,
    pub second: usize,
}

// The state of the search: `todo[..head]` are the offsets that were handled, `todo[head..tail]` those that wait; `low` is the lowest fault so
// far, or the code's length; `bad` is set once no heights can exist. Each offset enters `todo` once, when it is first come to.
#[derive(Clone, Copy)]
pub struct Search {
    pub head: usize,
    pub tail: usize,
    pub low: usize,
    pub bad: bool,
}

const GOES_ON: FlowEffect = FlowEffect {
    exact: false,
    drops: 0,
    opens: 0,
    ends: false,
};

fn flow_effect(flow: Flow) -> FlowEffect
    ensures { result ≡ flow_effect flow }
{
    match flow {
        Flow::Opens => FlowEffect {
            opens: 1,
            ..GOES_ON
        },
        Flow::Closes => FlowEffect {
            drops: 1,
            ..GOES_ON
        },
        Flow::Ends => FlowEffect {
            exact: true,
            ends: true,
            ..GOES_ON
        },
        Flow::MayEnd => FlowEffect {
            exact: true,
            ..GOES_ON
        },
        Flow::Straight | Flow::Forward | Flow::Backward | Flow::Forks => GOES_ON,
    }
}

// The target of a jump back; the search comes to no instruction that has none.
fn back(next: CodeCursor, a: usize) -> usize
    ensures { result ≡ next.at - a }
{
    match next.jump_back(a) {
        Some(c) => c.at,
        None => 0,
    }
}

// Where control goes from an instruction whose first operand is `a`: two offsets, the same but for JumpIfFalse.
fn targets(flow: Flow, next: CodeCursor, a: u16) -> (usize, usize)
    requires { next.at < 2 ^ 63 + 65536 }
    ensures { (result.0 ≡ first_of flow next.at a) × (result.1 ≡ second_of flow next.at a) }
{
    let further = next.jump_forward(usize::from(a)).at;
    match flow {
        Flow::Forward => (further, further),
        Flow::Backward => {
            let to = back(next, usize::from(a));
            (to, to)
        }
        Flow::Forks => (next.at, further),
        _ => (next.at, next.at),
    }
}

// What an instruction asks and does.
fn node_of(i: Instr) -> Node
    requires { Drawn i }
    ensures { NodeIs i result }
{
    let row = i.row;
    let t = flow_effect(row.flow);
    let counted = row.per * usize::from(i.a);
    let (first, second) = targets(row.flow, i.next, i.a);
    Node {
        need: row.need + counted,
        change: row.change - counted as isize,
        exact: t.exact,
        drops: t.drops,
        opens: t.opens,
        ends: t.ends,
        first,
        second,
    }
}

// The height after an instruction at height h: that and the change.
fn height_after(node: Node, h: usize) -> usize
    requires { Changeable h node.change }
    ensures { result ≡ height_after node h }
{
    (h as isize + node.change) as usize
}

// Whether an instruction is fit for height h and depth d.
fn meets(node: Node, h: usize, d: usize) -> bool
    ensures { Tested node h d result }
{
    if h < node.need {
        return false;
    }
    if d < node.drops {
        return false;
    }
    if node.exact { h == node.need } else { true }
}

// The code of a chunk and the kinds of its constants: all of it that the check looks at.
#[derive(Clone, Copy)]
pub struct ChunkCode<'a> {
    pub code: &'a [u8],
    pub kinds: &'a [u8],
}

// What the search works with: at each offset that control came to the height and one more, and the depth; and the list of these offsets. Three slices
// side by side, as the C interface lends them; so 0, and no `Option`, says that control has not come yet. They are room for a code as long as `heights`.
#[derive(Drop)]
pub struct Work<'a> {
    pub heights: &'a mut [usize],
    pub depths: &'a mut [usize],
    pub todo: &'a mut [usize],
    ghost long_depths: { length heights.now ≤ length depths.now },
    ghost long_todo: { length heights.now ≤ length todo.now },
}

// Which fault the instruction at `at` has, where it has one. (The last arm is not met.)
fn fault_reason(chunk: ChunkCode, at: usize) -> Reason
    requires { fault (chunk_in chunk) at ≡ 0 → ⊥ }
    ensures { reason_number result ≡ fault (chunk_in chunk.entry) at }
{
    match chunk::inspect(chunk.code, chunk.kinds, at) {
        Err(f) => Reason::from(f),
        Ok(_) => Reason::NoHeights,
    }
}

impl<'a> Work<'a> {
    ghost use Rattle.stack_check.specs.Slices.{SameSlices, AsLong, Searching, VisitedIn, SpreadIn, HandlingIn, Cleared};

    // Control comes to `to` with height h and depth d.
    fn visit(&mut self, chunk: ChunkCode, s: Search, to: usize, h: usize, d: usize) -> Search
        requires { Searching chunk self.old s × Coming (chunk_in chunk) s.tail to h d }
        ensures visited { VisitedIn chunk.entry self.old self.new s result to h d }
        ensures long { AsLong self.old self.new }
        ensures same { SameSlices self.old self.new }
    {
        let broken = Search { bad: true, ..s };
        if chunk.code.len() <= to {
            if h == 0 {
                return s;
            } else {
                return broken;
            }
        }
        if self.heights[to] == 0 {
            self.heights[to] = h + 1;
            self.depths[to] = d;
            self.todo[s.tail] = to;
            return Search {
                tail: s.tail + 1,
                ..s
            };
        }
        if self.heights[to] == h + 1 {
            if self.depths[to] == d {
                return s;
            } else {
                return broken;
            }
        }
        broken
    }

    // Control comes to what comes after an instruction, with height h and depth d.
    fn spread(&mut self, chunk: ChunkCode, s: Search, node: Node, h: usize, d: usize) -> Search
        requires { Searching chunk self.old s × ((t : ℕ) → Goes node t → Coming (chunk_in chunk) s.tail t h d) }
        ensures spread { SpreadIn chunk.entry self.old self.new s result node h d }
        ensures long { AsLong self.old self.new }
        ensures same { SameSlices self.old self.new }
    {
        if node.ends {
            return s;
        }
        let first = node.first;
        let second = node.second;
        let s1 = self.visit(chunk, s, first, h, d);
        self.visit(chunk, s1, second, h, d)
    }

    // Handles the instruction at `at`, which has no fault.
    fn handle(&mut self, chunk: ChunkCode, s: Search, at: usize, i: Instr) -> Search
        requires { Searching chunk self.old s × Listed (chunk_in chunk) self.old.heights.now at × (fault (chunk_in chunk) at ≡ 0) × Here (chunk_in chunk) at i }
        ensures handled { HandlingIn chunk.entry self.old self.new s result at }
        ensures long { AsLong self.old self.new }
        ensures same { SameSlices self.old self.new }
    {
        let node = node_of(i);
        let h = self.heights[at] - 1;
        let d = self.depths[at];
        if !meets(node, h, d) {
            let broken = Search { bad: true, ..s };
            return self.spread(chunk, broken, node, 0, 0);
        }
        let h2 = height_after(node, h);
        let d2 = d - node.drops + node.opens;
        self.spread(chunk, s, node, h2, d2)
    }

    // Handles the next offset that waits.
    fn step(&mut self, chunk: ChunkCode, s: Search) -> Search
        requires { Searching chunk self.old s × (s.head < s.tail) }
        ensures progress { Searching chunk.entry self.new result }
        ensures onward { result.head ≡ s.head + 1 }
        ensures long { AsLong self.old self.new }
        ensures same { SameSlices self.old self.new }
    {
        let head = s.head;
        let at = self.todo[head];
        let low = s.low;
        match chunk::inspect(chunk.code, chunk.kinds, at) {
            Err(_) => {
                if at < low {
                    Search {
                        head: head + 1,
                        low: at,
                        ..s
                    }
                } else {
                    Search {
                        head: head + 1,
                        ..s
                    }
                }
            }
            Ok(i) => {
                let r = self.handle(chunk, s, at, i);
                Search {
                    head: head + 1,
                    ..r
                }
            }
        }
    }

    // Handles one offset after another, until none waits.
    fn search(&mut self, chunk: ChunkCode, begun: Search) -> Search
        requires { Searching chunk self.old begun }
        ensures progress { Searching chunk.entry self.new result }
        ensures ended { result.tail ≤ result.head }
        ensures long { AsLong self.old self.new }
        ensures same { SameSlices self.old self.new }
    {
        let mut s = begun;
        // No `for`: how many offsets will wait is known only when none does.
        while s.head < s.tail {
            s = self.step(chunk, s);
        }
        s
    }

    // The answer for one chunk. The work slices hold what the search left.
    fn judge(&mut self, chunk: ChunkCode) -> Result<(), ChunkFault>
        requires { length chunk.code.now ≤ length self.old.heights.now }
        ensures answer { ChunkIs (chunk_in chunk.entry) result }
        ensures long { AsLong self.old self.new }
        ensures same { SameSlices self.old self.new }
    {
        let n = chunk.code.len();
        if n == 0 {
            return Ok(());
        }
        clear(self.heights);
        self.heights[0] = 1;
        self.depths[0] = 0;
        self.todo[0] = 0;
        let begun = Search {
            head: 0,
            tail: 1,
            low: n,
            bad: false,
        };
        let s = self.search(chunk, begun);
        let low = s.low;
        if low < n {
            let reason = fault_reason(chunk, low);
            return Err(ChunkFault { reason, at: low });
        }
        if s.bad { Err(NO_HEIGHTS) } else { Ok(()) }
    }

    // Back to zero, to the end of each slice.
    fn clear(&mut self)
        ensures cleared { Cleared self.new }
        ensures long { AsLong self.old self.new }
        ensures same { SameSlices self.old self.new }
    {
        clear(self.heights);
        clear(self.depths);
        clear(self.todo);
    }

    // The stack check of one chunk. The work slices are long enough for its code; all of them is 0 afterwards.
    pub fn check_chunk(&mut self, code: &[u8], kinds: &[u8]) -> Result<(), ChunkFault>
        requires { length code.now ≤ length self.old.heights.now }
        ensures answer { ChunkDecided code.now kinds.now result }
        ensures cleared { Cleared self.new }
        ensures long { AsLong self.old self.new }
        ensures same { SameSlices self.old self.new }
    {
        let answer = self.judge(ChunkCode { code, kinds });
        self.clear();
        answer
    }

    // The answer for chunk c of the image.
    fn judge_row(&mut self, image: Loaded, c: usize) -> Result<(), ChunkFault>
        requires { RowLent image c (length self.old.heights.now) }
        ensures answer { RowDecided image.entry c result }
        ensures long { AsLong self.old self.new }
        ensures same { SameSlices self.old self.new }
    {
        let row = 4 * c;
        let code = &image.bytes[image.table[row + 3]..image.table[row + 7]];
        let kinds = &image.kinds[image.table[row + 2]..image.table[row + 6]];
        self.judge(ChunkCode { code, kinds })
    }

    // The answer for the lowest chunk that does not pass, if there is one.
    fn judge_all(&mut self, image: Loaded) -> Result<(), ImageFault>
        requires { Lent image (length self.old.heights.now) }
        ensures answer { Decided image.entry result }
        ensures long { AsLong self.old self.new }
        ensures same { SameSlices self.old self.new }
    {
        for c in 0..image.counts.chunks {
            if let Err(fault) = self.judge_row(image, c) {
                return Err(ImageFault {
                    reason: fault.reason,
                    chunk: c,
                    at: fault.at,
                });
            }
        }
        Ok(())
    }

    // The stack check of an image that `load` left in the slices. The answer is exactly the definition's. The work slices are long enough for the
    // longest code; all of them is 0 afterwards.
    pub fn check_image(&mut self, image: Loaded) -> Result<(), ImageFault>
        requires { Lent image (length self.old.heights.now) }
        ensures answer { Decided image.entry result }
        ensures cleared { Cleared self.new }
        ensures long { AsLong self.old self.new }
        ensures same { SameSlices self.old self.new }
    {
        let answer = self.judge_all(image);
        self.clear();
        answer
    }
}
