// What a line's record leaves in the work slices, and what comes after it.
// These functions are for `image` alone. What they require, its loop over the lines keeps.
#![tactic(auto)]

ghost use Rattle.std.specs.Prelude.{◌≡◌, [], ◌∷◌, ◌++◌, ◌+◌, ◌≤◌, length, take, drop};
ghost use Rattle.image_store.specs.Stored.{refusal_of, named_by, part_after, after_text, after_chunk, after_constant, after_code, after_end, CanAccept, Accepted, finish_of};

use image_records::{Part, Reason, Record, State};
use kinds::Kind;

// What a line leads to that is not at fault: the next line, or a loaded image.
#[derive(Clone, Copy, Debug, PartialEq, Eq)]
pub enum Progress {
    Next { state: State, at: usize },
    Ready(State),
}

// Why an image is refused, with the line from 1; 0 where no line is at fault.
#[derive(Clone, Copy, Debug, PartialEq, Eq)]
pub struct Refusal {
    pub reason: Reason,
    pub line: usize,
}

impl Refusal {
    pub fn at_line(reason: Reason, line: usize) -> Refusal
        ensures { result ≡ refusal_of reason line }
    {
        Refusal { reason, line }
    }
}

// A row of the table: four numbers at `at`.
fn put_row(table: &mut [usize], at: usize, row: [usize; 4])
    requires { (at + 4 ≤ length table.old) × (at ≤ 256) }
    ensures written { take (at + 4) table.new ≡ take at table.old ++ row }
    ensures behind { drop (at + 4) table.new ≡ drop (at + 4) table.old }
{
    table[at..at + 4].copy_from_slice(&row);
}

// The highest chunk number that a Function names, with one constant more.
fn higher(named: u64, kind: u8, v: u64) -> u64
    ensures { result ≡ named_by named kind v }
{
    if kind == u8::from(Kind::Function) && named < v {
        v
    } else {
        named
    }
}

// After a code line of fewer than 64 bytes no other may come.
fn part_after(n: usize) -> Part
    ensures { result ≡ part_after n }
{
    if n == 64 {
        Part::InCode
    } else {
        Part::AfterShort
    }
}

fn after_text(s: State, n: usize) -> State
    requires { (s.texts ≤ 256) × (s.bytes + n ≤ 32768) }
    ensures { result ≡ after_text s n }
{
    State {
        part: Part::InTexts,
        texts: s.texts + 1,
        bytes: s.bytes + n,
        ..s
    }
}

fn after_chunk(s: State) -> State
    requires { (s.chunks ≤ 64) × (s.rows ≤ 64) }
    ensures { result ≡ after_chunk s }
{
    State {
        part: Part::InConstants,
        chunks: s.chunks + 1,
        own: 0,
        code: 0,
        rows: s.rows + 1,
        ..s
    }
}

fn after_constant(s: State, kind: u8, v: u64) -> State
    requires { (s.own ≤ 256) × (s.constants ≤ 13107) }
    ensures { result ≡ after_constant s kind v }
{
    State {
        part: Part::InConstants,
        own: s.own + 1,
        named: higher(s.named, kind, v),
        constants: s.constants + 1,
        ..s
    }
}

// `code` is the number that the chunk's next code line is judged by: what its code lines so far have, and this line's bytes.
fn after_code(s: State, n: usize) -> State
    requires { (s.code ≤ 4096) × (s.bytes + n ≤ 32768) }
    ensures { result ≡ after_code s n }
{
    State {
        part: part_after(n),
        code: s.code + n,
        bytes: s.bytes + n,
        ..s
    }
}

fn after_end(s: State) -> State
    requires { s.rows ≤ 64 }
    ensures { result ≡ after_end s }
{
    State {
        rows: s.rows + 1,
        ..s
    }
}

// The tables that records go to: where each text ends, the kind and the payload of each constant, and a row of four numbers for each chunk. There is
// room in them for any image. Slices side by side, as the C interface lends them.
#[derive(Drop)]
pub struct Tables<'a> {
    pub ends: &'a mut [usize],
    pub kinds: &'a mut [u8],
    pub payloads: &'a mut [u64],
    pub table: &'a mut [usize],
    ghost room_ends: { 256 ≤ length ends.now },
    ghost room_kinds: { 13107 ≤ length kinds.now },
    ghost room_payloads: { 13107 ≤ length payloads.now },
    ghost room_table: { 260 ≤ length table.now },
}

impl<'a> Tables<'a> {
    ghost use Rattle.image_store.specs.Tables.{SameTables};

    // Notes what a line with n bytes of fields says, nothing of one at fault; the fields of a text and of code are in their place already.
    pub fn accept(&mut self, s: State, r: Result<Record, Reason>, n: usize) -> State
        requires { CanAccept s r n }
        ensures accepted { Accepted s r n self.old.ends.now self.old.kinds.now self.old.payloads.now self.old.table.now result self.new.ends.now self.new.kinds.now self.new.payloads.now self.new.table.now }
        ensures same { SameTables self.old self.new }
    {
        match r {
            Ok(Record::Text) => {
                self.ends[s.texts] = s.bytes + n;
                after_text(s, n)
            }
            Ok(Record::Opens { arity, name }) => {
                put_row(self.table, 4 * s.rows, [arity, name, s.constants, s.bytes]);
                after_chunk(s)
            }
            Ok(Record::Constant { kind, payload }) => {
                self.kinds[s.constants] = kind;
                self.payloads[s.constants] = payload;
                after_constant(s, kind, payload)
            }
            Ok(Record::Code) => after_code(s, n),
            Ok(Record::Ends) => {
                put_row(self.table, 4 * s.rows, [0, 0, s.constants, s.bytes]);
                after_end(s)
            }
            Err(_) => s,
        }
    }
}

// What comes after a line k that says r.
pub fn finish(
    r: Result<Record, Reason>,
    s: State,
    next: usize,
    left: usize,
    k: usize,
) -> Result<Progress, Refusal>
    ensures { result ≡ finish_of r s next left k }
{
    match r {
        Ok(Record::Text | Record::Opens { .. } | Record::Constant { .. } | Record::Code) => {
            Ok(Progress::Next { state: s, at: next })
        }
        Ok(Record::Ends) if left != 0 => Err(Refusal {
            reason: Reason::NoEnd,
            line: 0,
        }),
        Ok(Record::Ends) if s.named < s.chunks as u64 => Ok(Progress::Ready(s)),
        Ok(Record::Ends) => Err(Refusal {
            reason: Reason::NoSuchChunk,
            line: 0,
        }),
        Err(reason) => Err(Refusal { reason, line: k }),
    }
}
