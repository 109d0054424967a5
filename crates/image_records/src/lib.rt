// Records: what the fields of a line say after what was read before it, or the fault 3, 4 or 5.
// These functions are for `image` alone. What they require, its loop over the lines keeps.
#![tactic(auto)]

ghost use Rattle.std.specs.Prelude.{◌≡◌, true, ◌&&◌, ◌||◌, List, ℕ, ◌≤◌, length, get_or, drop, ltb, leb, eqb, IfSome};
ghost use Rattle.definition.specs.Lines.{judged, constant, number_from, printable, takes_text, text_of, chunk_of, scalar, allowed, takes_constant, constant_ruled, constant_of, takes_code, code_of, end_of, record_of};
ghost use Rattle.kinds.specs.Codes as codes;
ghost use Rattle.image_records.specs.Records.{number_of, part_of, seen_of, said, says, width_in};

use kinds::Kind;

// Why an image is refused.
#[derive(Clone, Copy, Debug, PartialEq, Eq)]
pub enum Reason {
    TooLong,
    BadLine,
    OutOfOrder,
    BadField,
    TooMany,
    NoEnd,
    NoSuchChunk,
    ShortSlice,
}

// Document 01's number of a refusal.
impl From<Reason> for usize {
    ghost from_gives = { λ reason number. number ≡ number_of reason };

    fn from(reason: Reason) -> usize {
        match reason {
            Reason::TooLong => 1,
            Reason::BadLine => 2,
            Reason::OutOfOrder => 3,
            Reason::BadField => 4,
            Reason::TooMany => 5,
            Reason::NoEnd => 6,
            Reason::NoSuchChunk => 7,
            Reason::ShortSlice => 9,
        }
    }
}

// Where a line stands: among the texts; in a chunk before its code; in its code; after a code line of fewer than 64 bytes.
#[derive(Clone, Copy, Debug, PartialEq, Eq)]
pub enum Part {
    InTexts,
    InConstants,
    InCode,
    AfterShort,
}

// What was read so far. `own` and `code` count the constants and the code bytes of the open chunk; `named` is the highest
// chunk number that a Function names; `constants`, `bytes` and `rows` say how much the work slices hold.
#[derive(Clone, Copy, Debug, PartialEq, Eq)]
pub struct State {
    pub part: Part,
    pub texts: usize,
    pub chunks: usize,
    pub own: usize,
    pub code: usize,
    pub named: u64,
    pub constants: usize,
    pub bytes: usize,
    pub rows: usize,
}

// What a line says. The kind of a constant is a number, and no `Kind`: whoever notes a record takes any.
#[derive(Clone, Copy, Debug, PartialEq, Eq)]
pub enum Record {
    Text,
    Opens { arity: usize, name: usize },
    Constant { kind: u8, payload: u64 },
    Code,
    Ends,
}

// Bytes as one number, high byte first.
fn number(b: &[u8]) -> u64
    requires { length b.now ≤ 8 }
    ensures { result ≡ number_from 0 b.now }
{
    let mut v = 0;
    for x in b {
        v = v * 256 + u64::from(*x);
    }
    v
}

fn takes_text(p: Part) -> bool
    ensures { result ≡ takes_text (part_of p) }
{
    p == Part::InTexts
}

fn takes_constant(p: Part) -> bool
    ensures { result ≡ takes_constant (part_of p) }
{
    p == Part::InConstants
}

fn takes_code(p: Part) -> bool
    ensures { result ≡ takes_code (part_of p) }
{
    matches!(p, Part::InConstants | Part::InCode)
}

fn is_printable(x: u8) -> bool
    ensures { result ≡ (leb 32 x && leb x 126) }
{
    matches!(x, b' '..=b'~')
}

fn plain(b: &[u8]) -> bool
    ensures { result ≡ printable b.now }
{
    let mut fine = true;
    for x in b {
        fine &= is_printable(*x); // with no way out before the end, so that several bytes are judged at once
    }
    fine
}

// A line's faults, the lowest number first: out of order, a rule broken, one too many; else it says r.
fn judge(in_order: bool, ruled: bool, room: bool, r: Record) -> Result<Record, Reason>
    ensures { (b : List ℕ) → says result b ≡ judged in_order ruled room (said r b) }
{
    if !in_order {
        return Err(Reason::OutOfOrder);
    }
    if !ruled {
        return Err(Reason::BadField); // a rule broken
    }
    if !room {
        return Err(Reason::TooMany);
    }
    Ok(r)
}

#[tactic(auto, unfolding(definition::specs::Lines::text_of))]
fn text_record(b: &[u8], s: State) -> Result<Record, Reason>
    ensures { says result b.now ≡ text_of (seen_of s) b.now }
{
    judge(takes_text(s.part), plain(b), s.texts < 256, Record::Text)
}

// Whether a chunk's name is a text, and its arity fits: the top, the first chunk, has arity 0.
fn chunk_fits(texts: usize, chunks: usize, arity: usize, name: usize) -> bool
    ensures { result ≡ (ltb name texts && (ltb 0 chunks || eqb arity 0)) }
{
    name < texts && (0 < chunks || arity == 0)
}

#[tactic(auto, unfolding(definition::specs::Lines::chunk_of))]
fn chunk_record(b: &[u8], s: State) -> Result<Record, Reason>
    ensures { says result b.now ≡ chunk_of (seen_of s) b.now }
{
    if b.len() != 3 {
        return Err(Reason::BadField);
    }
    let arity = usize::from(b[0]);
    let name = number(&b[1..]) as usize;
    let ruled = chunk_fits(s.texts, s.chunks, arity, name);
    judge(true, ruled, s.chunks < 64, Record::Opens { arity, name })
}

// How many bytes a constant's payload has, by its kind; none of a kind that no constant has.
#[tactic(auto, unfolding(definition::specs::Lines::listed, definition::specs::Lines::width_of, definition::specs::Lines::widths))]
fn width_of(kind: Kind) -> Option<usize>
    ensures says { result ≡ width_in kind }
    ensures small { IfSome result (λ n. n ≤ 8) }
{
    match kind {
        Kind::Null => Some(0),
        Kind::Bool | Kind::Byte | Kind::SByte => Some(1),
        Kind::Str | Kind::BByte | Kind::BSByte | Kind::Function => Some(2),
        Kind::SInt | Kind::SUInt | Kind::SFloat | Kind::Char => Some(4),
        Kind::Int | Kind::UInt | Kind::Float => Some(8),
        Kind::Arr | Kind::Tuple | Kind::Ok | Kind::Error | Kind::Err | Kind::Closure => None,
    }
}

#[tactic(auto, unfolding(definition::specs::Lines::scalar))]
fn is_scalar(v: u64) -> bool
    ensures { result ≡ scalar v }
{
    matches!(v, 0..=0xd7ff | 0xe000..=0x10_ffff)
}

// Whether a payload keeps its kind's rule.
#[tactic(auto, unfolding(definition::specs::Lines::allowed))]
fn is_allowed(texts: usize, chunks: usize, kind: Kind, v: u64) -> bool
    ensures { result ≡ allowed texts chunks (codes.code_of kind) v }
{
    match kind {
        Kind::Bool => v < 2,
        Kind::Str => v < texts as u64,
        Kind::Char => is_scalar(v),
        Kind::Function => chunks as u64 <= v,
        _ => true,
    }
}

// A constant's line that stands in order.
fn constant_fields(b: &[u8], s: State) -> Result<Record, Reason>
    ensures { says result b.now ≡ judged true (constant_ruled (seen_of s) b.now) (ltb s.own 256) (constant (get_or b.now 0 0) (number_from 0 (drop 1 b.now))) }
{
    if b.is_empty() {
        return Err(Reason::BadField);
    }
    let Ok(kind) = Kind::try_from(u64::from(b[0])) else {
        return Err(Reason::BadField);
    };
    if width_of(kind) != Some(b.len() - 1) {
        return Err(Reason::BadField);
    }
    let payload = number(&b[1..]);
    let ruled = is_allowed(s.texts, s.chunks, kind, payload);
    judge(
        true,
        ruled,
        s.own < 256,
        Record::Constant {
            kind: b[0],
            payload,
        },
    )
}

#[tactic(auto, unfolding(definition::specs::Lines::constant_of))]
fn constant_record(b: &[u8], s: State) -> Result<Record, Reason>
    ensures { says result b.now ≡ constant_of (seen_of s) b.now }
{
    if takes_constant(s.part) {
        constant_fields(b, s)
    } else {
        Err(Reason::OutOfOrder)
    }
}

// 1 to 64 bytes of code stand on a line.
fn is_code_size(n: usize) -> bool
    ensures { result ≡ (leb 1 n && leb n 64) }
{
    matches!(n, 1..=64)
}

#[tactic(auto, unfolding(definition::specs::Lines::code_of, definition::specs::Lines::code_line))]
fn code_record(b: &[u8], s: State) -> Result<Record, Reason>
    requires { s.code ≤ 4096 }
    ensures { says result b.now ≡ code_of (seen_of s) b.now }
{
    let n = b.len();
    judge(
        takes_code(s.part),
        is_code_size(n),
        s.code + n <= 4096,
        Record::Code,
    )
}

#[tactic(auto, unfolding(definition::specs::Lines::end_of))]
fn end_record(b: &[u8], s: State) -> Result<Record, Reason>
    ensures { says result b.now ≡ end_of (seen_of s) b.now }
{
    let in_order = 0 < s.chunks;
    judge(in_order, b.is_empty(), true, Record::Ends)
}

// What a line is, by its first byte.
#[derive(Clone, Copy)]
enum Tag {
    Text,
    Chunk,
    Constant,
    Code,
    End,
}

impl TryFrom<u8> for Tag {
    type Error = Reason;

    ghost use Rattle.image_records.specs.Tags.{TagOf};

    ghost try_from_gives = { TagOf };

    fn try_from(first: u8) -> Result<Self, Reason> {
        match first {
            1 => Ok(Tag::Text),
            2 => Ok(Tag::Chunk),
            3 => Ok(Tag::Constant),
            4 => Ok(Tag::Code),
            5 => Ok(Tag::End),
            _ => Err(Reason::OutOfOrder),
        }
    }
}

// What a line with first byte `tag` and fields `b` says after what was read before it, or its fault.
#[tactic(auto, unfolding(definition::specs::Lines::record_of))]
pub fn record_of(tag: u8, b: &[u8], s: State) -> Result<Record, Reason>
    requires { s.code ≤ 4096 }
    ensures { says result b.now ≡ record_of (seen_of s) tag b.now }
{
    match Tag::try_from(tag)? {
        Tag::Text => text_record(b, s),
        Tag::Chunk => chunk_record(b, s),
        Tag::Constant => constant_record(b, s),
        Tag::Code => code_record(b, s),
        Tag::End => end_record(b, s),
    }
}
