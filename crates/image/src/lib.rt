// Load: the bytes of an image, judged and decoded into lent work slices (document 01, "Image lines" and "Load").
// `line_digits` has digits and lines, `image_records` what a line says, `image_store` what a line leaves in the work slices.
#![tactic(auto)]

pub mod least; // the least lengths of the work slices
mod loaded; // a loaded image, to be read

ghost use Rattle.std.specs.Prelude.{◌≡◌, ◌≤◌, ◌<◌, length, is_err};
ghost use Rattle.image.specs.Answer.{slices, blanked, Loads};
ghost use Rattle.image.specs.Reading.{work, Sized, TakesLine, LoadsLines, LoadsSettled};
ghost use Rattle.image_store.specs.Tables.{SameTables};

use clearing::clear;
pub use image_records::Reason;
use image_records::{Part, State, record_of};
pub use image_store::Refusal;
use image_store::{Progress, Tables, finish};
use line_digits::{line_end, read_line};
pub use loaded::Loaded;

// How much of the slices an image fills, or why it is refused.
pub type LoadAnswer = Result<Counts, Refusal>;

// The most bytes that an image may have.
pub const IMAGE_MOST: usize = 65536;

// How much of the work slices a loaded image fills: `bytes`, `ends`, `kinds` and `payloads` up to these counts, `table` up to one row
// of four more than there are chunks.
#[derive(Clone, Copy, Debug, PartialEq, Eq)]
pub struct Counts {
    pub texts: usize,
    pub chunks: usize,
    pub constants: usize,
    pub bytes: usize,
}

// Reads the line that begins at `at`, after k lines.
fn take_line(
    image: &[u8],
    bytes: &mut [u8],
    tables: &mut Tables,
    s: State,
    at: usize,
    k: usize,
) -> Result<Progress, Refusal>
    requires { (at < length image.now) × (length image.now ≤ 65536) × (k ≤ at) × (32768 ≤ length bytes.old) × Sized s at }
    ensures takes { TakesLine image.now s at k (work bytes.old tables.old) result (work bytes.new tables.new) }
    ensures same { SameTables tables.old tables.new }
{
    let end = line_end(image, at);
    if end == image.len() {
        return Err(Refusal::at_line(Reason::BadLine, k + 1));
    }
    let from = s.bytes;
    let Some(line) = read_line(&image[at..end], &mut bytes[from..]) else {
        return Err(Refusal::at_line(Reason::BadLine, k + 1));
    };
    let to = from + line.size;
    let r = match record_of(line.tag, &bytes[from..to], s) {
        Ok(r) => r,
        Err(reason) => return Err(Refusal::at_line(reason, k + 1)),
    };
    let t = tables.accept(s, Ok(r), line.size);
    let next = end + 1;
    finish(Ok(r), t, next, image.len() - next, k + 1)
}

// Reads all lines.
fn load_lines(image: &[u8], bytes: &mut [u8], tables: &mut Tables) -> LoadAnswer
    requires { (length image.now ≤ 65536) × (32768 ≤ length bytes.old) }
    ensures loads { LoadsLines image.now (work bytes.old tables.old) result (work bytes.new tables.new) }
    ensures same { SameTables tables.old tables.new }
{
    let mut s = State {
        part: Part::InTexts,
        texts: 0,
        chunks: 0,
        own: 0,
        code: 0,
        named: 0,
        constants: 0,
        bytes: 0,
        rows: 0,
    };
    let mut at = 0;
    let mut k = 0;
    // No `for`: `at` goes from line to line, and how long a line is only its reading says.
    while at < image.len() {
        match take_line(image, bytes, tables, s, at, k)? {
            Progress::Next { state, at: next } => {
                s = state;
                at = next;
                k += 1;
            }
            Progress::Ready(t) => {
                return Ok(Counts {
                    texts: t.texts,
                    chunks: t.chunks,
                    constants: t.constants,
                    bytes: t.bytes,
                });
            }
        }
    }
    Err(Refusal {
        reason: Reason::NoEnd,
        line: 0,
    })
}

// Zero up to each slice's named length, which is all that reading an image may have written.
fn blank(bytes: &mut [u8], tables: &mut Tables)
    requires { 32768 ≤ length bytes.old }
    ensures zero { work bytes.new tables.new ≡ blanked (work bytes.old tables.old) }
    ensures same { SameTables tables.old tables.new }
{
    clear(&mut bytes[..least::BYTES]);
    clear(&mut tables.ends[..least::ENDS]);
    clear(&mut tables.kinds[..least::KINDS]);
    clear(&mut tables.payloads[..least::PAYLOADS]);
    clear(&mut tables.table[..least::TABLE]);
}

// Whether nothing may stay in the slices. By itself, so that wrong/read_stays_after_4.edit can turn it and nothing else.
fn is_refused(answer: &LoadAnswer) -> bool
    ensures { result ≡ is_err answer.now }
{
    answer.is_err()
}

// An image that is not too long, in slices that are long enough. Of a refused one nothing stays in them.
fn load_roomy(image: &[u8], bytes: &mut [u8], tables: &mut Tables) -> LoadAnswer
    requires { (length image.now ≤ 65536) × (32768 ≤ length bytes.old) }
    ensures settled { LoadsSettled image.now (work bytes.old tables.old) result (work bytes.new tables.new) }
    ensures same { SameTables tables.old tables.new }
{
    let answer = load_lines(image, bytes, tables);
    if is_refused(&answer) {
        blank(bytes, tables);
    }
    answer
}

// Load: the image, judged and decoded into the work slices, or the reason and the line of the refusal. What an image fills of each slice, and
// what the slices hold besides, is said in specs/Answer.antt; how a caller finds a chunk and a text in them, in specs/Held.antt. The slices are five, of any
// length, as the C interface lends them.
pub fn load(
    image: &[u8],
    bytes: &mut [u8],
    ends: &mut [usize],
    kinds: &mut [u8],
    payloads: &mut [u64],
    table: &mut [usize],
) -> LoadAnswer
    ensures { Loads image.now (slices bytes.old ends.old kinds.old payloads.old table.old) result (slices bytes.new ends.new kinds.new payloads.new table.new) }
{
    if bytes.len() < least::BYTES
        || ends.len() < least::ENDS
        || kinds.len() < least::KINDS
        || payloads.len() < least::PAYLOADS
        || table.len() < least::TABLE
    {
        return Err(Refusal {
            reason: Reason::ShortSlice,
            line: 0,
        });
    }
    if IMAGE_MOST < image.len() {
        return Err(Refusal {
            reason: Reason::TooLong,
            line: 0,
        });
    }
    let mut tables = Tables {
        ends,
        kinds,
        payloads,
        table,
    };
    load_roomy(image, bytes, &mut tables)
}
