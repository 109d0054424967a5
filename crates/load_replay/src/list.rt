// Which lines of the list belong to an image. What these functions require, their callers in this program keep; no other crate can reach them.
ghost use Rattle.std.specs.Prelude.{◌≡◌, Some, ℕ, ◌≤◌, nat_lt};
ghost use Rattle.case_list.specs.Cases.{is_mark};
ghost use Rattle.load_replay.specs.Marks.{number_of, mark_of, end_of};

use case_list::Cases;

// The mark of an answer's line: one to an image that ends in a line feed, or one to an image that does not.
#[derive(Clone, Copy, Debug, PartialEq, Eq)]
pub enum Mark {
    Equals,
    Tilde,
}

// Where an image ends whose answer's line, with this mark, begins at `at`.
pub fn image_end(mark: Mark, from: usize, at: usize) -> usize
    requires { from ≤ at }
    ensures within { (from ≤ result) × (result ≤ at) }
    ensures value { result ≡ end_of (number_of (Some mark)) from at }
{
    match mark {
        Mark::Tilde if from < at => at - 1,
        _ => at,
    }
}

// The mark of a line by its first byte; none of a line of the image.
pub fn answer_mark(first: u8) -> Option<Mark>
    ensures { number_of result ≡ mark_of first }
{
    match first {
        b'=' => Some(Mark::Equals),
        b'~' => Some(Mark::Tilde),
        _ => None,
    }
}

// The cases of a list. The line of an answer is one that has a mark.
pub fn cases_of(list: &[u8]) -> Cases<'_>
    ensures list { result.list.now ≡ list.now }
    ensures marks { (first : ℕ) → is_mark result.marks.now first ≡ nat_lt 0 (mark_of first) }
{
    Cases { list, marks: b"=~" }
}
