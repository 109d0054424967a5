// A loaded image as it lies in the work slices.
ghost use Rattle.std.specs.Prelude.{◌*◌, ◌≤◌, length};

use crate::Counts;

// An image that `load` left in the slices, to be read. specs/Held.antt says how its chunks and texts lie there. Five slices, as the C interface lends
// them: a constant is a kind and a payload, and four numbers of `table` are a chunk's row.
#[derive(Clone, Copy)]
pub struct Loaded<'a> {
    pub bytes: &'a [u8],
    pub ends: &'a [usize],
    pub kinds: &'a [u8],
    pub payloads: &'a [u64],
    pub table: &'a [usize],
    pub counts: Counts,
    ghost rows: { 4 * counts.chunks ≤ length table.now },
}
