// What both operations share around `load`: document 01's number of each refusal, and the memory that `load` was lent back to zero. That no bytes
// are refused with 9, the number of a work slice that is too short: proofs/NoNine.antt.
#![tactic(auto)]

ghost use Rattle.std.specs.Prelude.{◌≡◌};
ghost use Rattle.image.specs.Answer.{number_of, slices};
ghost use Rattle.load_answers.specs.Zero.{LoadZero};

use clearing::clear;

// `usize::from` under a name.
pub fn refusal_number(r: image::Reason) -> usize
    ensures { result ≡ number_of r }
{
    usize::from(r)
}

// What `load` was lent: the five slices, of any length, that the C interface lends.
pub fn clear_load(
    bytes: &mut [u8],
    ends: &mut [usize],
    kinds: &mut [u8],
    payloads: &mut [u64],
    table: &mut [usize],
)
    ensures { LoadZero (slices bytes.new ends.new kinds.new payloads.new table.new) }
{
    clear(bytes);
    clear(ends);
    clear(kinds);
    clear(payloads);
    clear(table);
}
