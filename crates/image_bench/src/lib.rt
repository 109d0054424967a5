// `load` under a name that Rust can link: what bench/image times.
#![tactic(auto)]

ghost use Rattle.std.specs.Prelude.{◌≡◌};
ghost use Rattle.image.specs.Answer.{slices};
ghost use Rattle.image_bench.specs.Exported.{code_of, Exported};

use image::{LoadAnswer, load};

// An answer as a number, for Rust to link.
fn code_of(a: LoadAnswer) -> u64
    ensures { result ≡ code_of a }
{
    match a {
        Ok(_) => 0,
        Err(refusal) => usize::from(refusal.reason) as u64,
    }
}

#[unsafe(no_mangle)]
pub extern "C" fn image_bench_load(
    image: &[u8],
    bytes: &mut [u8],
    ends: &mut [usize],
    kinds: &mut [u8],
    payloads: &mut [u64],
    table: &mut [usize],
) -> u64
    ensures { Exported image.now (slices bytes.old ends.old kinds.old payloads.old table.old) result (slices bytes.new ends.new kinds.new payloads.new table.new) }
{
    code_of(load(image, bytes, ends, kinds, payloads, table))
}
