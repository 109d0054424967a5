// Arrays of two nested 64 deep: 256 cells whose tree has 2^64 leaves, all the same number or all but one. Each line is answered at once,
// because equality looks at no pair of cells twice and coding stops where the slice is full.
#![tactic(auto)]

mod shared_subtrees;

use numbers::Number;
pub use shared_subtrees::{code_nested, compare_nested};
use std::io;

fn say_compared(rt: &impl Print, c: Option<bool>) -> io::Result<()> {
    match c {
        Some(true) => println!(rt; "equal"),
        Some(false) => println!(rt; "unequal"),
        None => println!(rt; "not built"),
    }
}

fn say_coded(rt: &impl Print, c: Option<usize>) -> io::Result<()> {
    match c {
        Some(_) => println!(rt; "coded"),
        None => println!(rt; "too long"),
    }
}

// A write that fails ends the run with its error.
fn main(rt: HostRuntime) -> io::Result<()> {
    let mut cells = [0u64; 8192];
    let mut memo = [0u16; 4096];
    let mut out = [0u8; 4096];
    let one = Number::Int(1);
    let two = Number::Int(2);
    let zero = Number::Float(0.0);
    let minus_zero = Number::Float(-0.0);
    let nan = Number::Float(f64::NAN);
    // two trees with 2^64 leaves: each with its leaf and its last leaf
    let pairs = [
        // equal in every leaf; unequal in every leaf; unequal in the last leaf alone
        (one, one, one, one),
        (one, one, two, two),
        (one, one, one, two),
        // a NaN in every leaf; in the last leaf alone; on one side alone
        (nan, nan, nan, nan),
        (zero, nan, zero, nan),
        (zero, zero, zero, nan),
        // zeros of both signs, in every leaf and in the last leaf alone
        (zero, zero, minus_zero, minus_zero),
        (zero, zero, zero, minus_zero),
    ];
    for (left, left_last, right, right_last) in pairs {
        let answer = compare_nested(
            left, left_last, right, right_last, 64, &mut cells, &mut memo,
        );
        say_compared(&rt, answer)?;
    }
    for (last, depth) in [(one, 64), (two, 64), (two, 8)] {
        say_coded(&rt, code_nested(one, last, depth, &mut cells, &mut out))?;
    }
    Ok(())
}
