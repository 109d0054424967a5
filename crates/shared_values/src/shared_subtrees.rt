// Trees whose subtrees are shared, built and compared from empty cells, with no requires: what `value_equality::equal` and
// `value_coding::code_value` ask is met by what building gives.
ghost use Rattle.std.specs.Prelude.{[], ◌∷◌, ◌≤◌, length};
ghost use Rattle.definition.specs.Value.{arr};
ghost use Rattle.clearing.specs.Zero.{AllZero};
ghost use Rattle.values.specs.Words.{Fit};
ghost use Rattle.values.specs.Building.{Builds};
ghost use Rattle.shared_values.specs.Nested.{NestedAsks, GrownGives, NestedGives, ComparedGives, CodedGives};

use clearing::clear;
use numbers::Number;
use values::{BuildFault, SequenceKind, VmValue};

// The value [x, y].
fn pair(cells: &mut [u64], nc: usize, x: VmValue, y: VmValue) -> Result<VmValue, BuildFault>
    requires { (8192 ≤ length cells.old) × (nc ≤ 4096) × Fit x × Fit y }
    ensures { Builds arr (x ∷ y ∷ []) nc cells.old cells.new result }
{
    let mut parts = [0u64; 4];
    values::store_value(&mut parts, 0, x);
    values::store_value(&mut parts, 1, y);
    values::build_sequence(SequenceKind::Arr, &parts, 0, 2, cells, nc)
}

// The values [x, y] and [x, x].
fn grow(
    cells: &mut [u64],
    nc: usize,
    x: VmValue,
    y: VmValue,
) -> Result<(VmValue, VmValue), BuildFault>
    requires { (8192 ≤ length cells.old) × (nc ≤ 4096) × Fit x × Fit y }
    ensures { GrownGives x y nc cells.old cells.new result }
{
    let v = pair(cells, nc, x, y)?;
    let w = pair(cells, nc + 2, x, x)?;
    Ok((v, w))
}

// A tree of so many arrays of two, behind the nc cells that are taken, and how many are taken with it. Its leaves are all the same number
// but for the last one: the first part of each array is x, whose parts are all shared, and the second part is y, which has the last leaf.
fn nest(
    cells: &mut [u64],
    nc: usize,
    leaf: Number,
    last: Number,
    depth: usize,
) -> Result<(VmValue, usize), BuildFault>
    requires { NestedAsks cells.old nc }
    ensures { NestedGives leaf last depth nc cells.old cells.new result }
{
    let mut x = VmValue::Num(leaf);
    let mut y = VmValue::Num(last);
    let mut n = nc;
    for _ in 0..depth {
        let (v, w) = grow(cells, n, x, y)?;
        y = v;
        x = w;
        n += 4;
    }
    Ok((y, n))
}

// Whether two such trees are equal, in slices as they come; none where they are not built.
fn compare_in(
    left: Number,
    left_last: Number,
    right: Number,
    right_last: Number,
    depth: usize,
    cells: &mut [u64],
    memo: &mut [u16],
) -> Option<bool>
    ensures { ComparedGives left left_last right right_last depth (length cells.old) (length memo.old) result }
{
    if cells.len() < 8192 {
        return None;
    }
    if memo.len() < 4096 {
        return None;
    }
    clear(memo);
    let Ok((a, n)) = nest(cells, 0, left, left_last, depth) else {
        return None;
    };
    let Ok((b, m)) = nest(cells, n, right, right_last, depth) else {
        return None;
    };
    Some(value_equality::equal(&[0], &[0], cells, m, memo, a, b))
}

// Two such trees compared. Both slices are zero afterwards.
pub fn compare_nested(
    left: Number,
    left_last: Number,
    right: Number,
    right_last: Number,
    depth: usize,
    cells: &mut [u64],
    memo: &mut [u16],
) -> Option<bool>
    ensures answer { ComparedGives left left_last right right_last depth (length cells.old) (length memo.old) result }
    ensures cells { AllZero cells.new }
    ensures memo { AllZero memo.new }
{
    let answer = compare_in(left, left_last, right, right_last, depth, cells, memo);
    clear(cells);
    clear(memo);
    answer
}

// Such a tree coded, in cells as they come.
fn code_in(
    leaf: Number,
    last: Number,
    depth: usize,
    cells: &mut [u64],
    out: &mut [u8],
) -> Option<usize>
    ensures { CodedGives leaf last depth (length cells.old) out.old out.new result }
{
    if cells.len() < 8192 {
        return None;
    }
    let Ok((a, n)) = nest(cells, 0, leaf, last, depth) else {
        return None;
    };
    value_coding::code_value(cells, n, a, out)
}

// Such a tree coded. The cells are zero afterwards.
pub fn code_nested(
    leaf: Number,
    last: Number,
    depth: usize,
    cells: &mut [u64],
    out: &mut [u8],
) -> Option<usize>
    ensures answer { CodedGives leaf last depth (length cells.old) out.old out.new result }
    ensures cells { AllZero cells.new }
{
    let answer = code_in(leaf, last, depth, cells, out);
    clear(cells);
    answer
}
