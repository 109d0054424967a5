// Digits and lines: where a line ends, and the bytes that its digits are.
// These functions are for `image` alone. What they require, its loop over the lines keeps.
#![tactic(auto)]

ghost use Rattle.std.specs.Prelude.{◌≡◌, ℕ, ◌*◌, ◌≤◌, ◌<◌, length, get_or, drop, IfSome};
ghost use Rattle.definition.specs.Lines.{digit, line_of};
ghost use Rattle.line_digits.specs.Fields.{digit_of, pair_of, read_of, ReadFits, written, over};

// A line: its first byte and how many bytes of fields follow it.
#[derive(Clone, Copy, Debug, PartialEq, Eq)]
pub struct Line {
    pub tag: u8,
    pub size: usize,
}

// The value of an upper-case hexadecimal digit; 16 of anything else. In this form it is found without a branch, and `hex` by a `match` on the two
// ranges is not: on code of random bytes that one takes twice as long (tried).
#[tactic(auto, unfolding(definition::specs::Lines::digit))]
fn value_of(x: u8) -> u8
    ensures { (result ≡ digit x) × (result ≤ 16) }
{
    if 48 <= x {
        if x <= 57 {
            return x - 48;
        }
    }
    if 65 <= x {
        if x <= 70 {
            return x - 55;
        }
    }
    16
}

// The value of an upper-case hexadecimal digit; none of anything else.
pub fn hex(x: u8) -> Option<u8>
    ensures says { digit_of result ≡ digit x }
    ensures small { IfSome result (λ v. v < 16) }
{
    let v = value_of(x);
    if v < 16 { Some(v) } else { None }
}

// The byte of two digits.
fn byte_of(high: u8, low: u8) -> Option<u8>
    ensures { result ≡ pair_of high low }
{
    Some(hex(high)? * 16 + hex(low)?)
}

// Where the line that begins at `at` ends: the place of its line feed, or the image's length.
pub fn line_end(image: &[u8], at: usize) -> usize
    requires { at ≤ length image.now }
    ensures within { (at ≤ result) × (result ≤ length image.now) }
    ensures before { (k : ℕ) → at ≤ k → k < result → get_or image.now k 0 ≡ 10 → ⊥ }
    ensures found { result < length image.now → get_or image.now result 0 ≡ 10 }
{
    for i in at..image.len() {
        if image[i] == b'\n' {
            return i;
        }
    }
    image.len()
}

// What the digits of a line are; the fields, the bytes after the first, go to `out`. None: the line is at fault with 2. Of a line with a wrong digit
// those before it are written, of one with a wrong number of digits nothing is; the rest of `out` is as it was.
pub fn read_line(digits: &[u8], out: &mut [u8]) -> Option<Line>
    requires { length digits.now ≤ 2 * length out.old }
    ensures says { read_of result out.new ≡ line_of digits.now }
    ensures fits { ReadFits result (length digits.now) (length out.old) }
    ensures behind { (n : ℕ) → length digits.now ≤ 2 * n → drop n out.new ≡ drop n out.old }
    ensures leaves { out.new ≡ over (written digits.now) out.old }
{
    let many = digits.len();
    if many < 2 || 512 < many || many % 2 == 1 {
        return None;
    }
    let tag = byte_of(digits[0], digits[1])?;
    let size = many / 2 - 1;
    for i in 0..size {
        out[i] = byte_of(digits[2 * i + 2], digits[2 * i + 3])?;
    }
    Some(Line { tag, size })
}
