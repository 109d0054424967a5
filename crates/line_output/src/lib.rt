// What the lines of the programs are made of: a number in decimal or padded with zeros to four digits, a place, bytes in hexadecimal, the line of a
// refusal; and how a line is written. A piece is pushed behind those before it, or put into a buffer as a word. Numbers and bytes look as in the crate
// `definition`, specs/Runner.antt.
#![tactic(auto)]

mod runs; // the line of an answer of `run`

ghost use Rattle.std.specs.Prelude.{◌≡◌, [], ◌∷◌, ◌++◌, ◌+◌, ◌-◌, ◌*◌, ◌/◌, ◌%◌, ◌≤◌, ◌<◌, length, replicate};
ghost use Rattle.std.specs.Bool.{OnTrue};
ghost use Rattle.std.specs.Io.KnownBytes.{Appends};
ghost use Rattle.arrayvec.specs.ArrayString.{array_string_len};
ghost use Rattle.definition.specs.Runner.{ascii, decimal, padded, hex_digit, hex, words};
ghost use Rattle.line_output.specs.Puts.{Puts};

use arrayvec::ArrayString;
use itoa::Buffer;
pub use runs::push_run;
use std::io::Write;

// Puts `word` into `out` at `at`, and answers where it ends. The programs push to a text; this is for a buffer of bytes.
pub fn put(out: &mut [u8], at: usize, word: &[u8]) -> usize
    requires { at + length word.now ≤ length out.old }
    ensures { Puts out.old at word.now out.new result }
{
    out[at..at + word.len()].copy_from_slice(word);
    at + word.len()
}

// The decimal digits of n, by the kit's `itoa`: a `write!` to the line would have an error that cannot come. There are at most 20.
pub fn push_decimal<const N: usize>(line: &mut ArrayString<N>, n: usize)
    requires { array_string_len line.old + 20 ≤ N }
    ensures text { line.new.bytes ≡ line.old.bytes ++ decimal n }
    ensures upper_bound { array_string_len line.new ≤ array_string_len line.old + 20 }
{
    let mut buffer = Buffer::new();
    line.push_str(buffer.format(n));
}

// The zeros in front of these digits, up to four. A table, since a part of `0000` would have to be shown to end between two characters.
fn missing_zeros(digits: &str) -> &str
    ensures { result.now ≡ replicate (4 - length digits.now) 48 }
{
    match digits.len() {
        0 => "0000",
        1 => "000",
        2 => "00",
        3 => "0",
        _ => "",
    }
}

// The same, with zeros in front up to four digits.
pub fn push_padded<const N: usize>(line: &mut ArrayString<N>, n: usize)
    requires { array_string_len line.old + 20 ≤ N }
    ensures text { line.new.bytes ≡ line.old.bytes ++ padded n }
    ensures upper_bound { array_string_len line.new ≤ array_string_len line.old + 20 }
{
    let mut buffer = Buffer::new();
    let digits = buffer.format(n);
    line.push_str(missing_zeros(digits));
    line.push_str(digits);
}

// Where an image faults or a run stops: chunk and offset, each padded, one space between.
pub fn push_place<const N: usize>(line: &mut ArrayString<N>, chunk: usize, offset: usize)
    requires { array_string_len line.old + 41 ≤ N }
    ensures text { line.new.bytes ≡ line.old.bytes ++ padded chunk ++ 32 ∷ padded offset }
    ensures upper_bound { array_string_len line.new ≤ array_string_len line.old + 41 }
{
    push_padded(line, chunk);
    line.push(' ');
    push_padded(line, offset);
}

// An upper-case digit: `char::from_digit` gives lower-case ones, and an Option of them.
fn hex_digit(n: u8) -> char
    requires { n < 16 }
    ensures digit { result ≡ hex_digit n }
    ensures ascii { result < 128 }
{
    char::from(if n < 10 { 48 + n } else { 55 + n })
}

// The bytes in upper-case hexadecimal, two digits each.
pub fn push_hex<const N: usize>(line: &mut ArrayString<N>, bytes: &[u8])
    requires { array_string_len line.old + 2 * length bytes.now ≤ N }
    ensures text { line.new.bytes ≡ line.old.bytes ++ hex bytes.now }
    ensures len { array_string_len line.new ≡ array_string_len line.old + 2 * length bytes.now }
{
    for &byte in bytes {
        line.push(hex_digit(byte / 16));
        line.push(hex_digit(byte % 16));
    }
}

// The line `refused NUMBER LINE`, the same in both programs. It has at most 50 bytes.
pub fn push_refused<const N: usize>(line: &mut ArrayString<N>, number: usize, refused_line: usize)
    requires { array_string_len line.old + 50 ≤ N }
    ensures { line.new.bytes ≡ line.old.bytes ++ words (ascii "refused" ∷ decimal number ∷ decimal refused_line ∷ []) }
{
    line.push_str("refused ");
    push_decimal(line, number);
    line.push(' ');
    push_decimal(line, refused_line);
    line.push('\n');
}

// Writes a line to the output, whole and by one write, so that two programs that share an output do not mix their lines, and answers whether it took the
// line. Where it did not, that is said on `errors`, behind the program's name.
pub fn write_line<W: Write, E: Write>(
    output: &mut W,
    errors: &mut E,
    name: &[u8],
    line: &[u8],
) -> bool
    ensures { OnTrue result (Appends (W.contents output.old) (W.contents output.new) line.now) }
{
    if output.write_all(line).is_ok() {
        return true;
    }
    let _ = errors.write_all(name);
    let _ = errors.write_all(b": the line could not be written\n");
    false
}
