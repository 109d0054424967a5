// Reading for the programs: an image from an input, into a buffer.
#![tactic(auto)]

ghost use Rattle.std.specs.Prelude.{◌≡◌, length, take};
ghost use Rattle.std.specs.Io.KnownBytes.{Consumes};
ghost use Rattle.image_input.specs.Read.{Over, bytes_of, Holds};

use std::io::{Read, Write};

// Why reading ended: the input did, or the buffer is full, or a read failed.
#[derive(Clone, Copy)]
pub enum End {
    Input,
    Buffer,
    Failure,
}

// What reading came to: how many bytes were read, and why it ended.
#[derive(Clone, Copy)]
pub struct Reading {
    pub at: usize,
    pub end: End,
}

impl Reading {
    // How many bytes were read of the input, if it could be read. A read that failed is no end of the input.
    pub fn bytes(self) -> Option<usize>
        ensures { result ≡ bytes_of self.at self.end }
    {
        match self.end {
            End::Input | End::Buffer => Some(self.at),
            End::Failure => None,
        }
    }
}

// Reads until `buf` is full or a read brings nothing.
fn read_all<R: Read>(input: &mut R, buf: &mut [u8]) -> Reading
    ensures over { Over (length buf.new) result.at result.end }
    ensures taken { Consumes (R.remaining input.old) (R.remaining input.new) (take result.at buf.new) }
    ensures holds { Holds (R.remaining input.old) buf.new result.at result.end }
{
    let mut at = 0;
    // No `for`: how many bytes a read brings, and which is the last, is only known when it was made.
    let end = loop {
        if at == buf.len() {
            break End::Buffer;
        }
        match input.read(&mut buf[at..]) {
            Ok(0) => break End::Input,
            Ok(n) => at += n,
            Err(_) => break End::Failure,
        }
    };
    Reading { at, end }
}

// Reads the input until `buf` is full or the input ends. Where a read fails, that is said on `errors`, behind the program's name,
// whose bytes need be no text.
pub fn read_input<R: Read, E: Write>(
    input: &mut R,
    errors: &mut E,
    name: &[u8],
    buf: &mut [u8],
) -> Reading
    ensures over { Over (length buf.new) result.at result.end }
    ensures taken { Consumes (R.remaining input.old) (R.remaining input.new) (take result.at buf.new) }
    ensures holds { Holds (R.remaining input.old) buf.new result.at result.end }
{
    let reading = read_all(input, buf);
    if reading.bytes().is_none() {
        let _ = errors.write_all(name);
        let _ = errors.write_all(b": standard input cannot be read\n");
    }
    reading
}
