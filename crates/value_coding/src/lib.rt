// The coding of a result: the value that a run ends in, as bytes of a lent slice.
#![tactic(auto)]

mod coding;

pub use coding::code_value;

// What codes a value before its parts: the kind's code, and a word in so many bytes, high byte first.
#[derive(Clone, Copy)]
pub struct Header {
    pub kind: u8,
    pub size: usize,
    pub word: u64,
}
