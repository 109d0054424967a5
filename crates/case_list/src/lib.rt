// For the programs that replay a list of cases: how a list is read, its cases one after another, and what came of them.
#![tactic(auto)]

ghost use Rattle.std.specs.Prelude.{◌≡◌, Some, IfOk, ◌+◌, ◌≤◌, min, length};
ghost use Rattle.std.specs.Io.KnownBytes.{Consumes};
ghost use Rattle.std.specs.Iterator.{at_most};
ghost use Rattle.std.proofs.Math.Seq.{paste};
ghost use Rattle.case_list.specs.Put.{fitting};
ghost use Rattle.case_list.specs.Cases.{IsFirstAnswer, NextCase};
ghost use Rattle.case_list.specs.Tallies.{counted, tally_text};

use line_digits::line_end;
use std::fmt;
use std::io::{Read, Result};

// Where the line after one that ends at `end` begins.
pub fn after(end: usize, size: usize) -> usize
    requires { end ≤ size }
    ensures { result ≡ min (end + 1) size }
{
    if end < size {
        return end + 1;
    }
    size
}

// Copies `word` to `out` at `at`, as far as it has room, and answers the place behind it. No program calls it since their lines are `ArrayString`s.
pub fn put(out: &mut [u8], at: usize, word: &[u8]) -> usize
    requires { at ≤ length out.old }
    ensures upper_bound { result ≤ length out.new }
    ensures end { result ≡ at + fitting out.old at word.now }
    ensures written { out.new ≡ paste out.old at word.now (fitting out.old at word.now) }
{
    let n = word.len().min(out.len() - at);
    out[at..at + n].copy_from_slice(&word[..n]);
    at + n
}

// Reads until `list` is full or the input ends, and answers what came.
pub fn read_full<'a, R: Read>(input: &mut R, list: &'a mut [u8]) -> Result<&'a [u8]>
    ensures within { IfOk result (λ part. length part.now ≤ length list.old) }
    ensures taken { IfOk result (λ part. Consumes (R.remaining input.old) (R.remaining input.new) part.now) }
{
    let mut at = 0;
    // Each turn goes on behind what the turns before brought; a `for` over reads would have no number of turns that is enough.
    loop {
        if at == list.len() {
            break;
        }
        match input.read(&mut list[at..])? {
            0 => break,
            n => at += n,
        }
    }
    Ok(&list[..at])
}

// A case: the image as it is given, and the line of its answer, without its line feed. Where no answer follows that line has no bytes.
#[derive(Clone, Copy)]
pub struct Case<'a> {
    pub image: &'a [u8],
    pub answer: &'a [u8],
}

// The cases of a list, first to last. The line of an answer is one that begins with a mark.
#[derive(Clone, Copy)]
pub struct Cases<'a> {
    pub list: &'a [u8],
    pub marks: &'a [u8],
}

impl<'a> Cases<'a> {
    // Where the first line that begins with a mark begins, or the list's length.
    fn answer_at(&self) -> usize
        ensures within { result ≤ length self.now.list.now }
        ensures first { IsFirstAnswer self.now result }
    {
        let mut begins = true; // whether a line begins at i
        for i in 0..self.list.len() {
            if begins && self.marks.contains(&self.list[i]) {
                return i;
            }
            begins = self.list[i] == b'\n';
        }
        self.list.len()
    }
}

impl<'a> Iterator for Cases<'a> {
    type Item = Case<'a>;

    ghost next_gives = { NextCase };

    ghost remaining = { λ s. at_most (length s.list.now) };

    fn next(&mut self) -> Option<Case<'a>> {
        if self.list.is_empty() {
            return None;
        }
        let at = self.answer_at();
        let end = line_end(self.list, at);
        let case = Case {
            image: &self.list[..at],
            answer: &self.list[at..end],
        };
        self.list = &self.list[after(end, self.list.len())..];
        Some(case)
    }
}

// What came of a case: the answer is the list's, or another, or the case has not the form of one.
#[derive(Clone, Copy, Debug, PartialEq, Eq)]
pub enum Verdict {
    Agrees,
    Differs,
    Malformed,
}

#[derive(Clone, Copy, Debug, Default, PartialEq, Eq)]
pub struct Tally {
    pub cases: u64,
    pub agree: u64,
    pub malformed: u64,
}

impl Tally {
    // With one case more.
    pub fn with(self, verdict: Verdict) -> Tally
        ensures { result ≡ counted self verdict }
    {
        let more = Tally {
            cases: self.cases.wrapping_add(1),
            ..self
        };
        match verdict {
            Verdict::Agrees => Tally {
                agree: more.agree.wrapping_add(1),
                ..more
            },
            Verdict::Differs => more,
            Verdict::Malformed => Tally {
                malformed: more.malformed.wrapping_add(1),
                ..more
            },
        }
    }
}

impl fmt::Display for Tally {
    ghost output = { λ t. Some (tally_text t) };

    fn fmt<W: fmt::Write>(&self, f: &mut fmt::Formatter<W>) -> fmt::Result {
        let Tally {
            cases,
            agree,
            malformed,
        } = *self;
        write!(f, "cases {cases}\nagree {agree}\nmalformed {malformed}\n")
    }
}
