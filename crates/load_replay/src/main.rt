// Runs `load` on each image of a list on standard input, and compares its answers with those of the list.
//
// A case is the image, byte for byte, and then a line `= refused NUMBER LINE` or `= loads`. Where the image does not end in a line feed,
// that line begins with `~`, and the line feed before it is not part of the image. An image may be given as one line `! HEX`, its bytes in
// upper-case hexadecimal. A line of another form after `=` or `~`, hexadecimal that is none, and what stands after the last answer are
// counted as malformed. The images that are too long for a list, and the slices that are too short, are made here by rule.
#![tactic(auto)]

mod list;

use arrayvec::{ArrayString, ArrayVec};
use case_list::{Case, Tally, Verdict, read_full};
use image::{IMAGE_MOST, LoadAnswer, Reason, Refusal, least, load};
use line_digits::{hex, line_end};
use line_output::push_decimal;
use list::{answer_mark, cases_of, image_end};
use std::io::Result;

// An answer, as the list has it behind its mark. The longest is that of a refusal, with two numbers of 20 digits at most.
type Text = ArrayString<64>;

// The bytes of an image that a list gives in hexadecimal.
type Bytes = ArrayVec<u8, 8192>;

// The bytes of the line `! HEX`; none where it is not of that form, or has more bytes than fit.
fn decode(line: &[u8]) -> Option<Bytes> {
    let digits = line.get(2..).unwrap_or(b"");
    let mut bytes = Bytes::new();
    for pair in digits[..line_end(digits, 0)].chunks(2) {
        let [high, low] = pair else {
            return None;
        };
        bytes.try_push(hex(*high)? * 16 + hex(*low)?).ok()?;
    }
    Some(bytes)
}

fn text_of(a: LoadAnswer) -> Text {
    let mut text = Text::new();
    match a {
        Ok(_) => text.push_str("loads"),
        Err(Refusal { reason, line }) => {
            text.push_str("refused ");
            push_decimal(&mut text, usize::from(reason));
            text.push(' ');
            push_decimal(&mut text, line);
        }
    }
    text
}

// The answer for an image, as the list has it.
fn answer(image: &[u8]) -> Text {
    let mut bytes = [0u8; least::BYTES];
    let mut ends = [0usize; least::ENDS];
    let mut kinds = [0u8; least::KINDS];
    let mut payloads = [0u64; least::PAYLOADS];
    let mut table = [0usize; least::TABLE];
    text_of(load(
        image,
        &mut bytes,
        &mut ends,
        &mut kinds,
        &mut payloads,
        &mut table,
    ))
}

// The answer for an image as the list gives it, where it may be one line `! HEX`; none where that is no hexadecimal.
fn listed_answer(given: &[u8]) -> Option<Text> {
    match given {
        [b'!', ..] => Some(answer(decode(given)?.as_slice())),
        _ => Some(answer(given)),
    }
}

// Says where `load` and the list differ.
fn say_differs(rt: &impl Print, case: u64, answered: &Text, listed: &[u8]) -> Result<()> {
    print!(rt; "case {case}: load answers {answered}, the list says ")?;
    rt.write_all(listed)?;
    rt.write_all(b"\n")
}

// One case more: the image as it is given, and the line of its answer, of one of the forms `= loads` and `= refused ..`.
fn judge(rt: &impl Print, tally: Tally, case: Case<'_>) -> Result<Tally> {
    let (Some(answered), [_, b' ', b'l' | b'r', ..]) = (listed_answer(case.image), case.answer)
    else {
        return Ok(tally.with(Verdict::Malformed));
    };
    let listed = &case.answer[2..];
    if answered.as_bytes() == listed {
        return Ok(tally.with(Verdict::Agrees));
    }
    let tally = tally.with(Verdict::Differs);
    say_differs(rt, tally.cases, &answered, listed)?;
    Ok(tally)
}

// A case of the list. Where the line of its answer has the mark `~`, the line feed before it is not part of the image.
fn without_line_feed(case: Case<'_>) -> Case<'_> {
    let size = case.image.len();
    let end = match case.answer.first() {
        Some(first) => answer_mark(*first).map_or(size, |mark| image_end(mark, 0, size)),
        None => size,
    };
    Case {
        image: &case.image[..end],
        ..case
    }
}

// All cases of the list; what stands after the last answer is one malformed case.
fn replay(rt: &impl Print, list: &[u8]) -> Result<Tally> {
    let mut tally = Tally::default();
    for case in cases_of(list) {
        tally = judge(rt, tally, without_line_feed(case))?;
    }
    Ok(tally)
}

// Whether `load` says that a work slice is too short.
fn is_short(a: LoadAnswer) -> bool {
    a.is_err_and(|refusal| refusal.reason == Reason::ShortSlice)
}

// How many of the five slices are refused where each in turn is one element too short.
fn short_slices() -> usize {
    let mut b = [0u8; least::BYTES];
    let mut e = [0usize; least::ENDS];
    let mut k = [0u8; least::KINDS];
    let mut p = [0u64; least::PAYLOADS];
    let mut t = [0usize; least::TABLE];
    let mut b1 = [0u8; least::BYTES - 1];
    let mut e1 = [0usize; least::ENDS - 1];
    let mut k1 = [0u8; least::KINDS - 1];
    let mut p1 = [0u64; least::PAYLOADS - 1];
    let mut t1 = [0usize; least::TABLE - 1];
    let answers = [
        load(b"", &mut b1, &mut e, &mut k, &mut p, &mut t),
        load(b"", &mut b, &mut e1, &mut k, &mut p, &mut t),
        load(b"", &mut b, &mut e, &mut k1, &mut p, &mut t),
        load(b"", &mut b, &mut e, &mut k, &mut p1, &mut t),
        load(b"", &mut b, &mut e, &mut k, &mut p, &mut t1),
    ];
    answers.into_iter().filter(|a| is_short(*a)).count()
}

// The images that are too long for a list: line feeds, one more than an image may have, and as many as it may have.
fn by_rule(rt: &impl Print, tally: Tally) -> Result<Tally> {
    let long = Case {
        image: &[10u8; IMAGE_MOST + 1],
        answer: b"= refused 1 0",
    };
    let whole = Case {
        image: &[10u8; IMAGE_MOST],
        answer: b"= refused 2 1",
    };
    judge(rt, judge(rt, tally, long)?, whole)
}

fn main(rt: HostRuntime) -> Result<()> {
    let mut room = [0u8; 524288];
    let list = read_full(&mut rt.stdin(), &mut room)?;
    let tally = by_rule(&rt, replay(&rt, list)?)?;
    print!(rt; "{tally}")?;
    let short = short_slices();
    println!(rt; "short slices {short}")
}
