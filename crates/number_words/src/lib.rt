// Two numbers of one kind, added, subtracted, multiplied, divided if floats and compared if integers, by their words alone: no number is taken apart,
// and nothing goes through memory. First the integers of at most 32 bits: a word is turned so that the kind's numbers stand in their order from 0
// up, the least first. Then UInt, Float and SFloat. Two Ints have their own way (`number_arithmetic`).
#![tactic(auto)]

ghost use Rattle.std.specs.Prelude.{◌≡◌, ◌+◌, ◌≤◌, ◌<◌, ltb, ◌+ℤ◌, ◌-ℤ◌, ◌*ℤ◌, pos};
ghost use Rattle.std.specs.Float.Ieee as Ieee;
ghost use Rattle.std.proofs.Math.IntN.{sub_ℕ};
ghost use Rattle.numbers.specs.declared.IntKind.{IntKind};
ghost use Rattle.numbers.specs.declared.IntKind.TheVariants.{U64};
ghost use Rattle.numbers.specs.Kinds.{wrapping};
ghost use Rattle.numbers.specs.Arithmetic.{checked};
ghost use Rattle.numbers.specs.Compare.{integer_order};
ghost use Rattle.number_words.specs.Words.{narrow_kind, IsOf, turn, signed, answer_in, wide_answer, FloatWord, operation_of};

use float_bits::FloatBits;
use std::cmp::Ordering;

// How many numbers a kind has, and how many of them are negative.
#[derive(Clone, Copy)]
pub struct NarrowKind {
    pub numbers: u64,
    pub negatives: u64,
}

// A kind with a sign has as many negative numbers as others.
fn with_sign(negatives: u64) -> NarrowKind
    requires { negatives < 4294967296 }
    ensures { result ≡ record { numbers = negatives + negatives; negatives = negatives } }
{
    NarrowKind {
        numbers: negatives + negatives,
        negatives,
    }
}

fn without_sign(numbers: u64) -> NarrowKind
    ensures { result ≡ record { numbers = numbers; negatives = 0 } }
{
    NarrowKind {
        numbers,
        negatives: 0,
    }
}

// The kind of a code, if it is an integer's and has at most 32 bits. By the number: the code is a word that may be no kind's, and is judged once.
pub fn narrow_kind(code: u64) -> Option<NarrowKind>
    ensures { result ≡ narrow_kind code }
{
    match code {
        3 => Some(with_sign(0x8000_0000)),
        4 => Some(without_sign(0x1_0000_0000)),
        10 => Some(without_sign(0x100)),
        11 => Some(with_sign(0x80)),
        12 => Some(without_sign(0x1_0000)),
        13 => Some(with_sign(0x8000)),
        _ => None,
    }
}

// A word's place among the kind's numbers, and the word at a place: in both ways the highest bit is turned, where the kind has a sign.
fn turned(n: NarrowKind, p: u64) -> u64
    requires { ((k : IntKind) × IsOf k n) × (p < n.numbers) }
    ensures { (result ≡ turn n p) × (result < n.numbers) }
{
    let others = n.numbers - n.negatives;
    if p < others {
        p + n.negatives
    } else {
        p - others
    }
}

// The word at the place so far up and then so far down, or none where that is no place: there the number overflows.
fn word_at(n: NarrowKind, up: u64, down: u64) -> Option<u64>
    requires { (k : IntKind) × IsOf k n }
    ensures { (k : IntKind) → IsOf k n → answer_in k result ≡ checked k (sub_ℕ up (n.negatives + down)) }
{
    let Some(place) = up.checked_sub(down) else {
        return None;
    };
    if place < n.numbers {
        Some(turned(n, place))
    } else {
        None
    }
}

// The operations answer the word of the number, or none where it overflows.
pub fn add_words(n: NarrowKind, p: u64, q: u64) -> Option<u64>
    requires { ((k : IntKind) × IsOf k n) × (p < n.numbers) × (q < n.numbers) }
    ensures { (k : IntKind) → IsOf k n → answer_in k result ≡ checked k (wrapping k (pos p) +ℤ wrapping k (pos q)) }
{
    word_at(n, turned(n, p) + turned(n, q), n.negatives)
}

pub fn sub_words(n: NarrowKind, p: u64, q: u64) -> Option<u64>
    requires { ((k : IntKind) × IsOf k n) × (p < n.numbers) × (q < n.numbers) }
    ensures { (k : IntKind) → IsOf k n → answer_in k result ≡ checked k (wrapping k (pos p) -ℤ wrapping k (pos q)) }
{
    word_at(n, turned(n, p) + n.negatives, turned(n, q))
}

// How far a place is from zero's.
fn magnitude(n: NarrowKind, x: u64) -> u64
    requires { ((k : IntKind) × IsOf k n) × (x < n.numbers) }
    ensures { (sub_ℕ x n.negatives ≡ signed (ltb x n.negatives) result) × (result ≤ 4294967295) }
{
    if x < n.negatives {
        n.negatives - x
    } else {
        x - n.negatives
    }
}

pub fn mul_words(n: NarrowKind, p: u64, q: u64) -> Option<u64>
    requires { ((k : IntKind) × IsOf k n) × (p < n.numbers) × (q < n.numbers) }
    ensures { (k : IntKind) → IsOf k n → answer_in k result ≡ checked k (wrapping k (pos p) *ℤ wrapping k (pos q)) }
{
    let x = turned(n, p);
    let y = turned(n, q);
    let product = magnitude(n, x) * magnitude(n, y);
    let s = x < n.negatives;
    let t = y < n.negatives;
    if s == t {
        if product < n.numbers - n.negatives {
            return Some(turned(n, n.negatives + product));
        }
        return None;
    }
    if product <= n.negatives {
        return Some(turned(n, n.negatives - product));
    }
    None
}

// Which of two numbers is less.
pub fn order_words(n: NarrowKind, p: u64, q: u64) -> Ordering
    requires { ((k : IntKind) × IsOf k n) × (p < n.numbers) × (q < n.numbers) }
    ensures { (k : IntKind) → IsOf k n → result ≡ integer_order (wrapping k (pos p)) (wrapping k (pos q)) }
{
    turned(n, p).cmp(&turned(n, q))
}

// The same for two UInts, which need all 64 bits.
#[tactic(auto, using(crate::proofs::Places::wide_sum))]
pub fn add_u64(p: u64, q: u64) -> Option<u64>
    ensures { wide_answer result ≡ checked U64 (pos p +ℤ pos q) }
{
    p.checked_add(q)
}

#[tactic(auto, using(crate::proofs::Places::wide_rest))]
pub fn sub_u64(p: u64, q: u64) -> Option<u64>
    ensures { wide_answer result ≡ checked U64 (pos p -ℤ pos q) }
{
    p.checked_sub(q)
}

#[tactic(auto, using(crate::proofs::Places::wide_product))]
pub fn mul_u64(p: u64, q: u64) -> Option<u64>
    ensures { wide_answer result ≡ checked U64 (pos p *ℤ pos q) }
{
    p.checked_mul(q)
}

pub fn order_u64(p: u64, q: u64) -> Ordering
    ensures { result ≡ integer_order (pos p) (pos q) }
{
    p.cmp(&q)
}

// The operations of IEEE 754 on two floats.
#[derive(Clone, Copy)]
pub enum FloatOperation {
    Add,
    Sub,
    Mul,
    Div,
}

fn computed<F: FloatBits>(operation: FloatOperation, x: F, y: F) -> F
    ensures { F.float result ≡ operation_of operation F.format (F.float x) (F.float y) }
{
    match operation {
        FloatOperation::Add => x + y,
        FloatOperation::Sub => x - y,
        FloatOperation::Mul => x * y,
        FloatOperation::Div => x / y,
    }
}

// Two Floats or two SFloats by their words.
pub fn float_words<F: FloatBits>(operation: FloatOperation, p: u64, q: u64) -> u64
    ensures value { FloatWord F.format (operation_of operation F.format (Ieee.of_bits F.format (F.bits p)) (Ieee.of_bits F.format (F.bits q))) result }
    ensures short { F.bits result ≡ result }
{
    computed(operation, F::of_word(p), F::of_word(q)).to_word()
}
