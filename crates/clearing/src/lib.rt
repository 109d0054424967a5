// Work memory: room in a slice that the caller lends, and back to zero to the end of each slice.
#![tactic(auto)]

ghost use Rattle.std.specs.Prelude.{◌≡◌, ◌≤◌, ℕ, length, get_or};
ghost use Rattle.clearing.specs.Lent.{Lent};

use std::marker::Model;

// Room for N elements at least, in a slice that the caller lends. In a contract a room is the list of all its elements.
#[derive(Drop)]
pub struct Room<'a, T, const N: usize> {
    pub items: &'a mut [T],
}

impl<'a, T, const N: usize> Model for Room<'a, T, N> {
    ghost Value = { Lent T };

    ghost view = { λ room. record { items = room.items.now; name = room.items.ghost_name } };

    ghost invariant = { λ room. N ≤ length room.items.now };
}

impl<'a, T, const N: usize> Room<'a, T, N> {
    // All that was lent, to be read.
    pub fn all(&self) -> &[T]
        ensures same { result.now ≡ self.now.items }
        ensures long { N ≤ length result.now }
    {
        self.items
    }
}

// What an element of work memory is: a number, whose zero a cleared slice holds throughout.
pub trait Zero: Copy {
    const ZERO: Self;

    ghost ZERO: { Self };
}

impl Zero for u8 {
    const ZERO: u8 = 0;

    ghost ZERO = { 0 };
}

impl Zero for u16 {
    const ZERO: u16 = 0;

    ghost ZERO = { 0 };
}

impl Zero for u64 {
    const ZERO: u64 = 0;

    ghost ZERO = { 0 };
}

impl Zero for usize {
    const ZERO: usize = 0;

    ghost ZERO = { 0 };
}

// At a type of number the clause is `AllZero a.new` of specs/Zero.antt.
pub fn clear<T: Zero>(a: &mut [T])
    ensures { (i : ℕ) → get_or a.new i T.ZERO ≡ T.ZERO }
{
    for x in a.iter_mut() {
        *x = T::ZERO;
    }
}
