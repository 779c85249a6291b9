// Sets of elements as 64-bit numbers, element x being digit x: how every crate above makes them and takes them apart. Contracts cite theory's Set.

#![tactic(auto)]

ghost use Rattle.std.specs.Prelude.{◌≡◌, ◌-◌, ◌^◌, ◌<◌, min};
ghost use Rattle.std.specs.Int.Count.{count_trailing_zeros};
ghost use Rattle.theory.specs.Set.{◌∈◌, ◌∩◌, full};
ghost use Rattle.theory.specs.Constraints.{pair as pair_of};
ghost use Rattle.std.specs.Iterator.{at_most};
ghost use Rattle.sets.specs.Elements.{Next};
ghost use Rattle.sets.specs.Image.{Image};

use theory::ELEMENTS;

// The set of all 64.
pub const FULL: u64 = 18446744073709551615;

// A byte as a place.
pub fn wide(x: u8) -> usize
    ensures { result ≡ x }
{
    x as usize
}

// A number of 16 bits as a place.
pub fn place_of(x: u16) -> usize
    ensures { result ≡ x }
{
    x as usize
}

// The set of one element.
pub fn single(x: u8) -> u64
    requires { x < 64 }
    ensures { result ≡ 2 ^ x }
{
    1u64 << (x as u32)
}

// The set of two elements.
pub fn pair(a: u8, b: u8) -> u64
    requires { (a < 64) × (b < 64) }
    ensures { result ≡ pair_of a b }
{
    single(a) | single(b)
}

// The set of the numbers below n, and below 64.
pub fn below(n: usize) -> u64
    ensures { result ≡ full (min n 64) }
{
    if ELEMENTS <= n {
        return FULL;
    }
    single(n as u8) - 1
}

// The lowest element of a set.
pub fn lowest(m: u64) -> u8
    requires { 0 < m }
    ensures { (result < 64) × (result ∈ m) × (result ≡ count_trailing_zeros 64 m) }
{
    u64::trailing_zeros(m) as u8
}

// A set without its lowest element; the empty set stays as it is.
pub fn without_lowest(m: u64) -> u64
    ensures { result ≡ m ∩ (m - 1) }
{
    if m == 0 { 0 } else { m & (m - 1) }
}

// All that two sets share (document 02, 2026-09).
pub fn shared(a: u64, b: u64) -> u64
    ensures { result ≡ a ∩ b }
{
    a & b
}

// The elements of a set that are still to come, lowest first.
#[derive(Clone, Copy)]
pub struct Ascending {
    pub rest: u64,
}

// The elements of a set, lowest first.
pub fn elements(set: u64) -> Ascending
    ensures { result.rest ≡ set }
{
    Ascending { rest: set }
}

impl Iterator for Ascending {
    type Item = usize;

    ghost next_gives = { λ s r t. Next s.rest r t.rest };

    ghost remaining = { λ s. at_most s.rest };

    fn next(&mut self) -> Option<usize> {
        if self.rest == 0 {
            return None;
        }
        let x = u64::trailing_zeros(self.rest) as usize;
        self.rest = self.rest & (self.rest - 1);
        Some(x)
    }
}

// The image of a set by a table: the union of its entries at the elements of the set.
pub fn image(table: &[u64; ELEMENTS], set: u64) -> u64
    ensures { Image table.now set result }
{
    let mut all: u64 = 0;
    for p in elements(set) {
        all = all | table[p];
    }
    all
}
