// The text of the calls: the lists that a line has, and what is made of their items.
ghost use Rattle.io.specs.Counts.{IsPrefixLen};
ghost use Rattle.std.specs.Prelude.{◌≤◌};

use sheet::Constraint;

// A byte of a list, 0 past its end.
pub fn byte(list: &[u8], at: usize) -> u8 {
    if at < list.len() { list[at] } else { 0 }
}

// Two bytes as a number, lowest byte first.
pub fn short(list: &[u8; 2]) -> usize {
    byte(list, 0) as usize + 256 * (byte(list, 1) as usize)
}

fn item(list: &[u16], at: usize) -> u16 {
    if at < list.len() { list[at] } else { 0 }
}

// A number of a list, 0 past its end.
pub fn number(list: &[u16], at: usize) -> usize
    ensures { result ≤ 65535 }
{
    item(list, at) as usize
}

// The lesser of two numbers.
pub fn least(a: usize, b: usize) -> usize
    ensures { result ≤ b }
{
    if a < b { a } else { b }
}

// At most n bytes of a list from a place on.
pub fn some<'a>(list: &'a [u8], at: usize, n: usize) -> &'a [u8] {
    let len = list.len();
    if len < at {
        return &list[len..];
    }
    if len - at < n {
        return &list[at..];
    }
    &list[at..at + n]
}

// A digit in hexadecimal, 0 for any other byte.
fn digit(b: u8) -> u8
    ensures { result ≤ 15 }
{
    match b {
        48..=57 => b - 48,
        97..=102 => b - 87,
        _ => 0,
    }
}

// A byte by its two digits.
fn pair(high: u8, low: u8) -> u8 {
    16 * digit(high) + digit(low)
}

// How many bytes a list has, and where the text goes on.
#[derive(Clone, Copy)]
pub struct Taken {
    pub count: usize,
    pub next: usize,
}

// The list in hexadecimal that stands here, up to a space or the end of the line, to the front of a buffer.
pub fn list(text: &[u8], from: usize, out: &mut [u8]) -> Taken
    ensures { IsPrefixLen result.count out.new }
{
    let mut n: usize = 0;
    let mut at = from;
    while n < out.len() {
        if byte(text, at) <= b' ' {
            return Taken {
                count: n,
                next: at.wrapping_add(1),
            };
        }
        let low = at.wrapping_add(1);
        out[n] = pair(byte(text, at), byte(text, low));
        n += 1;
        at = at.wrapping_add(2);
    }
    Taken {
        count: n,
        next: at.wrapping_add(1),
    }
}

// The constraint of a list: its ends, its map and its size.
pub fn constraint_of(numbers: &[u16]) -> Constraint {
    let map = (number(numbers, 2) % 256) as u8;
    let size = sheet::size_by(map, number(numbers, 3) as i32);
    Constraint {
        first: (number(numbers, 0) % 256) as u8,
        second: (number(numbers, 1) % 256) as u8,
        size,
    }
}
