// The elements of a sheet, read: their kinds, one field, and the radii of circles. Document 01, "The sheet in bytes"; document 02, 2026-01. Contracts
// cite the decoding of the crate `sheet` and, for what an answer says, specs/Answers.antt. The module `fields` reads one field.

#![tactic(auto)]

ghost use Rattle.std.specs.Prelude.{◌≡◌, List, ℕ, ◌+◌, ◌*◌, ◌/◌, ◌%◌, ◌<◌, ◌≤◌, length, drop, get_or};
ghost use Rattle.theory.specs.Set.{at as digit};
ghost use Rattle.sheet.specs.declared.Opening.TheVariants.{Pf01, Pf02};
ghost use Rattle.sheet.specs.Rules.{kind_bits_used};
ghost use Rattle.sheet.specs.Decode.{element};
ghost use Rattle.elements.specs.Answers.{elements_field, ElementsRead};
ghost use Rattle.elements.specs.Round.{round_number, round_kinds, KindsOf, ElementRead, RadiiRead};

pub mod fields;

use fields::{Cursor, Read};
use sheet::{Kinds, Opening};
use theory::{ELEMENTS, Rule};

// Kinds under PF01: one number, a bit each; rule 4.
fn read_straight(s: &[u8], c: Cursor, n: usize) -> Read<Kinds>
    requires { (0 < n) × (n ≤ 64) }
    ensures { (radii : List ℕ) → ElementsRead (elements_field Pf01 n (drop c.at s.now)) s.now n radii result }
{
    let number = fields::read_number(s, c, (n + 7) / 8);
    let Ok((m, after)) = number else {
        return Err(number.unwrap_err());
    };
    if !sheet::bits_used(n, m) {
        return Err(Rule::KindBits);
    }
    Ok((
        Kinds {
            lines: m,
            circles: 0,
        },
        after,
    ))
}

// The kind of element i in its byte: two bits, four elements a byte, lowest bits first.
fn kind_in(b: u8, i: usize) -> u8
    ensures { result ≡ digit (2 * (i % 4)) b + 2 * digit (2 * (i % 4) + 1) b }
{
    (b >> (2 * (i % 4))) % 4
}

// The kind of element i, its number's bytes being at a place.
fn kind_of(s: &[u8], at: usize, i: usize) -> u8
    requires { at + i / 4 < length s.now }
    ensures { (n : ℕ) → i < n → at + (n + 3) / 4 ≤ length s.now → result ≡ get_or (round_kinds s.now at n) i 0 }
{
    kind_in(s[at + i / 4], i)
}

// Whether the kinds of n elements have no bit in the last byte above those of the last element: rule 4.
fn round_bits_used(s: &[u8], at: usize, n: usize) -> bool
    requires { (0 < n) × (at + (n + 3) / 4 ≤ length s.now) }
    ensures { result ≡ kind_bits_used Pf02 n (round_number s.now at n) }
{
    u64::from(s[at + (n - 1) / 4]) >> (2 * ((n - 1) % 4 + 1)) == 0
}

// The kinds of n elements as sets, from the last element down; there are none where a kind is 3, rule 18.
fn read_sets(s: &[u8], at: usize, n: usize) -> Option<Kinds>
    requires { (n ≤ 64) × (at + (n + 3) / 4 ≤ length s.now) }
    ensures { KindsOf (round_kinds s.now at n) result }
{
    let mut lines: u64 = 0;
    let mut circles: u64 = 0;
    for i in (0..n).rev() {
        let k = kind_of(s, at, i);
        if 3 <= k {
            return None;
        }
        lines = 2 * lines + u64::from(k == 1);
        circles = 2 * circles + u64::from(k == 2);
    }
    Some(Kinds { lines, circles })
}

// What stands of element i after the kinds: a circle's radius, by rule 19.
fn read_element(
    s: &[u8],
    c: Cursor,
    k: u8,
    i: usize,
    radii: &mut [u32; ELEMENTS],
) -> Result<Cursor, Rule>
    requires { i < 64 }
    ensures { ElementRead (element k (drop c.at s.now)) s.now i radii.old radii.new result }
{
    if k < 2 {
        return Ok(c);
    }
    let number = fields::read_number(s, c, 4);
    let Ok((v, after)) = number else {
        return Err(number.unwrap_err());
    };
    let r = v as u32;
    if !sheet::radius_in_range(r) {
        return Err(Rule::RadiusRange);
    }
    radii[i] = r;
    Ok(after)
}

// The radii after the kinds of n elements, in element order: rules 2 and 19.
fn read_radii(s: &[u8], at: usize, n: usize, radii: &mut [u32; ELEMENTS]) -> Result<Cursor, Rule>
    requires { (n ≤ 64) × (at + (n + 3) / 4 ≤ length s.now) }
    ensures { RadiiRead (round_kinds s.now at n) s.now (at + (n + 3) / 4) radii.new result }
{
    let mut c = Cursor {
        at: at + (n + 3) / 4,
    };
    for i in 0..n {
        let got = read_element(s, c, kind_of(s, at, i), i, radii);
        let Ok(after) = got else {
            return got;
        };
        c = after;
    }
    Ok(c)
}

// The elements under PF02: rules 2, 4 and 18 of the kinds, then the radii.
fn read_round(s: &[u8], c: Cursor, n: usize, radii: &mut [u32; ELEMENTS]) -> Read<Kinds>
    requires { (0 < n) × (n ≤ 64) }
    ensures { ElementsRead (elements_field Pf02 n (drop c.at s.now)) s.now n radii.new result }
{
    let at = c.at;
    if !fields::enough(s.len(), at, (n + 3) / 4) {
        return Err(Rule::CutShort);
    }
    if !round_bits_used(s, at, n) {
        return Err(Rule::KindBits);
    }
    let Some(kinds) = read_sets(s, at, n) else {
        return Err(Rule::UnknownKind);
    };
    let end = read_radii(s, at, n, radii);
    let Ok(after) = end else {
        return Err(end.unwrap_err());
    };
    Ok((kinds, after))
}

// The elements of a sheet: their kinds as sets, the radii of circles in a list.
pub fn read_elements(
    s: &[u8],
    c: Cursor,
    o: Opening,
    n: usize,
    radii: &mut [u32; ELEMENTS],
) -> Read<Kinds>
    requires { (0 < n) × (n ≤ 64) }
    ensures { ElementsRead (elements_field o n (drop c.at s.now)) s.now n radii.new result }
{
    match o {
        Opening::Pf01 => read_straight(s, c, n),
        Opening::Pf02 => read_round(s, c, n, radii),
    }
}
