// The writer of a sheet: document 01, "The sheet in bytes" and "Refused". Each function puts its bytes from a place on and answers the place after
// them; a call over no space measures. Contracts cite the encoding of the crate `sheet`, `Put` of `space`, and specs/Write.antt.

#![tactic(auto)]

ghost use Rattle.std.specs.Prelude.{◌≡◌, ℕ, List, ◌∷◌, ◌++◌, true, ◌+◌, ◌-◌, ◌≤◌, ◌<◌, ◌^◌, min, length, take, drop, get_or};
ghost use Rattle.theory.specs.Rule.{by_number};
ghost use Rattle.sheet.specs.Facts.{kind_base, kind_digit, kinds_number, facts_of};
ghost use Rattle.sheet.specs.Field.{digits, kind_bytes as kindBytesOf, opening_bytes as openingBytesOf};
ghost use Rattle.sheet.specs.Encode.{radius_bytes, radii_bytes, map_of as mapOfSize, size_bytes, constraint_bytes, sheet_bytes};
ghost use Rattle.sheet.specs.Rules.{kinds_allowed, sheet_fault};
ghost use Rattle.sheet.specs.WithoutTags.{before as bytesBefore, without_tags};
ghost use Rattle.space.specs.Space.{Put, answer, after};
ghost use Rattle.sheet.specs.Answer.{Answers};
ghost use Rattle.writer.specs.Spread.{kinds_in_eight as kindsInEightOf, Spread};
ghost use Rattle.writer.specs.Write.{write_field};

use sheet::{Constraint, Element, Kind, Opening, Sheet, Size};
use theory::Rule;

// No written sheet has more bytes.
pub const MOST_BYTES: usize = 1678;

// The kinds of a sheet's elements in two numbers: those that eight bytes hold, and those after them.
#[derive(Clone, Copy)]
struct KindNumbers {
    low: u64,
    high: u64,
}

// The bit map of a constraint.
fn map_of(size: Size) -> u8
    ensures { result ≡ mapOfSize size }
{
    match size {
        Size::Given(_) => 1,
        Size::Missing | Size::Unfit => 0,
        Size::Tangent => 4,
        Size::OtherTangent => 12,
    }
}

fn put_size(out: &mut [u8], at: usize, size: Size) -> usize
    requires { at + 4 < 2 ^ 64 }
    ensures { Put out.old at (size_bytes size) result out.new }
{
    match size {
        Size::Given(z) => space::put_text(out, at, &z.to_le_bytes()),
        Size::Missing | Size::Tangent | Size::OtherTangent | Size::Unfit => at,
    }
}

// First end, second end, bit map, then the size where its bit stands.
fn put_constraint(out: &mut [u8], at: usize, c: Constraint) -> usize
    requires { at + 7 < 2 ^ 64 }
    ensures { Put out.old at (constraint_bytes c) result out.new }
{
    let next = space::put_text(out, at, &[c.first, c.second, map_of(c.size)]);
    put_size(out, next, c.size)
}

// ---- the elements

fn opening_bytes(o: Opening) -> [u8; 4]
    ensures { result ≡ openingBytesOf o }
{
    match o {
        Opening::Pf01 => sheet::OPENING,
        Opening::Pf02 => sheet::ROUND_OPENING,
    }
}

fn kind_base(o: Opening) -> u64
    ensures { result ≡ kind_base o }
{
    match o {
        Opening::Pf01 => 2,
        Opening::Pf02 => 4,
    }
}

fn kind_digit(k: Kind) -> u64
    ensures { result ≡ kind_digit k }
{
    match k {
        Kind::Point => 0,
        Kind::Line => 1,
        Kind::Circle(_) => 2,
    }
}

// How many kinds eight bytes hold.
fn kinds_in_eight(o: Opening) -> usize
    ensures { result ≡ kindsInEightOf o }
{
    match o {
        Opening::Pf01 => 64,
        Opening::Pf02 => 32,
    }
}

// How many bytes hold n kinds.
fn kind_bytes(o: Opening, n: usize) -> usize
    requires { n ≤ 64 }
    ensures { result ≡ kindBytesOf o n }
{
    match o {
        Opening::Pf01 => (n + 7) / 8,
        Opening::Pf02 => (n + 3) / 4,
    }
}

// The kinds of elements as one number, the first its lowest digit.
fn kinds_number(o: Opening, elements: &[Element]) -> u64
    requires { (length elements.now ≤ kindsInEightOf o) × (kinds_allowed o elements.now ≡ true) }
    ensures { result ≡ kinds_number o elements.now }
{
    let base = kind_base(o);
    let mut u = 0;
    for x in elements.iter().rev() {
        u = base * u + kind_digit(x.kind);
    }
    u
}

// The kinds of a sheet's elements in two numbers.
fn kind_numbers(s: &Sheet) -> KindNumbers
    requires { (s.now.n ≤ 64) × (kinds_allowed s.now.opening (facts_of s.now).elements ≡ true) }
    ensures { Spread s.now.opening (facts_of s.now).elements result }
{
    let o = s.opening;
    let elements = &s.elements[..s.n];
    let (low, high) = elements.split_at(elements.len().min(kinds_in_eight(o)));
    KindNumbers {
        low: kinds_number(o, low),
        high: kinds_number(o, high),
    }
}

// The first k bytes of a number, lowest first.
fn put_number(out: &mut [u8], at: usize, k: usize, u: u64) -> usize
    requires { (at + k < 2 ^ 64) × (k ≤ 8) }
    ensures { Put out.old at (digits k u) result out.new }
{
    space::put_text(out, at, &u.to_le_bytes()[..k])
}

// The kinds of n elements.
fn put_kinds(out: &mut [u8], at: usize, o: Opening, n: usize, kinds: KindNumbers) -> usize
    requires { (at + 32 < 2 ^ 64) × (n ≤ 64) }
    ensures { Put out.old at
        (digits (kindBytesOf o (min n (kindsInEightOf o))) kinds.low ++ digits (kindBytesOf o (n - min n (kindsInEightOf o))) kinds.high) result
        out.new }
{
    let split = n.min(kinds_in_eight(o));
    let next = put_number(out, at, kind_bytes(o, split), kinds.low);
    put_number(out, next, kind_bytes(o, n - split), kinds.high)
}

// The radius of a circle.
fn put_radius(out: &mut [u8], at: usize, k: Kind) -> usize
    requires { at + 4 < 2 ^ 64 }
    ensures { Put out.old at (radius_bytes k) result out.new }
{
    match k {
        Kind::Point | Kind::Line => at,
        Kind::Circle(r) => space::put_text(out, at, &r.to_le_bytes()),
    }
}

// The radii of the circles among the elements: PF01 has no circles.
fn put_radii(out: &mut [u8], at: usize, o: Opening, elements: &[Element]) -> usize
    requires { (at + 260 < 2 ^ 64) × (length elements.now ≤ 64) × (kinds_allowed o elements.now ≡ true) }
    ensures { Put out.old at (radii_bytes elements.now) result out.new }
{
    if let Opening::Pf01 = o {
        return at;
    }
    let mut next = at;
    for x in elements {
        next = put_radius(out, next, x.kind);
    }
    next
}

// ---- the sheet

// The opening, the count of elements, their kinds and their radii.
fn put_front(out: &mut [u8], o: Opening, elements: &[Element], kinds: KindNumbers) -> usize
    requires { (length elements.now ≤ 64) × (kinds_allowed o elements.now ≡ true) × Spread o elements.now kinds }
    ensures { Put out.old 0
        (openingBytesOf o ++ (length elements.now ∷ digits (kindBytesOf o (length elements.now)) (kinds_number o elements.now)
        ++ radii_bytes elements.now)) result out.new }
{
    let n = elements.len();
    let at = space::put_text(out, 0, &opening_bytes(o));
    let at = space::put_item(out, at, n as u8);
    let at = put_kinds(out, at, o, n, kinds);
    put_radii(out, at, o, elements)
}

// The sheet's bytes from the front, by the numbers of its kinds.
fn put_sheet(out: &mut [u8], s: &Sheet, kinds: KindNumbers) -> usize
    requires { (s.now.n ≤ 64) × (s.now.e ≤ 200) × (kinds_allowed s.now.opening (facts_of s.now).elements ≡ true)
        × Spread s.now.opening (facts_of s.now).elements kinds }
    ensures { Put out.old 0 (sheet_bytes (facts_of s.now)) result out.new }
{
    let e = s.e;
    let front = put_front(out, s.opening, &s.elements[..s.n], kinds);
    let mut at = space::put_item(out, front, e as u8);
    for c in &s.constraints[..e] {
        at = put_constraint(out, at, *c);
    }
    at
}

// All that a function puts from the front, or 17: a run over no space measures first, unless there is space for the most that it puts.
fn put_whole<F: Fn(&mut [u8]) -> usize>(out: &mut [u8], most: usize, put: F) -> Result<usize, Rule>
    requires { F.IsAlwaysCallable put }
    ensures { (items : List ℕ) → length items ≤ most → ((p : _) (r : _) (q : _) → F.post put p r q → Put p.now 0 items r q.now)
        → (by_number result ≡ answer items out.old) × (out.new ≡ after items out.old) }
{
    if out.len() < most {
        let needed = put(&mut out[..0]);
        if out.len() < needed {
            return Err(Rule::NoRoom);
        }
    }
    Ok(put(out))
}

// The facts in their blocks as bytes, where no rule refuses them: space for the largest sheet needs no measuring.
pub fn write_accepted(s: Sheet, out: &mut [u8]) -> Result<usize, Rule>
    requires { sheet_fault s ≡ 0 }
    ensures { (by_number result ≡ answer (sheet_bytes (facts_of s)) out.old)
        × (out.new ≡ after (sheet_bytes (facts_of s)) out.old) }
{
    let kinds = kind_numbers(&s);
    put_whole(out, MOST_BYTES, |space| put_sheet(space, &s, kinds))
}

// The facts in their blocks as bytes, or the first rule that refuses them.
pub fn write_sheet(s: Sheet, out: &mut [u8]) -> Result<usize, Rule>
    ensures { Answers (write_field s) out.old (by_number result) out.new }
{
    sheet::check_sheet(s)?;
    write_accepted(s, out)
}

// ---- a sheet's bytes without their tags

// What stands from a place on up to the bit map of a constraint with a tag, the map without bit 1, and the size.
fn put_tagged(out: &mut [u8], to: usize, s: &[u8], from: usize, at: usize, size: usize) -> usize
    requires { (to ≤ from) × (from ≤ at) × (at + 3 ≤ length s.now) × (2 ≤ get_or s.now (at + 2) 0) × (size ≤ 4) }
    ensures { Put out.old to
        (take (at + 2 - from) (drop from s.now) ++ (get_or s.now (at + 2) 0 - 2) ∷ take size (drop (at + 3) s.now)) result
        out.new }
{
    let map = at + 2;
    let first = at + 3;
    let last = s.len().min(first + size);
    let to = space::put_text(out, to, &s[from..map]);
    let to = space::put_item(out, to, s[map] - 2);
    space::put_text(out, to, &s[first..last])
}

// The bytes with bit 1 of each map clear and the tags gone: what stands between two tags in one piece. head bytes precede the constraints.
fn put_untagged(out: &mut [u8], s: &[u8], head: usize) -> usize
    requires { head ≡ bytesBefore s.now }
    ensures { Put out.old 0 (without_tags s.now) result out.new }
{
    let e = usize::from(s.get(head - 1).copied().unwrap_or(0));
    let mut at = head;
    let mut from = 0;
    let mut to = 0;
    for _ in 0..e {
        if s.len() < at + 3 {
            break;
        }
        let map = s[at + 2];
        let size = 4 * usize::from(map % 2);
        if (map / 2) % 2 == 1 {
            to = put_tagged(out, to, s, from, at, size);
            from = s.len().min(at + 5 + size);
            at = from;
        } else {
            at += 3 + size;
        }
    }
    space::put_text(out, to, &s[from..])
}

// A sheet's bytes without their tags, by how many precede its constraints: space for all of them needs no measuring.
pub fn write_untagged(s: &[u8], head: usize, out: &mut [u8]) -> Result<usize, Rule>
    requires { head ≡ bytesBefore s.now }
    ensures { (by_number result ≡ answer (without_tags s.now) out.old)
        × (out.new ≡ after (without_tags s.now) out.old) }
{
    put_whole(out, s.len(), |space| put_untagged(space, s, head))
}
