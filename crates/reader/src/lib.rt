// The reader of a sheet: document 01, "The sheet in bytes" and "Refused", rules 1 to 10; document 02, 2026-01, rules 18 to 20.
// Each field read answers a value with the next cursor or the rule that refuses it. Contracts cite the decoding of
// the crate `sheet` and, for what an answer says, specs/Answers.antt.

#![tactic(auto)]

ghost use Rattle.std.specs.Prelude.{◌≡◌, List, [], ◌≤◌, ◌<◌, pos, length, drop, replicate, IfOk};
ghost use Rattle.sheet.specs.declared.Element.{Element};
ghost use Rattle.sheet.specs.declared.Constraint.{Constraint};
ghost use Rattle.sheet.specs.Facts.{kind_at};
ghost use Rattle.sheet.specs.Facts.Kinds.{KindsIn};
ghost use Rattle.sheet.specs.declared.Size.TheVariants.{Given};
ghost use Rattle.sheet.specs.Decode.{opening, size, dimension, constraint, constraints, read_sheet};
ghost use Rattle.sheet.specs.Noted.{Noted};
ghost use Rattle.graph.specs.Lent.{InArrays};
ghost use Rattle.theory.specs.Rule.{by_number};
ghost use Rattle.elements.specs.Fields.{as_field};
ghost use Rattle.reader.specs.Answers.{as_ends, code_in, tagged, dimension_by};
ghost use Rattle.reader.specs.Answers.{Fronted, SheetRead, GraphIs, ListRead, as_reading};

use elements::fields::{Cursor, Read};
use graph::{Front, Head};
use sheet::{Kind, Kinds, Opening, PairKind, Sheet, Size};
use theory::{CONSTRAINTS, ELEMENTS, Rule};

// The opening: rule 1.
fn read_opening(s: &[u8]) -> Read<Opening>
    ensures { as_field s.now result ≡ opening s.now }
{
    if s.starts_with(&sheet::OPENING) {
        return Ok((Opening::Pf01, Cursor { at: 4 }));
    }
    if s.starts_with(&sheet::ROUND_OPENING) {
        return Ok((Opening::Pf02, Cursor { at: 4 }));
    }
    Err(Rule::Opening)
}

// The two ends of a constraint after those noted, among n elements: rules 6 and 7.
fn read_ends(s: &[u8], c: Cursor, near: &[u64; ELEMENTS], n: usize) -> Read<(u8, u8)>
    requires { n ≤ 64 }
    ensures result_value { (es : List Element) (cs : List Constraint) → n ≡ length es → Noted near.now cs
        → as_ends es s.now result ≡ constraint es cs (drop c.at s.now) }
    ensures ascending { IfOk result (λ p. (p.0.0 < p.0.1) × (p.0.1 < n)) }
{
    let start = elements::fields::read_byte(s, c);
    let Ok((a, c1)) = start else {
        return Err(start.unwrap_err());
    };
    let end = elements::fields::read_byte(s, c1);
    let Ok((b, c2)) = end else {
        return Err(end.unwrap_err());
    };
    if !sheet::ends_ascend(n, a, b) {
        return Err(Rule::Ends);
    }
    if sheet::pair_stands(near, a, b) {
        return Err(Rule::PairTwice);
    }
    Ok(((a, b), c2))
}

// A size whose bit stands: rule 9.
fn read_size(s: &[u8], c: Cursor, p: PairKind) -> Read<i32>
    ensures { as_field s.now result ≡ code_in (size p (Given (pos 0)) (drop c.at s.now)) }
{
    let number = elements::fields::read_number(s, c, 4);
    let Ok((u, after)) = number else {
        return Err(number.unwrap_err());
    };
    let z = (u as u32).cast_signed();
    if !sheet::size_in_range(p, z) {
        return Err(Rule::SizeRange);
    }
    Ok((z, after))
}

// The tag after a size, where bit 1 of the map stands: twice the bit is how many bytes are passed over.
fn pass_tag(s: &[u8], c: Cursor, bit: bool, z: i32) -> Read<i32>
    ensures { as_field s.now result ≡ tagged z bit (drop c.at s.now) }
{
    let width = 2 * usize::from(bit);
    if s.len().saturating_sub(c.at) < width {
        return Err(Rule::CutShort);
    }
    Ok((z, Cursor { at: c.at + width }))
}

// The size that a map announces: only a given one has bytes.
fn read_announced(s: &[u8], c: Cursor, p: PairKind, z: Size) -> Read<i32>
    ensures { as_field s.now result ≡ code_in (size p z (drop c.at s.now)) }
{
    match z {
        Size::Given(_) => read_size(s, c, p),
        _ => Ok((graph::code_of(z), c)),
    }
}

// What follows a map: rules 8 and 20, the size, and the tag.
fn read_by(s: &[u8], c: Cursor, j: Kind, k: Kind, map: u8) -> Read<i32>
    ensures { as_field s.now result ≡ code_in (dimension_by j k map (drop c.at s.now)) }
{
    let size = sheet::size_by(map, 0);
    if !sheet::size_allowed(j, k, size) {
        return Err(Rule::SizeMap);
    }
    if !sheet::radii_differ(j, k, size) {
        return Err(Rule::EqualRadii);
    }
    let sized = read_announced(s, c, sheet::pair_of(j, k), size);
    let Ok((z, after)) = sized else {
        return sized;
    };
    pass_tag(s, after, map / 2 % 2 == 1, z)
}

// What follows the two ends: the bit map and the fields whose bit stands, by the kinds of the elements.
fn read_dimension(
    s: &[u8],
    c: Cursor,
    kinds: Kinds,
    radii: &[u32; ELEMENTS],
    a: u8,
    b: u8,
) -> Read<i32>
    requires { (a < 64) × (b < 64) }
    ensures { (es : List Element) → KindsIn es kinds radii.now
        → as_field s.now result ≡ code_in (dimension (kind_at es a) (kind_at es b) (drop c.at s.now)) }
{
    let third = elements::fields::read_byte(s, c);
    let Ok((map, c1)) = third else {
        return Err(third.unwrap_err());
    };
    let j = sheet::kind_at(kinds, radii, a);
    let k = sheet::kind_at(kinds, radii, b);
    read_by(s, c1, j, k, map)
}

// The constraints that a front counts, into arrays that were blank, and then the end of the bytes: rules 6 to 10 and 20. The ends are noted as soon
// as they are read, so that they need not be kept.
fn read_constraints(
    s: &[u8],
    from: Cursor,
    h: Front,
    radii: &[u32; ELEMENTS],
    near: &mut [u64; ELEMENTS],
    start: &mut [u64; CONSTRAINTS],
    codes: &mut [i32; CONSTRAINTS],
) -> Result<(), Rule>
    requires { (h.n ≤ 64) × (h.e ≤ 200) }
    ensures { (es : List Element) → h.n ≡ length es → KindsIn es h.kinds radii.now → InArrays [] near.old start.old codes.old
        → ListRead (constraints es h.e [] (drop from.at s.now)) result near.new start.new codes.new }
{
    let mut c = from;
    for i in 0..h.e {
        let ends = read_ends(s, c, near, h.n);
        let Ok(((a, b), c1)) = ends else {
            return Err(ends.unwrap_err());
        };
        graph::note_ends(near, start, i, a, b);
        let sized = read_dimension(s, c1, h.kinds, radii, a, b);
        let Ok((z, c2)) = sized else {
            return Err(sized.unwrap_err());
        };
        graph::note_code(codes, i, z);
        c = c2;
    }
    if c.at < s.len() {
        return Err(Rule::BytesLeft);
    }
    Ok(())
}

// All before the constraints: rules 1 to 5, 18 and 19.
fn read_front(s: &[u8], radii: &mut [u32; ELEMENTS]) -> Read<Front>
    ensures { Fronted (read_sheet s.now) s.now radii.new result }
{
    let first = read_opening(s);
    let Ok((opening, c1)) = first else {
        return Err(first.unwrap_err());
    };
    let count = elements::fields::read_byte(s, c1);
    let Ok((b, c2)) = count else {
        return Err(count.unwrap_err());
    };
    let n = usize::from(b);
    if !sheet::elements_in_range(n) {
        return Err(Rule::ElementCount);
    }
    let got = elements::read_elements(s, c2, opening, n, radii);
    let Ok((kinds, c3)) = got else {
        return Err(got.unwrap_err());
    };
    let listed = elements::fields::read_byte(s, c3);
    let Ok((k, c4)) = listed else {
        return Err(listed.unwrap_err());
    };
    let e = usize::from(k);
    if !sheet::constraints_in_range(e) {
        return Err(Rule::ConstraintCount);
    }
    let front = Front {
        opening,
        n,
        e,
        kinds,
    };
    Ok((front, c4))
}

// The sheet that any bytes stand for, in arrays that were blank and in the radii, or the rule that refuses them.
pub fn read_codes(
    s: &[u8],
    near: &mut [u64; ELEMENTS],
    start: &mut [u64; CONSTRAINTS],
    codes: &mut [i32; CONSTRAINTS],
    radii: &mut [u32; ELEMENTS],
) -> Result<Front, Rule>
    requires { (near.old ≡ replicate 64 0) × (start.old ≡ replicate 200 0) × (codes.old ≡ replicate 200 (pos 0)) × (length radii.old ≡ 64) }
    ensures { SheetRead (read_sheet s.now) result near.new start.new codes.new radii.new }
{
    let (h, c) = read_front(s, radii)?;
    read_constraints(s, c, h, radii, near, start, codes)?;
    Ok(h)
}

// The constraint graph of the sheet that any bytes stand for, in arrays that were blank, or the rule that refuses them.
pub fn read_graph(
    s: &[u8],
    near: &mut [u64; ELEMENTS],
    start: &mut [u64; CONSTRAINTS],
    sizes: &mut [i32; CONSTRAINTS],
) -> Result<Head, Rule>
    requires { (near.old ≡ replicate 64 0) × (start.old ≡ replicate 200 0) × (sizes.old ≡ replicate 200 (pos 0)) }
    ensures { GraphIs (read_sheet s.now) result near.new start.new sizes.new }
{
    let mut radii = [0u32; ELEMENTS];
    let h = read_codes(s, near, start, sizes, &mut radii)?;
    if h.kinds.circles != 0 {
        graph::measure(h, start, sizes, &radii);
    }
    Ok(graph::head_of(h))
}

// The sheet that any bytes stand for, or the rule that refuses them.
pub fn read_sheet(s: &[u8]) -> Result<Sheet, Rule>
    ensures { by_number result ≡ as_reading (read_sheet s.now) }
{
    let mut near = [0u64; ELEMENTS];
    let mut start = [0u64; CONSTRAINTS];
    let mut codes = [0i32; CONSTRAINTS];
    let mut radii = [0u32; ELEMENTS];
    let h = read_codes(s, &mut near, &mut start, &mut codes, &mut radii)?;
    Ok(graph::sheet_of(h, &start, &codes, &radii))
}
