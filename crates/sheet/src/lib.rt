// The facts of a pattern sheet, and the rules that refuse them: document 01, "The sheet in bytes" and "Refused".
// Reader, writer and sketch share the rules here; contracts cite the definitions of specs/Rules.antt.

#![tactic(auto)]

ghost use Rattle.std.specs.Prelude.{◌≡◌, ◌&&◌, ◌||◌, List, [], ◌∷◌, ◌++◌, ◌^◌, ◌<◌, ◌≤◌, not, eqb, ltb, length};
ghost use Rattle.theory.specs.Set.{at};
ghost use Rattle.theory.specs.Block.{block};
ghost use Rattle.theory.specs.Rule.{refusal};
ghost use Rattle.sheet.specs.Facts.{is_point, is_line, is_circle, radius_of, blank_element};
ghost use Rattle.sheet.specs.Facts.Kinds.{circles_of, kind_in, KindsIn};
ghost use Rattle.sheet.specs.Rules.{elements_in_range, kinds_allowed, radius_in_range, radii_in_range, constraints_in_range, ends_ascend, stands};
ghost use Rattle.sheet.specs.Rules.{pair_by, pair_of, size_optional, size_by, size_allowed, radii_differ, size_in_range};
ghost use Rattle.sheet.specs.Rules.{range_fault, size_fault, constraint_fault, constraints_fault, sheet_fault};
ghost use Rattle.sheet.specs.Noted.{Noted};

use theory::{CONSTRAINTS, ELEMENTS, Rule};

// The four bytes that open a sheet.
pub const OPENING: [u8; 4] = *b"PF01";

// Those that open a sheet with circles.
pub const ROUND_OPENING: [u8; 4] = *b"PF02";

#[derive(Clone, Copy)]
pub enum Opening {
    Pf01,
    Pf02,
}

// A circle has its radius.
#[derive(Clone, Copy)]
pub enum Kind {
    Point,
    Line,
    Circle(u32),
}

#[derive(Clone, Copy)]
pub struct Element {
    pub kind: Kind,
}

// A size, or a contact that stands for one: tangent, or the other contact. What is unfit is a map that no pair takes.
#[derive(Clone, Copy)]
pub enum Size {
    Given(i32),
    Missing,
    Tangent,
    OtherTangent,
    Unfit,
}

#[derive(Clone, Copy)]
pub struct Constraint {
    pub first: u8,
    pub second: u8,
    pub size: Size,
}

// Places beyond the counts n and e have no influence.
#[derive(Clone, Copy)]
pub struct Sheet {
    pub opening: Opening,
    pub n: usize,
    pub e: usize,
    pub elements: [Element; ELEMENTS],
    pub constraints: [Constraint; CONSTRAINTS],
}

// The kinds of a constraint's two ends, a circle counted as its centre.
#[derive(Clone, Copy)]
pub enum PairKind {
    Points,
    PointLine,
    Lines,
}

// The lines and the circles among a sheet's elements, as sets.
#[derive(Clone, Copy)]
pub struct Kinds {
    pub lines: u64,
    pub circles: u64,
}

// Rule 3.
pub fn elements_in_range(n: usize) -> bool
    ensures { result ≡ elements_in_range n }
{
    (2..=ELEMENTS).contains(&n)
}

// Whether a number has no bit from n on: rule 4.
pub fn bits_used(n: usize, m: u64) -> bool
    requires { n ≤ 64 }
    ensures { result ≡ ltb m (2 ^ n) }
{
    n >= 64 || m < 1 << n
}

// Rule 19.
pub fn radius_in_range(r: u32) -> bool
    ensures { result ≡ radius_in_range r }
{
    (1..=40000).contains(&r)
}

// Rule 5.
pub fn constraints_in_range(e: usize) -> bool
    ensures { result ≡ constraints_in_range e }
{
    e <= CONSTRAINTS
}

// Rule 6.
pub fn ends_ascend(n: usize, a: u8, b: u8) -> bool
    ensures { result ≡ ends_ascend n a b }
{
    a < b && usize::from(b) < n
}

fn is_point(k: Kind) -> bool
    ensures { result ≡ is_point k }
{
    matches!(k, Kind::Point)
}

fn is_line(k: Kind) -> bool
    ensures { result ≡ is_line k }
{
    matches!(k, Kind::Line)
}

pub fn is_circle(k: Kind) -> bool
    ensures { result ≡ is_circle k }
{
    matches!(k, Kind::Circle(_))
}

// The radius of a circle, 0 of another element.
pub fn radius_of(k: Kind) -> u32
    ensures { result ≡ radius_of k }
{
    match k {
        Kind::Point | Kind::Line => 0,
        Kind::Circle(r) => r,
    }
}

// The kinds of a pair, by whether each is a line.
fn pair_by(j: bool, k: bool) -> PairKind
    ensures { result ≡ pair_by j k }
{
    match (j, k) {
        (false, false) => PairKind::Points,
        (true, true) => PairKind::Lines,
        _ => PairKind::PointLine,
    }
}

// The kinds of a pair.
pub fn pair_of(j: Kind, k: Kind) -> PairKind
    ensures { result ≡ pair_of j k }
{
    pair_by(is_line(j), is_line(k))
}

// Whether a size may be missing.
fn size_optional(p: PairKind) -> bool
    ensures { result ≡ size_optional p }
{
    matches!(p, PairKind::PointLine)
}

// What a bit map says, z being the size where bit 0 stands.
#[tactic(auto, unfolding(crate::specs::Rules::size_by))]
pub fn size_by(map: u8, z: i32) -> Size
    ensures { result ≡ size_by map z }
{
    match map - 2 * (map / 2 % 2) {
        0 => Size::Missing,
        1 => Size::Given(z),
        4 => Size::Tangent,
        12 => Size::OtherTangent,
        _ => Size::Unfit,
    }
}

// Whether one of two is a circle.
fn some_circle(j: Kind, k: Kind) -> bool
    ensures { result ≡ is_circle j || is_circle k }
{
    is_circle(j) || is_circle(k)
}

// Whether one of two is a point.
fn some_point(j: Kind, k: Kind) -> bool
    ensures { result ≡ is_point j || is_point k }
{
    is_point(j) || is_point(k)
}

// Rule 8, of a size or a contact.
pub fn size_allowed(j: Kind, k: Kind, size: Size) -> bool
    ensures { result ≡ size_allowed j k size }
{
    match size {
        Size::Given(_) => true,
        Size::Missing => size_optional(pair_of(j, k)),
        Size::Tangent => some_circle(j, k),
        Size::OtherTangent => some_circle(j, k) && !some_point(j, k),
        Size::Unfit => false,
    }
}

// Whether two are circles of one radius.
fn same_radii(j: Kind, k: Kind) -> bool
    ensures { result ≡ is_circle j && is_circle k && eqb (radius_of j) (radius_of k) }
{
    is_circle(j) && is_circle(k) && radius_of(j) == radius_of(k)
}

// Rule 20.
pub fn radii_differ(j: Kind, k: Kind, size: Size) -> bool
    ensures { result ≡ radii_differ j k size }
{
    !matches!(size, Size::OtherTangent) || !same_radii(j, k)
}

// Rule 9.
pub fn size_in_range(p: PairKind, z: i32) -> bool
    ensures { result ≡ size_in_range p z }
{
    match p {
        PairKind::Points => (1..=40000).contains(&z),
        PairKind::PointLine => (-40000..=-1).contains(&z) || (1..=40000).contains(&z),
        PairKind::Lines => (-17999..=-1).contains(&z) || (1..=17999).contains(&z),
    }
}

// Rule 9, of a size that is given.
fn check_range(p: PairKind, size: Size) -> Result<(), Rule>
    ensures { refusal result ≡ range_fault p size }
{
    match size {
        Size::Given(z) if !size_in_range(p, z) => Err(Rule::SizeRange),
        _ => Ok(()),
    }
}

// Rules 8, 20 and 9 between elements of two kinds.
fn check_size(j: Kind, k: Kind, size: Size) -> Result<(), Rule>
    ensures { refusal result ≡ size_fault j k size }
{
    if !size_allowed(j, k, size) {
        return Err(Rule::SizeMap);
    }
    if !radii_differ(j, k, size) {
        return Err(Rule::EqualRadii);
    }
    check_range(pair_of(j, k), size)
}

// Whether element i is in a set.
fn has(set: u64, i: u8) -> bool
    requires { i < 64 }
    ensures { result ≡ eqb (at i set) 1 }
{
    (set >> i) % 2 == 1
}

// The kind of element i, by the sets of lines and circles and the radii.
pub fn kind_at(kinds: Kinds, radii: &[u32; ELEMENTS], i: u8) -> Kind
    requires { i < 64 }
    ensures { result ≡ kind_in kinds radii.now i }
{
    if has(kinds.circles, i) {
        Kind::Circle(radii[usize::from(i)])
    } else if has(kinds.lines, i) {
        Kind::Line
    } else {
        Kind::Point
    }
}

// The elements by their kinds in numbers.
pub fn elements_of(n: usize, kinds: Kinds, radii: &[u32; ELEMENTS]) -> [Element; ELEMENTS]
    requires { n ≤ 64 }
    ensures { (es : List Element) → length es ≡ n → KindsIn es kinds radii.now → result ≡ block 64 blank_element es }
{
    let mut elements = [Element { kind: Kind::Point }; ELEMENTS];
    for i in 0..n {
        elements[i] = Element {
            kind: kind_at(kinds, radii, i as u8),
        };
    }
    elements
}

// The kinds of the elements in numbers.
pub fn kinds_of(elements: &[Element], radii: &mut [u32; ELEMENTS]) -> Kinds
    requires { length elements.now ≤ 64 }
    ensures { KindsIn elements.now result radii.new }
{
    let mut lines = 0;
    let mut circles = 0;
    for i in (0..elements.len()).rev() {
        let kind = elements[i].kind;
        lines = 2 * lines + u64::from(is_line(kind));
        circles = 2 * circles + u64::from(is_circle(kind));
        radii[i] = radius_of(kind);
    }
    Kinds { lines, circles }
}

// Whether the radius is in range where the element has one.
fn radius_allowed(k: Kind) -> bool
    ensures { result ≡ not (is_circle k) || radius_in_range (radius_of k) }
{
    match k {
        Kind::Point | Kind::Line => true,
        Kind::Circle(r) => radius_in_range(r),
    }
}

// Whether the radii of the elements are in range.
fn radii_in_range(elements: &[Element]) -> bool
    ensures { result ≡ radii_in_range elements.now }
{
    elements.iter().all(|x| radius_allowed(x.kind))
}

// Whether the opening allows these circles: the writer's rule 18.
fn circles_allowed(o: Opening, circles: u64) -> bool
    ensures { (es : List Element) → circles ≡ circles_of es → result ≡ kinds_allowed o es }
{
    match o {
        Opening::Pf01 => circles == 0,
        Opening::Pf02 => true,
    }
}

// Rule 7: whether the pair is noted. near[x] has bit y for each noted constraint between x and y.
pub fn pair_stands(near: &[u64; ELEMENTS], a: u8, b: u8) -> bool
    requires { (a < b) × (b < 64) }
    ensures { (cs : List Constraint) → Noted near.now cs → result ≡ stands cs a b }
{
    (near[usize::from(a)] >> b) % 2 == 1
}

// Notes the pair of a constraint, at both ends.
pub fn note_pair(near: &mut [u64; ELEMENTS], a: u8, b: u8)
    requires { (a < b) × (b < 64) }
    ensures { (cs : List Constraint) (c : Constraint) → c.first ≡ a → c.second ≡ b → Noted near.old cs
        → Noted near.new (cs ++ c ∷ []) }
{
    near[usize::from(a)] |= 1 << b;
    near[usize::from(b)] |= 1 << a;
}

// Rules 6 to 9 and 20 of one constraint after those noted.
pub fn check_constraint(
    near: &[u64; ELEMENTS],
    n: usize,
    kinds: Kinds,
    radii: &[u32; ELEMENTS],
    c: Constraint,
) -> Result<(), Rule>
    requires { n ≤ 64 }
    ensures { (es : List Element) (cs : List Constraint) → n ≡ length es → KindsIn es kinds radii.now
        → Noted near.now cs → refusal result ≡ constraint_fault es cs c }
{
    if !ends_ascend(n, c.first, c.second) {
        return Err(Rule::Ends);
    }
    if pair_stands(near, c.first, c.second) {
        return Err(Rule::PairTwice);
    }
    check_size(
        kind_at(kinds, radii, c.first),
        kind_at(kinds, radii, c.second),
        c.size,
    )
}

// Rules 6 to 9 and 20 of constraints between n elements: the first that refuses one of them.
fn check_constraints(
    cs: &[Constraint],
    n: usize,
    kinds: Kinds,
    radii: &[u32; ELEMENTS],
) -> Result<(), Rule>
    requires { (n ≤ 64) × ((es : List Element) × (n ≡ length es) × KindsIn es kinds radii.now) }
    ensures { (es : List Element) → n ≡ length es → KindsIn es kinds radii.now → refusal result ≡ constraints_fault es [] cs.now }
{
    let mut near = [0; ELEMENTS];
    for &c in cs {
        check_constraint(&near, n, kinds, radii, c)?;
        note_pair(&mut near, c.first, c.second);
    }
    Ok(())
}

// Rules 3, 18, 19, 5, 6 to 9 and 20 of a sheet's facts: the first that refuses them.
pub fn check_sheet(s: Sheet) -> Result<(), Rule>
    ensures { refusal result ≡ sheet_fault s }
{
    if !elements_in_range(s.n) {
        return Err(Rule::ElementCount);
    }
    let elements = &s.elements[..s.n];
    let mut radii = [0; ELEMENTS];
    let kinds = kinds_of(elements, &mut radii);
    if !circles_allowed(s.opening, kinds.circles) {
        return Err(Rule::UnknownKind);
    }
    if !radii_in_range(elements) {
        return Err(Rule::RadiusRange);
    }
    if !constraints_in_range(s.e) {
        return Err(Rule::ConstraintCount);
    }
    check_constraints(&s.constraints[..s.e], s.n, kinds, &radii)
}
