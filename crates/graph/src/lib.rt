// The constraint graph of a sheet in lent arrays of numbers: its adjacency, for each element the set of the elements
// that it is constrained with; start, the initial clusters; sizes. A sheet by value is packed into them and out again.
// Contracts cite this crate's specs.

#![tactic(auto)]

ghost use Rattle.std.specs.Prelude.{◌≡◌, List, ◌∷◌, [], ◌++◌, ℕ, ◌<◌, ◌≤◌, pos, length, replicate};
ghost use Rattle.theory.specs.Constraints.{pair};
ghost use Rattle.sheet.specs.Facts.{Facts, radius_of, facts_of, sheet_of};
ghost use Rattle.sheet.specs.Rules.{sheet_fault};
ghost use Rattle.sheet.specs.Graph.{size_of};
ghost use Rattle.graph.specs.Lent.{head_in, code_of, Fits, InArrays, EndsIn, CodesIn, SheetIn, sizes_of, Packed, Unpacks};

use sheet::{Constraint, Kind, Kinds, Opening, Sheet, Size};
use theory::{CONSTRAINTS, ELEMENTS};

// What judging asks of a sheet beside its constraints: the count of its elements, the count of its constraints, and its lines as one number.
#[derive(Clone, Copy)]
pub struct Head {
    pub n: usize,
    pub e: usize,
    pub lines: u64,
}

// All that a sheet has beside its constraints and its radii.
#[derive(Clone, Copy)]
pub struct Front {
    pub opening: Opening,
    pub n: usize,
    pub e: usize,
    pub kinds: Kinds,
}

// The number of a contact, which no size is.
const TANGENT: i32 = 100000;

const OTHER_TANGENT: i32 = -100000;

pub fn head_of(h: Front) -> Head
    ensures { result ≡ head_in h }
{
    Head {
        n: h.n,
        e: h.e,
        lines: h.kinds.lines,
    }
}

// A size as one number, 0 for a missing one.
pub fn code_of(size: Size) -> i32
    ensures { result ≡ code_of size }
{
    match size {
        Size::Given(z) => z,
        Size::Missing | Size::Unfit => 0,
        Size::Tangent => TANGENT,
        Size::OtherTangent => OTHER_TANGENT,
    }
}

// The size of that number.
fn size_from(code: i32) -> Size
    ensures { (s : Size) → Fits s → code_of s ≡ code → result ≡ s }
{
    match code {
        0 => Size::Missing,
        TANGENT => Size::Tangent,
        OTHER_TANGENT => Size::OtherTangent,
        _ => Size::Given(code),
    }
}

// Notes the ends a and b of constraint i.
pub fn note_ends(near: &mut [u64; ELEMENTS], start: &mut [u64; CONSTRAINTS], i: usize, a: u8, b: u8)
    requires { (i < 200) × (a < b) × (b < 64) }
    ensures { (cs : List Constraint) (c : Constraint) → length cs ≡ i → c.first ≡ a → c.second ≡ b
        → EndsIn cs near.old start.old → EndsIn (cs ++ c ∷ []) near.new start.new }
{
    sheet::note_pair(near, a, b);
    start[i] = sets::pair(a, b);
}

// Notes the number z of the size of constraint i.
pub fn note_code(codes: &mut [i32; CONSTRAINTS], i: usize, z: i32)
    requires { i < 200 }
    ensures { (cs : List Constraint) (c : Constraint) → length cs ≡ i → code_of c.size ≡ z
        → CodesIn cs codes.old → CodesIn (cs ++ c ∷ []) codes.new }
{
    codes[i] = z;
}

// Notes constraint i, between a and b; z is the number of its size.
pub fn note(
    near: &mut [u64; ELEMENTS],
    start: &mut [u64; CONSTRAINTS],
    codes: &mut [i32; CONSTRAINTS],
    i: usize,
    a: u8,
    b: u8,
    z: i32,
)
    requires { (i < 200) × (a < b) × (b < 64) }
    ensures { (cs : List Constraint) (c : Constraint) → length cs ≡ i → Packed c a b z
        → InArrays cs near.old start.old codes.old
        → InArrays (cs ++ c ∷ []) near.new start.new codes.new }
{
    note_ends(near, start, i, a, b);
    note_code(codes, i, z);
}

// The constraints of a sheet, in arrays that were blank, and its radii.
pub fn fill(
    s: Sheet,
    near: &mut [u64; ELEMENTS],
    start: &mut [u64; CONSTRAINTS],
    codes: &mut [i32; CONSTRAINTS],
    radii: &mut [u32; ELEMENTS],
) -> Front
    requires { (sheet_fault s ≡ 0) × (near.old ≡ replicate 64 0) × (start.old ≡ replicate 200 0) × (codes.old ≡ replicate 200 (pos 0))
        × (length radii.old ≡ 64) }
    ensures { SheetIn (facts_of s) result near.new start.new codes.new radii.new }
{
    for i in 0..s.e {
        let c = s.constraints[i];
        note(near, start, codes, i, c.first, c.second, code_of(c.size));
    }
    let elements = &s.elements[..s.n];
    Front {
        opening: s.opening,
        n: s.n,
        e: s.e,
        kinds: sheet::kinds_of(elements, radii),
    }
}

// The constraint between the two elements of a set, its size by its number.
fn constraint_in(m: u64, code: i32) -> Constraint
    ensures { (c : Constraint) → Unpacks c → m ≡ pair c.first c.second → code_of c.size ≡ code → result ≡ c }
{
    Constraint {
        first: m.trailing_zeros() as u8,
        second: m.checked_ilog2().unwrap_or(0) as u8,
        size: size_from(code),
    }
}

// The sheet whose facts stand in the arrays.
pub fn sheet_of(
    h: Front,
    start: &[u64; CONSTRAINTS],
    codes: &[i32; CONSTRAINTS],
    radii: &[u32; ELEMENTS],
) -> Sheet
    requires { (h.n ≤ 64) × (h.e ≤ 200) }
    ensures { (f : Facts) (near : List ℕ) → SheetIn f h near start.now codes.now radii.now
        → result ≡ sheet_of f }
{
    let none = Constraint {
        first: 0,
        second: 0,
        size: Size::Missing,
    };
    let mut constraints = [none; CONSTRAINTS];
    let Front {
        opening,
        n,
        e,
        kinds,
    } = h;
    for i in 0..e {
        constraints[i] = constraint_in(start[i], codes[i]);
    }
    Sheet {
        opening,
        n,
        e,
        elements: sheet::elements_of(n, kinds, radii),
        constraints,
    }
}

// ---- the sketch of the centres

// The size of a constraint between elements of two kinds.
fn size_of(j: Kind, k: Kind, size: Size) -> i32
    requires { (radius_of j ≤ 40000) × (radius_of k ≤ 40000) }
    ensures { result ≡ size_of j k size }
{
    let r = sheet::radius_of(j);
    let q = sheet::radius_of(k);
    match size {
        Size::Given(z) => z,
        Size::Missing | Size::Unfit => 0,
        Size::Tangent => (r + q) as i32,
        Size::OtherTangent if sheet::is_circle(j) && sheet::is_circle(k) => r.abs_diff(q) as i32,
        Size::OtherTangent => -((r + q) as i32),
    }
}

// The sizes of a sheet's graph in the place of their numbers.
pub fn measure(
    h: Front,
    start: &[u64; CONSTRAINTS],
    sizes: &mut [i32; CONSTRAINTS],
    radii: &[u32; ELEMENTS],
)
    requires { (f : Facts) × (near : List ℕ) × SheetIn f h near start.now sizes.old radii.now }
    ensures { (f : Facts) (near : List ℕ) → SheetIn f h near start.now sizes.old radii.now
        → sizes.new ≡ sizes_of f }
{
    for i in 0..h.e {
        let c = constraint_in(start[i], sizes[i]);
        let j = sheet::kind_at(h.kinds, radii, c.first);
        let k = sheet::kind_at(h.kinds, radii, c.second);
        sizes[i] = size_of(j, k, c.size);
    }
}
