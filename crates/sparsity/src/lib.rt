// The search for a set with too many constraints (document 01, "Verdict names: over") by the pebble game for the Laman
// count 2m-3. Each element brings two freedoms, its pebbles, and each constraint uses up one. The table of freedoms has
// two entries for each element: an entry of x holds x while that freedom is free, and else the other end of the
// constraint that uses it, so that the used entries are directed edges. The contracts cite theory's `Over` and this
// crate's specs.

#![tactic(auto)]

ghost use Rattle.std.specs.Prelude.{◌≡◌, ◌≢◌, List, [], ℕ, ◌+◌, ◌<◌, take, get_or};
ghost use Rattle.theory.specs.Constraints.{pair, Below};
ghost use Rattle.theory.specs.Near.{Standing, Near};
ghost use Rattle.theory.specs.Finding.{found};
ghost use Rattle.theory.specs.Over.{over_of};
ghost use Rattle.sparsity.specs.Freedoms.{stored, same, free, Table, FreeBelow};
ghost use Rattle.sparsity.specs.Reach.{item, Found, told, Gathered, Placed};
ghost use Rattle.sparsity.specs.Answer.{Using, More, Took};
ghost use Rattle.peeling.specs.Core.{Core};
ghost use Rattle.peeling.specs.Hard.{Noted};

use theory::{CONSTRAINTS, ELEMENTS, Excess};

// The table of freedoms: two entries for each element.
pub type Freedoms = [[u8; 2]; ELEMENTS];

// The table with every freedom free.
pub fn all_free() -> Freedoms
    ensures { FreeBelow 64 result }
{
    let mut own = [[0u8; 2]; ELEMENTS];
    for x in 0..ELEMENTS {
        own[x] = [x as u8; 2];
    }
    own
}

// How many of the two entries of x are free.
fn free_of(entries: [u8; 2], x: u8) -> usize
    ensures { result ≡ same (item entries 0) x + same (item entries 1) x }
{
    usize::from(entries[0] == x) + usize::from(entries[1] == x)
}

// The breadth-first search from a and b along the freedoms in use, for another element with a free entry: its place, where it meets one, and else
// the set of all elements reached. `queue` has the elements in the order in which they are reached, `from` the place each was reached from.
fn seek(
    own: Freedoms,
    queue: &mut [u8; ELEMENTS],
    from: &mut [u8; ELEMENTS],
    a: u8,
    b: u8,
) -> Result<usize, u64>
    requires { Table own × (a < 64) × (b < 64) × (a ≢ b) }
    ensures { Found own a b queue.new from.new result }
{
    queue[0] = a;
    queue[1] = b;
    let mut seen = sets::pair(a, b);
    let mut count: usize = 2;
    let mut p: usize = 0;
    while p < count {
        let x = usize::from(queue[p]);
        for s in 0..2 {
            let y = own[x][s];
            let bit = sets::single(y);
            if seen & bit == 0 {
                queue[count] = y;
                from[count] = p as u8;
                if free_of(own[usize::from(y)], y) != 0 {
                    return Ok(count);
                }
                seen |= bit;
                count += 1;
            }
        }
        p += 1;
    }
    Err(seen)
}

// A table with need free entries on a and b, and over is 0; or one with as many as can be had, and over is the set that was reached. The path back
// from an element with a free entry is an augmenting path: its freedoms are turned, so that a or b gets one.
fn gather(own: Freedoms, need: usize, a: u8, b: u8, over: &mut u64) -> Freedoms
    requires { Table own × (a < 64) × (b < 64) × (a ≢ b) }
    ensures { Gathered own need a b (told result over.new) }
{
    let mut t = own;
    while free_of(t[usize::from(a)], a) + free_of(t[usize::from(b)], b) < need {
        let mut queue = [0u8; ELEMENTS];
        let mut from = [0u8; ELEMENTS];
        let mut to = match seek(t, &mut queue, &mut from, a, b) {
            Ok(to) => to,
            Err(set) => {
                *over = set;
                return t;
            }
        };
        while 2 <= to {
            let back = usize::from(from[to]);
            let first = queue[back];
            let second = queue[to];
            let x = usize::from(first);
            let y = usize::from(second);
            let s = usize::from(t[x][1] == second);
            let r = usize::from(t[y][1] == second);
            t[x][s] = first;
            t[y][r] = first;
            to = back;
        }
    }
    *over = 0;
    t
}

// Where a constraint uses a freedom: an entry of an element, and the other end that it is to hold.
#[derive(Clone, Copy)]
struct Spot {
    element: usize,
    entry: usize,
    other: u8,
}

// A free entry for the constraint between a and b, whose entries are given: one of a, where a has one, or of b.
fn place(of_a: [u8; 2], of_b: [u8; 2], a: u8, b: u8) -> Spot
    requires { (a < 64) × (b < 64) }
    ensures { ((own : List (List ℕ)) → get_or own a [] ≡ of_a → get_or own b [] ≡ of_b → 0 < free own a + free own b
        → Placed own a b (stored own result.element result.entry result.other)) × (result.element < 64) × (result.entry < 2) }
{
    match of_a.iter().position(|y| *y == a) {
        Some(entry) => Spot {
            element: usize::from(a),
            entry,
            other: b,
        },
        None => Spot {
            element: usize::from(b),
            entry: usize::from(of_b[0] != b),
            other: a,
        },
    }
}

// One more constraint, between a and b: the table with it, and over is 0; or the table without it, in which what was turned for it stays turned, and
// over is the smallest set that it makes over.
pub fn take_pair(own: Freedoms, a: u8, b: u8, over: &mut u64) -> Freedoms
    requires { Table own × (a < 64) × (b < 64) × (a ≢ b) }
    ensures { (old new : List ℕ) (u : ℕ) → Using old u own → More old new (pair a b) u → Took old new (pair a b) u (told result over.new) }
{
    let mut t = gather(own, 4, a, b, over);
    if *over != 0 {
        return t;
    }
    let spot = place(t[usize::from(a)], t[usize::from(b)], a, b);
    t[spot.element][spot.entry] = spot.other;
    t
}

// The first of e constraints that makes those up to it over, with the smallest set, where the sets within core tell. Each needs as many free entries
// on its ends as are noted: four, or one where it closes no over set.
fn search(
    start: &[u64; CONSTRAINTS],
    e: usize,
    core: u64,
    needs: &[u8; CONSTRAINTS],
) -> Option<Excess>
    requires { Standing start.now e × Core (take e start.now) core
        × ((c : ℕ) → c < e → Noted (take e start.now) c 1 (get_or needs.now c 0)) }
    ensures { (n : ℕ) → Below n (take e start.now) → found result ≡ over_of n (take e start.now) }
{
    let mut own = all_free();
    let mut over = 0;
    for c in 0..e {
        let pair = start[c];
        if pair & core != pair {
            continue;
        }
        let a = sets::lowest(pair);
        let b = peeling::other_end(pair, a);
        let need = usize::from(needs[c]);
        if free_of(own[usize::from(a)], a) + free_of(own[usize::from(b)], b) < need {
            own = gather(own, need, a, b, &mut over);
            if over != 0 {
                return Some(Excess {
                    constraint: c,
                    set: over,
                });
            }
        }
        let spot = place(own[usize::from(a)], own[usize::from(b)], a, b);
        own[spot.element][spot.entry] = spot.other;
    }
    None
}

// The first of e constraints that makes those up to it over, with the smallest set; none where they are not over. The
// constraints are the first e places of start, given with their adjacency.
pub fn find_over(near: &[u64; ELEMENTS], start: &[u64; CONSTRAINTS], e: usize) -> Option<Excess>
    requires { Standing start.now e × Near (take e start.now) near.now }
    ensures { (n : ℕ) → Below n (take e start.now) → found result ≡ over_of n (take e start.now) }
{
    let core = peeling::core_of(near);
    if core == 0 {
        return None;
    }
    let mut needs = [1u8; CONSTRAINTS];
    peeling::mark_hard(near, start, e, core, &mut needs);
    search(start, e, core, &needs)
}
