// The core of a list of constraints, the 3-core of its graph: what is left when elements with at most two constraints
// are taken away, one after another. A set that carries more than 2m-3 constraints, and has no smaller one in it, has
// three at each element: the core tells all that is to be known of "over" (document 01, "Verdict names: over"). The
// graph is given by its adjacency; the elements to be taken away are a work list. The contracts cite this crate's
// `Core`.

#![tactic(auto)]

ghost use Rattle.std.specs.Prelude.{◌≡◌, ◌≢◌, List, ℕ, suc, ◌≤◌, ◌<◌, length, take, get_or};
ghost use Rattle.std.specs.Int.Count.{ones};
ghost use Rattle.theory.specs.Set.{◌∈◌, ◌⊑◌};
ghost use Rattle.theory.specs.Near.{Simple, Standing, Near};
ghost use Rattle.peeling.specs.Core.{Core, Dense, Largest, Beyond, Light, Heavy, Mutual, Peeled};
ghost use Rattle.peeling.specs.Hard.{Shown, Linked, Left, Marks};

use theory::{CONSTRAINTS, ELEMENTS};

// The other element of a set of two.
pub fn other_end(pair: u64, a: u8) -> u8
    requires { (ones pair ≡ 2) × (a < 64) × (a ∈ pair) }
    ensures { (result < 64) × (result ∈ pair) × (a ≢ result) }
{
    sets::lowest(pair - sets::single(a))
}

// How many elements come before those, from the highest down, that have no neighbour.
fn used(near: &[u64; ELEMENTS]) -> usize
    ensures { (result ≤ 64) × Beyond near.now result }
{
    near.iter().rposition(|m| *m != 0).map_or(0, |x| x + 1)
}

// The elements of who with two neighbours at most among those left.
fn light_of(near: &[u64; ELEMENTS], left: u64, who: u64) -> u64
    requires { who ⊑ left }
    ensures { Light near.now left result × Heavy near.now left who result }
{
    let mut light: u64 = 0;
    for x in sets::elements(who) {
        if sets::without_lowest(sets::without_lowest(near[x] & left)) == 0 {
            light |= 1 << x;
        }
    }
    light
}

// What is left of a set when those of low, and then those with two neighbours at most among those left, are taken away, all at once, as often as
// there are any.
fn peel(near: &[u64; ELEMENTS], all: u64, low: u64) -> u64
    requires { Light near.now all low }
    ensures { ((real : List ℕ) → Shown real near.now all → Peeled real all → Peeled real result × Shown real near.now result)
        × (Mutual near.now → Heavy near.now all all low → Dense near.now result) }
{
    let mut left = all;
    let mut todo = low;
    while todo != 0 {
        left -= todo;
        todo = light_of(near, left, sets::image(near, todo) & left);
    }
    left
}

// The elements that an over set can have, the 3-core: the largest set whose elements have three neighbours each in it.
pub fn core_of(near: &[u64; ELEMENTS]) -> u64
    ensures { Peeled near.now result
        × ((cs : List ℕ) → Simple cs → Near cs near.now → Core cs result × Largest near.now result) }
{
    let all = sets::below(used(near));
    peel(near, all, light_of(near, all, all))
}

// ---- the constraints that can close an over set

// The core that is left without the constraint of a pair within it, which is removed from the adjacency.
fn drop_pair(near: &mut [u64; ELEMENTS], left: u64, pair: u64) -> u64
    requires { (ones pair ≡ 2) × (pair ⊑ left) × Linked near.old pair }
    ensures { (cs : List ℕ) → Simple cs → (c : ℕ) → c < length cs → get_or cs c 0 ≡ pair → Left cs (suc c) near.old left
        → Left cs c near.new result }
{
    let a = sets::lowest(pair);
    let b = other_end(pair, a);
    near[usize::from(a)] -= sets::single(b);
    near[usize::from(b)] -= sets::single(a);
    let low = light_of(near, left, pair);
    peel(near, left, low)
}

// Notes 4 for each constraint that can close an over set: those with both ends in the core of the constraints up to them, found from the last to the
// first.
pub fn mark_hard(
    near: &[u64; ELEMENTS],
    start: &[u64; CONSTRAINTS],
    e: usize,
    core: u64,
    needs: &mut [u8; CONSTRAINTS],
)
    requires { Standing start.now e × Near (take e start.now) near.now × Peeled near.now core × (length needs.old ≡ 200) }
    ensures { Marks (take e start.now) 0 needs.old needs.new }
{
    let mut rest = *near;
    let mut left = core;
    for c in (0..e).rev() {
        if left == 0 {
            return;
        }
        let pair = start[c];
        if pair & left == pair {
            needs[c] = 4;
            left = drop_pair(&mut rest, left, pair);
        }
    }
}
