// The search for the first open merge: for each element the clusters that hold it and the elements that share a cluster with it; the rim, the
// elements that two living clusters may share; and the clusters that wait to be looked at. All of it lies in arrays that the caller lends.
// Contracts cite specs/State.antt and specs/Words.antt.

#![tactic(auto)]

ghost use Rattle.std.specs.Prelude.{◌≡◌, ◌≢◌, ℕ, ◌≤◌, ◌<◌, length, replicate, slice_index, IfSome};
ghost use Rattle.theory.specs.Set.{◌∩◌};
ghost use Rattle.theory.specs.Merge.{slot, merge as numbers};
ghost use Rattle.search.specs.State.{linked, beyond, waits, Outs, Lowest, Joining, Met, Joined, Best, Wanted, Kept, Begun, Renewed, three_of};
ghost use Rattle.search.specs.Words.{cluster_of, Inner, Listed, SetOf, Calls, Rejoined, Entered};

use theory::{CLUSTERS, ELEMENTS};

// More than the key of any two clusters.
const NO_KEY: usize = 65535;

// ---- what a cluster reaches

// The elements of a that b lacks.
fn without(a: u64, b: u64) -> u64
    ensures { result ≡ beyond a b }
{
    a & !b
}

// The elements outside x that are linked to two elements of edge.
pub fn outs(links: &[u64; ELEMENTS], x: u64, edge: u64) -> u64
    ensures { Outs links.now x edge result }
{
    let mut once: u64 = 0;
    let mut twice: u64 = 0;
    for p in sets::elements(edge) {
        let l = links[p];
        twice |= once & l;
        once |= l;
    }
    without(twice, x)
}

// A cluster and the elements that it reaches.
#[derive(Clone, Copy)]
pub struct Reaching {
    pub cluster: usize,
    pub outs: u64,
}

// The lowest waiting cluster that reaches an element, and what it reaches. What is found to reach none waits no more.
pub fn lowest_reaching(
    slots: &[u64; CLUSTERS],
    links: &[u64; ELEMENTS],
    todo: &mut [u64; 3],
    rim: u64,
) -> Option<Reaching>
    requires { length todo.old ≡ 3 }
    ensures lowest { Lowest (Wanted slots.now links.now rim todo.old) 0 192 (cluster_of result) }
    ensures outs { IfSome result (λ r. (r.cluster < 192) × Outs links.now (slot slots.now r.cluster)
        (slot slots.now r.cluster ∩ rim) r.outs × (r.outs ≢ 0)) }
    ensures kept { Kept slots.now links.now rim todo.old todo.new
        × (length todo.new ≡ 3) }
{
    for w in 0..3 {
        let mut waiting = sets::elements(todo[w]);
        while let Some(x) = waiting.next() {
            let cluster = 64 * w + x;
            let set = slots[cluster];
            let outs = outs(links, set, set & rim);
            if outs != 0 {
                return Some(Reaching { cluster, outs });
            }
            todo[w] = waiting.rest;
        }
    }
    None
}

// ---- the other two clusters of its first merge

// The lowest cluster that holds both x and z; 192 if there is none.
fn joining(hold: &[u64; CLUSTERS], x: usize, z: usize) -> usize
    requires { (x < 64) × (z < 64) }
    ensures { Joining hold.now x z result }
{
    for w in 0..3 {
        let both = hold[64 * w + x] & hold[64 * w + z];
        if both != 0 {
            return 64 * w + usize::from(sets::lowest(both));
        }
    }
    CLUSTERS
}

// The key of the clusters that join z to p and to q: 256 times the lower number, and the higher.
fn met(hold: &[u64; CLUSTERS], p: usize, q: usize, z: usize) -> usize
    requires { (p < 64) × (q < 64) × (z < 64) }
    ensures { Met hold.now p q z result × (result < 65536) }
{
    let a = joining(hold, p, z);
    let b = joining(hold, q, z);
    256 * a.min(b) + a.max(b)
}

// The key of the clusters that join z to the two elements of x that it is linked with; a high number if it is linked with fewer.
pub fn joined(links: &[u64; ELEMENTS], hold: &[u64; CLUSTERS], x: u64, z: usize) -> usize
    requires { z < 64 }
    ensures { Joined hold.now (linked links.now z ∩ x) z result × (result < 65536) }
{
    let mut near = sets::elements(links[z] & x);
    let Some(p) = near.next() else {
        return NO_KEY;
    };
    let Some(q) = near.next() else {
        return NO_KEY;
    };
    met(hold, p, q, z)
}

// The least key of the clusters that make an open merge with x, one for each element of o, which x reaches: those that join it to the two elements of
// x that it is linked with.
pub fn best(links: &[u64; ELEMENTS], hold: &[u64; CLUSTERS], x: u64, o: u64) -> usize
    requires { o ≢ 0 }
    ensures { Best (λ z. Joined hold.now (linked links.now z ∩ x) z) o result × (result < 65536) }
{
    let mut best = joined(links, hold, x, usize::from(sets::lowest(o)));
    for z in sets::elements(sets::without_lowest(o)) {
        best = best.min(joined(links, hold, x, z));
    }
    best
}

// ---- sets of cluster numbers

// The set of some numbers below 192.
fn set_of(numbers: &[usize]) -> [u64; 3]
    requires { (k : ℕ) → k < length numbers.now → slice_index numbers.now k < 192 }
    ensures { SetOf result (Listed numbers.now) }
{
    let mut set = [0u64; 3];
    for n in numbers {
        set[n / 64] |= 1u64 << ((n % 64) as u32);
    }
    set
}

// ---- what a merge changes

// The clusters of dead wait no more; those of made wait, and each holder of an element of o.
fn call_up(hold: &[u64; CLUSTERS], todo: &mut [u64; 3], dead: [u64; 3], made: [u64; 3], o: u64)
    requires { length todo.old ≡ 3 }
    ensures { Calls hold.now todo.old dead made o todo.new }
{
    for w in 0..3 {
        todo[w] = without(todo[w], dead[w]) | made[w];
    }
    for z in sets::elements(o) {
        for w in 0..3 {
            todo[w] |= hold[64 * w + z];
        }
    }
}

// What a union finds at its edge: the elements that it reaches, and those of the edge that are linked with its own elements alone.
#[derive(Clone, Copy)]
struct Edge {
    outs: u64,
    inner: u64,
}

// Links the elements of edge with all of u, and notes that the clusters of made hold them in the place of those of dead. Answers what u found there
// before.
fn rejoin(
    links: &mut [u64; ELEMENTS],
    hold: &mut [u64; CLUSTERS],
    edge: u64,
    u: u64,
    dead: [u64; 3],
    made: [u64; 3],
) -> Edge
    requires { (length links.old ≡ 64) × (length hold.old ≡ 192) }
    ensures joined { Rejoined links.old hold.old edge u dead made links.new hold.new }
    ensures outs { Outs links.old u edge result.outs }
    ensures inner { Inner links.old edge u result.inner }
{
    let mut rest = edge;
    let mut once: u64 = 0;
    let mut twice: u64 = 0;
    let mut inner: u64 = 0;
    while rest != 0 {
        let p = usize::from(sets::lowest(rest));
        let next = sets::without_lowest(rest);
        let l = links[p];
        twice |= once & l;
        once |= l;
        if l | u == u {
            inner |= rest ^ next;
        }
        links[p] = l | u;
        for w in 0..3 {
            hold[64 * w + p] = without(hold[64 * w + p], dead[w]) | made[w];
        }
        rest = next;
    }
    Edge {
        outs: without(twice, u),
        inner,
    }
}

// ---- from the first clusters, and merge after merge

// Links the elements of x with one another, and notes that cluster c holds them too.
fn enter(links: &mut [u64; ELEMENTS], hold: &mut [u64; CLUSTERS], x: u64, c: usize)
    requires { (c < 192) × (length links.old ≡ 64) × (length hold.old ≡ 192) }
    ensures { Entered links.old hold.old x c links.new hold.new }
{
    let base = 64 * (c / 64);
    let bit = 1u64 << ((c % 64) as u32);
    for p in sets::elements(x) {
        links[p] |= x;
        hold[base + p] |= bit;
    }
}

// Links and holders of the first e clusters.
pub fn join_all(
    slots: &[u64; CLUSTERS],
    e: usize,
    links: &mut [u64; ELEMENTS],
    hold: &mut [u64; CLUSTERS],
)
    requires { (e ≤ 192) × (links.old ≡ replicate 64 0) × (hold.old ≡ replicate 192 0) }
    ensures { Begun slots.now e links.new hold.new }
{
    for c in 0..e {
        enter(links, hold, slots[c], c);
    }
}

// The first e clusters wait.
pub fn todo_all(e: usize) -> [u64; 3]
    requires { e ≤ 192 }
    ensures { ((c : ℕ) → c < e → waits result c ≡ 1) × (length result ≡ 3) }
{
    let mut todo = [0u64; 3];
    for w in 0..3 {
        todo[w] = sets::below(e.saturating_sub(64 * w));
    }
    todo
}

// Clusters i, j and k, the sets x, y and z, become cluster `used`. Answers the rim that is left.
pub fn renew(
    links: &mut [u64; ELEMENTS],
    hold: &mut [u64; CLUSTERS],
    todo: &mut [u64; 3],
    used: usize,
    rim: u64,
    i: usize,
    j: usize,
    k: usize,
    x: u64,
    y: u64,
    z: u64,
) -> u64
    requires { (i < used) × (j < used) × (k < used) × (used < 192) × (length links.old ≡ 64) × (length hold.old ≡ 192)
        × (length todo.old ≡ 3) }
    ensures { Renewed links.old hold.old todo.old used rim (numbers i j k) (three_of x y z)
        links.new hold.new todo.new result }
{
    let u = x | y | z;
    let edge = u & rim;
    let near = sets::image(links, without(edge, z));
    let dead = set_of(&[i, j, k]);
    let made = set_of(&[used]);
    let found = rejoin(links, hold, edge, u, dead, made);
    call_up(hold, todo, dead, made, found.outs & near);
    without(rim, found.inner)
}
