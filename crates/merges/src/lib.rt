// Merges of three clusters, masks by number in arrays: the engine's plan of a start, and merges made one by one on arrays that a caller lends.
// Contracts cite specs/Run.antt and specs/Going.antt. The crate `search` finds the first open merge; its arrays stay in here (specs/Search.antt).

#![tactic(auto)]

ghost use Rattle.std.specs.Prelude.{◌≡◌, List, ℕ, ◌≤◌, ◌<◌, length, take, replicate, IfSome};
ghost use Rattle.theory.specs.Block.{block};
ghost use Rattle.theory.specs.Constraints.{NotOver};
ghost use Rattle.theory.specs.Set.{◌∩◌};
ghost use Rattle.theory.specs.Merge.{Merge, merge as numbers, Three, joint, final};
ghost use Rattle.theory.specs.Plan.{open_test, first_of, is_some};
ghost use Rattle.merges.specs.Run.{most_steps, places, run_in, Blank, Start, Planned, one_is_left};
ghost use Rattle.merges.specs.Going.{Slots, Made};
ghost use Rattle.merges.specs.Search.{hit_of, Tested, Stopped, Begins, Ran, RanTo};
ghost use Rattle.search.specs.State.{Ready, Kept};

use sets::FULL;
use theory::{CLUSTERS, CONSTRAINTS, ELEMENTS, JOINTS, PARTS};

// More than the steps of any plan.
const NO_LIMIT: usize = 64;

// ---- what each two of three clusters share

// Of the sets that each two share: does each have one element, three different ones in all?
#[tactic(auto, unfolding(theory::specs::Plan::open_test))]
fn one_each(x: u64, y: u64, z: u64) -> bool
    ensures { (a b c : ℕ) → x ≡ a ∩ b → y ≡ b ∩ c → z ≡ a ∩ c → result ≡ open_test a b c }
{
    x.count_ones() == 1 && y.count_ones() == 1 && z.count_ones() == 1 && x != y && y != z && x != z
}

// Is the merge of the three open?
pub fn open3(a: u64, b: u64, c: u64) -> bool
    ensures { result ≡ open_test a b c }
{
    one_each(sets::shared(a, b), sets::shared(b, c), sets::shared(a, c))
}

// Its joint.
pub fn joint3(a: u64, b: u64, c: u64) -> u64
    ensures { (t : Three) → t.a ≡ a → t.b ≡ b → t.c ≡ c → result ≡ joint t }
{
    sets::shared(a, b) | sets::shared(b, c) | sets::shared(a, c)
}

// ---- on lent arrays

// The clusters before any merge, the first e of `start`, into slots that were blank.
pub fn lay(slots: &mut [u64; CLUSTERS], start: &[u64; CONSTRAINTS], e: usize)
    requires { Start start.now e × (slots.old ≡ replicate places 0) }
    ensures { slots.new ≡ block places 0 (take e start.now) }
{
    for i in 0..e {
        slots[i] = start[i];
    }
}

// Merges clusters i, j and k, which ascend, as step `steps`: its parts and its joint are noted, the three die, and their union, which is answered, is
// cluster `used`.
pub fn step(
    slots: &mut [u64; CLUSTERS],
    parts: &mut [u16; PARTS],
    joints: &mut [u64; JOINTS],
    used: usize,
    steps: usize,
    i: usize,
    j: usize,
    k: usize,
) -> u64
    requires { (i < used) × (j < used) × (k < used) × (used < places) × (steps < most_steps) }
    ensures { Made slots.old parts.old joints.old used steps (numbers i j k) result slots.new
        parts.new joints.new }
{
    let a = slots[i];
    let b = slots[j];
    let c = slots[k];
    joints[steps] = joint3(a, b, c);
    parts[3 * steps] = i as u16;
    parts[3 * steps + 1] = j as u16;
    parts[3 * steps + 2] = k as u16;
    let u = a | b | c;
    slots[i] = 0;
    slots[j] = 0;
    slots[k] = 0;
    slots[used] = u;
    u
}

// ---- the first open merge

// The numbers of an open merge, ascending.
#[derive(Clone, Copy)]
struct Hit {
    i: usize,
    j: usize,
    k: usize,
}

// The first open merge. Where two living clusters may share two elements, an open merge or none.
fn first_open(
    slots: &[u64; CLUSTERS],
    links: &[u64; ELEMENTS],
    hold: &[u64; CLUSTERS],
    todo: &mut [u64; 3],
    rim: u64,
    used: usize,
) -> Option<Hit>
    requires { (used ≤ places) × (length todo.old ≡ 3) }
    ensures tested { IfSome result (Tested slots.now used) }
    ensures first { Ready slots.now used rim links.now hold.now todo.old
        → hit_of result ≡ first_of 0 slots.now }
    ensures kept { Kept slots.now links.now rim todo.old todo.new
        × (length todo.new ≡ 3) }
{
    let search::Reaching { cluster: i, outs } = search::lowest_reaching(slots, links, todo, rim)?;
    let x = slots[i];
    let v = search::best(links, hold, x, outs);
    let (j, k) = (v / 256, v % 256);
    if i < j && j < k && k < used && open3(x, slots[j], slots[k]) {
        Some(Hit { i, j, k })
    } else {
        None
    }
}

// Is a merge open among the clusters below `used`, which merges of constraints that are not over have left? One is if the search finds it.
pub fn some_open(slots: &[u64; CLUSTERS], used: usize) -> bool
    requires { used ≤ places }
    ensures { (cs : List ℕ) (p : List Merge) → NotOver cs → Slots cs p slots.now used
        → result ≡ is_some (first_of 0 (final cs p)) }
{
    let mut links = [0u64; ELEMENTS];
    let mut hold = [0u64; CLUSTERS];
    search::join_all(slots, used, &mut links, &mut hold);
    let mut todo = search::todo_all(used);
    first_open(slots, &links, &hold, &mut todo, FULL, used).is_some()
}

// ---- merge after merge

// Is one cluster left of e after so many merges?
pub fn one_left(e: usize, steps: usize) -> bool
    requires { steps ≤ 64 }
    ensures { result ≡ one_is_left e steps }
{
    2 * steps + 1 == e
}

// How many merges were made, and the frontier that they leave.
#[derive(Clone, Copy)]
pub struct Halt {
    pub steps: usize,
    pub rim: u64,
}

// Makes the first open merge over and over: until none is open, or until `limit` are made. The first e slots are the clusters before any.
fn advance(
    slots: &mut [u64; CLUSTERS],
    parts: &mut [u16; PARTS],
    joints: &mut [u64; JOINTS],
    links: &mut [u64; ELEMENTS],
    hold: &mut [u64; CLUSTERS],
    e: usize,
    limit: usize,
) -> Halt
    requires { Begins slots.old parts.old joints.old links.old hold.old e }
    ensures { (todo : List ℕ) × Stopped (take e slots.old) e limit slots.new links.new hold.new todo
        parts.new joints.new result.steps result.rim }
{
    search::join_all(slots, e, links, hold);
    let mut todo = search::todo_all(e);
    let mut rim: u64 = FULL;
    for steps in 0..limit {
        let used = e + steps;
        let Some(Hit { i, j, k }) = first_open(slots, links, hold, &mut todo, rim, used) else {
            return Halt { steps, rim };
        };
        rim = search::renew(
            links, hold, &mut todo, used, rim, i, j, k, slots[i], slots[j], slots[k],
        );
        step(slots, parts, joints, used, steps, i, j, k);
    }
    Halt { steps: limit, rim }
}

// The engine's plan on arrays that the caller lends: the first e slots are merged until none is open, and the links,
// the incidence and the frontier of the clusters that are left stay with them. Of constraints that are over, a list of
// merges.
pub fn merge_on(
    slots: &mut [u64; CLUSTERS],
    parts: &mut [u16; PARTS],
    joints: &mut [u64; JOINTS],
    links: &mut [u64; ELEMENTS],
    hold: &mut [u64; CLUSTERS],
    e: usize,
) -> Halt
    requires { Begins slots.old parts.old joints.old links.old hold.old e }
    ensures { Ran (take e slots.old) e slots.new links.new hold.new parts.new
        joints.new result.steps result.rim }
{
    advance(slots, parts, joints, links, hold, e, NO_LIMIT)
}

// The first `limit` steps of the engine's plan on arrays that the caller lends, or all where it has fewer; the links,
// the incidence and the frontier of the clusters that are left stay with them. Of constraints that are over, a list of
// merges.
pub fn merge_some(
    slots: &mut [u64; CLUSTERS],
    parts: &mut [u16; PARTS],
    joints: &mut [u64; JOINTS],
    links: &mut [u64; ELEMENTS],
    hold: &mut [u64; CLUSTERS],
    e: usize,
    limit: usize,
) -> Halt
    requires { Begins slots.old parts.old joints.old links.old hold.old e }
    ensures { RanTo (take e slots.old) e limit slots.new links.new hold.new result.steps result.rim }
{
    advance(slots, parts, joints, links, hold, e, limit)
}

// The engine's plan for the constraints that are the first e of `start`, into blank arrays that the caller lends; answers how many steps it has. Of
// constraints that are over, a list of merges.
pub fn merge_into(
    start: &[u64; CONSTRAINTS],
    e: usize,
    slots: &mut [u64; CLUSTERS],
    parts: &mut [u16; PARTS],
    joints: &mut [u64; JOINTS],
) -> usize
    requires { Start start.now e × Blank slots.old parts.old joints.old }
    ensures { Planned (take e start.now) (run_in result parts.new joints.new slots.new) }
{
    lay(slots, start, e);
    let mut links = [0u64; ELEMENTS];
    let mut hold = [0u64; CLUSTERS];
    merge_on(slots, parts, joints, &mut links, &mut hold, e).steps
}
