// The engine: the verdict of a list of merges, and its steps with their kinds and placements. Contracts cite theory's definitions and this crate's
// specs.

#![tactic(auto)]

mod rings;

ghost use Rattle.std.specs.Prelude.{◌≡◌, List, [], ◌∷◌, ℕ, ◌+◌, ◌*◌, ◌≤◌, ◌<◌, ◌^◌, length, take, replicate, nat_abs, ◌-ℤ◌};
ghost use Rattle.theory.specs.Rule.{by_number};
ghost use Rattle.theory.specs.Verdict.{angled as someLines, judged};
ghost use Rattle.theory.specs.Placement.{joint_kind, against as comparison, triangle as triangleWays, strip_of, placed};
ghost use Rattle.theory.specs.Merge.{left, merge as numbers};
ghost use Rattle.merges.specs.Run.{places};
ghost use Rattle.engine.specs.Steps.{ways_by, step_at, blank_step, Stepped};
ghost use Rattle.space.specs.Space.{Put, answer, after};
ghost use Rattle.engine.specs.Lists.{living_of};

use space::put_item;
use std::cmp::Ordering;
use theory::{CLUSTERS, CONSTRAINTS, JOINTS, JointKind, PARTS, Rule, STEPS, Step, Verdict, Ways};

// Is some joint three lines?
pub fn angled(joints: &[u64; JOINTS], steps: usize, lines: u64) -> bool
    requires { (steps ≤ 64) × (length joints.now ≡ 64) }
    ensures { result ≡ someLines lines (take steps joints.now) }
{
    joints[..steps].iter().any(|joint| joint & lines == *joint)
}

// The verdict of a list of merges, after "over", by its joints and its final clusters, of which e less two a step are left.
pub fn settle(
    joints: &[u64; JOINTS],
    slots: &[u64; CLUSTERS],
    steps: usize,
    n: usize,
    e: usize,
    lines: u64,
) -> Verdict
    requires { (steps ≤ 64) × (2 * steps ≤ e) × (n ≤ 64) × (e + steps ≤ 192) × (length joints.now ≡ 64) × (length slots.now ≡ 192) }
    ensures { (finals : List ℕ) → take (e + steps) slots.now ≡ finals → left finals + 2 * steps ≡ e
        → result ≡ judged lines n e (take steps joints.now) finals }
{
    if angled(joints, steps, lines) || rings::ringed(&slots[..e + steps], lines) {
        Verdict::Angle
    } else if e + 3 != 2 * n {
        Verdict::Under
    } else if merges::one_left(e, steps) {
        Verdict::Well
    } else {
        Verdict::Stuck
    }
}

// The kind of a joint.
fn joint_kind(joint: u64, lines: u64) -> JointKind
    ensures { result ≡ joint_kind lines joint }
{
    match (joint & lines).count_ones() {
        0 => JointKind::Ppp,
        1 => JointKind::Ppl,
        2 => JointKind::Pll,
        _ => JointKind::Lll,
    }
}

// 0 where x is above y, 1 where they are equal, 2 where x is below.
fn against(x: u64, y: u64) -> u8
    ensures { result ≡ comparison x y }
{
    match x.cmp(&y) {
        Ordering::Greater => 0,
        Ordering::Equal => 1,
        Ordering::Less => 2,
    }
}

// The absolute value of a size.
fn size_of(z: i32) -> u64
    ensures { (result ≡ nat_abs z) × (result < 4294967296) }
{
    u64::from(z.unsigned_abs())
}

// How far apart two sizes are.
fn apart(x: i32, y: i32) -> u64
    ensures { result ≡ nat_abs (y -ℤ x) }
{
    u64::from(y.abs_diff(x))
}

// The placements of three points: the longest distance against the sum of the other two.
fn triangle(x: u64, y: u64, z: u64) -> u8
    requires { (x < 4294967296) × (y < 4294967296) × (z < 4294967296) }
    ensures { result ≡ triangleWays x y z }
{
    let longest = x.max(y).max(z);
    against(longest, x + y + z - longest)
}

// The placements of two points and a line, from the three constraints a, b and a third, and their sizes: the distance between the points against
// the difference of their distances to the line.
fn strip_of(lines: u64, a: u64, b: u64, x: i32, y: i32, z: i32) -> u8
    ensures { result ≡ strip_of lines a b x y z }
{
    if a & lines == 0 {
        against(apart(y, z), size_of(x))
    } else if b & lines == 0 {
        against(apart(x, z), size_of(y))
    } else {
        against(apart(x, y), size_of(z))
    }
}

// The placements of three initial clusters, of which a and b are the first two, with their sizes.
fn placements(lines: u64, kind: JointKind, a: u64, b: u64, x: i32, y: i32, z: i32) -> Ways
    ensures { result ≡ placed lines (kind) a b x y z }
{
    match kind {
        JointKind::Ppp => Ways::Known(triangle(size_of(x), size_of(y), size_of(z))),
        JointKind::Ppl => Ways::Known(strip_of(lines, a, b, x, y, z)),
        JointKind::Pll => Ways::Known(1),
        JointKind::Lll => Ways::Unknown,
    }
}

// The placements of a step of the given kind with the parts i, j and k: known only if all three are initial clusters.
fn ways_of(
    lines: u64,
    kind: JointKind,
    e: usize,
    start: &[u64; CONSTRAINTS],
    sizes: &[i32; CONSTRAINTS],
    i: usize,
    j: usize,
    k: usize,
) -> Ways
    requires { e ≤ 192 }
    ensures { result ≡ ways_by lines (kind) e sizes.now start.now (numbers i j k) }
{
    if e <= i || e <= j || e <= k {
        return Ways::Unknown;
    }
    placements(
        lines, kind, start[i], start[j], sizes[i], sizes[j], sizes[k],
    )
}

// Step t of a list of merges, from its parts and joints.
pub fn step_at(
    parts: &[u16; PARTS],
    joints: &[u64; JOINTS],
    start: &[u64; CONSTRAINTS],
    sizes: &[i32; CONSTRAINTS],
    lines: u64,
    e: usize,
    t: usize,
) -> Step
    requires { (e ≤ 125) × (t < 62) }
    ensures { result ≡ step_at lines e sizes.now start.now parts.now joints.now t }
{
    let i = usize::from(parts[3 * t]);
    let j = usize::from(parts[3 * t + 1]);
    let k = usize::from(parts[3 * t + 2]);
    let joint = joints[t];
    let kind = joint_kind(joint, lines);
    let ways = ways_of(lines, kind, e, start, sizes, i, j, k);
    Step {
        made: e + t,
        i,
        j,
        k,
        joint,
        kind,
        ways,
    }
}

// Blank records.
pub fn no_steps() -> [Step; STEPS]
    ensures { result ≡ replicate 62 blank_step }
{
    let blank = Step {
        made: 0,
        i: 0,
        j: 0,
        k: 0,
        joint: 0,
        kind: JointKind::Ppp,
        ways: Ways::Unknown,
    };
    [blank; STEPS]
}

// The first `count` steps of a list of merges of the constraints whose sets are the first e of `start`, 0 for the size of one without. Blank beyond.
pub fn steps_of(
    parts: &[u16; PARTS],
    joints: &[u64; JOINTS],
    count: usize,
    start: &[u64; CONSTRAINTS],
    sizes: &[i32; CONSTRAINTS],
    lines: u64,
    e: usize,
) -> [Step; STEPS]
    requires { (e ≤ 125) × (count ≤ 62) }
    ensures { Stepped lines e sizes.now start.now parts.now joints.now count result }
{
    let mut steps = no_steps();
    for t in 0..count {
        steps[t] = step_at(parts, joints, start, sizes, lines, e, t);
    }
    steps
}

// A cluster, unless it is dead.
fn put_living(out: &mut [u64], at: usize, x: u64) -> usize
    requires { at + 1 < 2 ^ 64 }
    ensures { Put out.old at (living_of (x ∷ [])) result out.new × (result ≤ at + 1) }
{
    if x == 0 { at } else { put_item(out, at, x) }
}

// The clusters that live among the first `used` slots, by number.
fn put_all_living(out: &mut [u64], slots: &[u64; CLUSTERS], used: usize) -> usize
    requires { (used ≤ places) × (length slots.now ≡ places) }
    ensures { Put out.old 0 (living_of (take used slots.now)) result out.new }
{
    let mut next: usize = 0;
    for x in &slots[..used] {
        next = put_living(out, next, *x);
    }
    next
}

// The clusters that live, by number, into lent space, or 17.
pub fn put_clusters(slots: &[u64; CLUSTERS], used: usize, out: &mut [u64]) -> Result<usize, Rule>
    requires { (used ≤ places) × (length slots.now ≡ places) }
    ensures { (by_number result ≡ answer (living_of (take used slots.now)) out.old)
        × (out.new ≡ after (living_of (take used slots.now)) out.old) }
{
    let count = put_all_living(&mut out[..0], slots, used);
    if out.len() < count {
        return Err(Rule::NoRoom);
    }
    Ok(put_all_living(out, slots, used))
}
