// The judgement of a constraint graph in lent arrays. Contracts cite theory's definitions.

#![tactic(auto)]

ghost use Rattle.std.specs.Prelude.{◌≡◌, ◌+◌, ◌*◌, ◌≤◌, ltb, take};
ghost use Rattle.std.specs.Int.Count.{ones};
ghost use Rattle.theory.specs.Graph.{finding_of, verdict_of};
ghost use Rattle.theory.specs.Finding.{found};
ghost use Rattle.theory.specs.Rule.{refusal};
ghost use Rattle.sheet.specs.Graph.{over_fault};
ghost use Rattle.graph.specs.Lent.{graph_in, Sound, Drawn};
ghost use Rattle.merges.specs.Run.{run_in, Start, Blank};
ghost use Rattle.judge.specs.Judged.{judged_of};
ghost use Rattle.judge.specs.Found.{JudgedIn, MergedIn};
ghost use Rattle.judge.specs.Telling.{Tells, Reached};

use graph::Head;
use theory::{CLUSTERS, CONSTRAINTS, ELEMENTS, Excess, JOINTS, PARTS, Rule, Verdict};

// The first constraint that makes the sheet over, with the smallest set; none where it is not over.
pub fn over_of(h: Head, near: &[u64; ELEMENTS], start: &[u64; CONSTRAINTS]) -> Option<Excess>
    requires { Drawn h near.now start.now }
    ensures { found result ≡ finding_of (graph_in h start.now) }
{
    sparsity::find_over(near, start, h.e)
}

// More constraints than 2n-3, which are over.
fn crowded(h: Head) -> bool
    requires { (h.n ≤ 64) × (h.e ≤ 200) }
    ensures { result ≡ ltb (2 * h.n) (h.e + 3) }
{
    2 * h.n < h.e + 3
}

// Rule 11.
pub fn check_over(h: Head, near: &[u64; ELEMENTS], start: &[u64; CONSTRAINTS]) -> Result<(), Rule>
    requires { Drawn h near.now start.now }
    ensures { refusal result ≡ over_fault (graph_in h start.now) }
{
    check_over_after(h, near, start, 0)
}

// The same where so many merges were made one after another: those that leave one cluster show that the sheet is not over.
pub fn check_over_after(
    h: Head,
    near: &[u64; ELEMENTS],
    start: &[u64; CONSTRAINTS],
    steps: usize,
) -> Result<(), Rule>
    requires { Drawn h near.now start.now × Reached (take h.e start.now) steps }
    ensures { refusal result ≡ over_fault (graph_in h start.now) }
{
    if crowded(h) {
        return Err(Rule::OverSheet);
    }
    if merges::one_left(h.e, steps) {
        return Ok(());
    }
    match over_of(h, near, start) {
        Some(_) => Err(Rule::OverSheet),
        None => Ok(()),
    }
}

// What is found of a sheet that is not over, its plan in lent arrays: its verdict, how many steps the plan has, and whether these leave one cluster.
#[derive(Clone, Copy)]
pub struct Found {
    pub verdict: Verdict,
    pub steps: usize,
    pub whole: bool,
}

// The engine's merges into blank arrays, with the verdict of a sheet that is not over.
fn merged(
    h: Head,
    start: &[u64; CONSTRAINTS],
    slots: &mut [u64; CLUSTERS],
    parts: &mut [u16; PARTS],
    joints: &mut [u64; JOINTS],
) -> Found
    requires { Start start.now h.e × Sound h.n (take h.e start.now) × Blank slots.old parts.old joints.old }
    ensures { MergedIn h start.now result parts.new joints.new slots.new }
{
    let steps = merges::merge_into(start, h.e, slots, parts, joints);
    let verdict = engine::settle(joints, slots, steps, h.n, h.e, h.lines);
    Found {
        verdict,
        steps,
        whole: merges::one_left(h.e, steps),
    }
}

// The judgement of a sheet with 2n-3 constraints. Merges that leave one cluster show that it is not over.
fn judge_full(
    h: Head,
    near: &[u64; ELEMENTS],
    start: &[u64; CONSTRAINTS],
    slots: &mut [u64; CLUSTERS],
    parts: &mut [u16; PARTS],
    joints: &mut [u64; JOINTS],
) -> Result<Found, Excess>
    requires { Drawn h near.now start.now × (h.e + 3 ≡ 2 * h.n) × Blank slots.old parts.old joints.old }
    ensures { JudgedIn (graph_in h start.now) result parts.new joints.new slots.new }
{
    let found = merged(h, start, slots, parts, joints);
    if found.whole {
        return Ok(found);
    }
    match over_of(h, near, start) {
        Some(excess) => Err(excess),
        None => Ok(found),
    }
}

// The judgement of a sheet: its verdict with what it rests on, the plan in blank arrays that the caller lends, or why it is over. What the arrays
// hold of an over sheet is no plan.
pub fn judge_on(
    h: Head,
    near: &[u64; ELEMENTS],
    start: &[u64; CONSTRAINTS],
    slots: &mut [u64; CLUSTERS],
    parts: &mut [u16; PARTS],
    joints: &mut [u64; JOINTS],
) -> Result<Found, Excess>
    requires { Drawn h near.now start.now × Blank slots.old parts.old joints.old }
    ensures { JudgedIn (graph_in h start.now) result parts.new joints.new slots.new }
{
    if h.e + 3 == 2 * h.n {
        return judge_full(h, near, start, slots, parts, joints);
    }
    match over_of(h, near, start) {
        Some(excess) => Err(excess),
        None => Ok(merged(h, start, slots, parts, joints)),
    }
}

// ---- the plan alone

// Lent arrays made blank again.
fn blank(slots: &mut [u64; CLUSTERS], parts: &mut [u16; PARTS], joints: &mut [u64; JOINTS])
    ensures { Blank slots.new parts.new joints.new }
{
    *slots = [0; CLUSTERS];
    *parts = [0; PARTS];
    *joints = [0; JOINTS];
}

// The engine's plan of a sheet into blank arrays that the caller lends, none of an over one; answers how many steps it has.
pub fn plan_on(
    h: Head,
    near: &[u64; ELEMENTS],
    start: &[u64; CONSTRAINTS],
    slots: &mut [u64; CLUSTERS],
    parts: &mut [u16; PARTS],
    joints: &mut [u64; JOINTS],
) -> usize
    requires { Drawn h near.now start.now × Blank slots.old parts.old joints.old }
    ensures { run_in result parts.new joints.new slots.new
        ≡ (judged_of (graph_in h start.now)).run }
{
    if crowded(h) {
        return 0;
    }
    match judge_on(h, near, start, slots, parts, joints) {
        Ok(found) => found.steps,
        Err(_) => {
            blank(slots, parts, joints);
            0
        }
    }
}

// ---- the verdict alone

// What the judgement tells of a sheet, its plan left behind.
fn judged_told(
    h: Head,
    near: &[u64; ELEMENTS],
    start: &[u64; CONSTRAINTS],
) -> Result<Verdict, usize>
    requires { Drawn h near.now start.now }
    ensures { Tells (graph_in h start.now) result }
{
    let mut slots = [0u64; CLUSTERS];
    let mut parts = [0u16; PARTS];
    let mut joints = [0u64; JOINTS];
    match judge_on(h, near, start, &mut slots, &mut parts, &mut joints) {
        Ok(found) => Ok(found.verdict),
        Err(excess) => Err(excess.constraint),
    }
}

// What is told of a sheet with two lines or fewer, too few for an angle: with 2n-3 constraints that peel off to the last element it is well, and with
// fewer it is over or under.
fn few_told(h: Head, near: &[u64; ELEMENTS], start: &[u64; CONSTRAINTS]) -> Result<Verdict, usize>
    requires { Drawn h near.now start.now × (ones h.lines ≤ 2) }
    ensures { Tells (graph_in h start.now) result }
{
    if h.e + 3 == 2 * h.n {
        if peeling::core_of(near) != 0 {
            return judged_told(h, near, start);
        }
        return Ok(Verdict::Well);
    }
    match over_of(h, near, start) {
        Some(excess) => Err(excess.constraint),
        None => Ok(Verdict::Under),
    }
}

// What is told of a sheet: its verdict, or the first constraint that makes it over.
pub fn tell(h: Head, near: &[u64; ELEMENTS], start: &[u64; CONSTRAINTS]) -> Result<Verdict, usize>
    requires { Drawn h near.now start.now }
    ensures { Tells (graph_in h start.now) result }
{
    if h.lines.count_ones() <= 2 {
        return few_told(h, near, start);
    }
    judged_told(h, near, start)
}

// The verdict of a sheet. More than 2n-3 constraints are over.
pub fn verdict_of(h: Head, near: &[u64; ELEMENTS], start: &[u64; CONSTRAINTS]) -> Verdict
    requires { Drawn h near.now start.now }
    ensures { result ≡ verdict_of (graph_in h start.now) }
{
    if crowded(h) {
        return Verdict::Over;
    }
    tell(h, near, start).unwrap_or(Verdict::Over)
}
