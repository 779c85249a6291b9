// The check of a saved plan. Document 01, "Refused", rules 12, 13, 15 and 16. Contracts cite specs/Check.antt.

#![tactic(auto)]

ghost use Rattle.std.specs.Prelude.{◌≡◌, List, [], ℕ, ◌+◌, ◌≤◌, length, take};
ghost use Rattle.theory.specs.Constraints.{NotOver};
ghost use Rattle.theory.specs.Merge.{Merge, slot, final};
ghost use Rattle.theory.specs.Plan.{ascending};
ghost use Rattle.theory.specs.Rule.{refusal};
ghost use Rattle.merges.specs.Run.{most_steps, places, Blank, Start};
ghost use Rattle.merges.specs.Going.{Slots};
ghost use Rattle.plans.specs.Check.{step_fault, steps_fault, as_merge, Checks};

use theory::{CLUSTERS, CONSTRAINTS, JOINTS, PARTS, Rule};

// The parts of a step.
#[derive(Clone, Copy)]
pub struct Parts {
    pub i: usize,
    pub j: usize,
    pub k: usize,
}

// The cluster of a number, 0 if it is dead or was never made.
fn cluster_at(slots: &[u64; CLUSTERS], i: usize) -> u64
    requires { length slots.now ≡ places }
    ensures { result ≡ slot slots.now i }
{
    slots.get(i).copied().unwrap_or(0)
}

// The three numbers in ascending order.
fn ascend(step: Parts) -> Parts
    ensures { as_merge result ≡ ascending (as_merge step) }
{
    let Parts { i, j, k } = step;
    let low = i.min(j);
    let high = i.max(j);
    Parts {
        i: low.min(k),
        j: low.max(high.min(k)),
        k: high.max(k),
    }
}

// Rule 13 of a step, that it names three living clusters, each once, and 15, that they make an open merge.
fn check_step(slots: &[u64; CLUSTERS], step: Parts) -> Result<(), Rule>
    requires { length slots.now ≡ places }
    ensures { refusal result ≡ step_fault slots.now (as_merge step) }
{
    let Parts { i, j, k } = step;
    let a = cluster_at(slots, i);
    let b = cluster_at(slots, j);
    let c = cluster_at(slots, k);
    if a == 0 || b == 0 || c == 0 || i == j || j == k || i == k {
        return Err(Rule::NoCluster);
    }
    if !merges::open3(a, b, c) {
        return Err(Rule::NotOpen);
    }
    Ok(())
}

// Rule 16 of the end of a plan after so many steps on e constraints that are not over: no merge is still open.
fn check_end(slots: &[u64; CLUSTERS], e: usize, steps: usize) -> Result<(), Rule>
    requires { (steps ≤ most_steps) × (e + steps ≤ places) }
    ensures { (cs : List ℕ) (p : List Merge) → NotOver cs → length cs ≡ e → Slots cs p slots.now (e + steps)
        → refusal result ≡ steps_fault (final cs p) [] }
{
    if !merges::one_left(e, steps) && merges::some_open(slots, e + steps) {
        return Err(Rule::StillOpen);
    }
    Ok(())
}

// What the check of a saved plan answers: whether a rule refuses it, and how many of its merges were made in any case.
#[derive(Clone, Copy)]
pub struct Checked {
    pub outcome: Result<(), Rule>,
    pub steps: usize,
}

// The check of a saved plan against the constraints that are the first e of `start`, its merges made in blank arrays that the caller lends.
pub fn check_plan(
    start: &[u64; CONSTRAINTS],
    e: usize,
    plan: &[u16],
    slots: &mut [u64; CLUSTERS],
    parts: &mut [u16; PARTS],
    joints: &mut [u64; JOINTS],
) -> Checked
    requires starts { Start start.now e }
    requires lent { Blank slots.old parts.old joints.old }
    ensures { Checks (take e start.now) plan.now result parts.new joints.new
        slots.new }
{
    merges::lay(slots, start, e);
    let (named, left) = plan.as_chunks::<3>();
    if !left.is_empty() {
        return Checked {
            outcome: Err(Rule::PlanLength),
            steps: 0,
        };
    }
    for (steps, [i, j, k]) in named.iter().enumerate() {
        let step = Parts {
            i: usize::from(*i),
            j: usize::from(*j),
            k: usize::from(*k),
        };
        let outcome = check_step(slots, step);
        if outcome.is_err() {
            return Checked { outcome, steps };
        }
        let p = ascend(step);
        merges::step(slots, parts, joints, e + steps, steps, p.i, p.j, p.k);
    }
    let steps = named.len();
    Checked {
        outcome: check_end(slots, e, steps),
        steps,
    }
}
