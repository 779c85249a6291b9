// The report of a constraint graph in lent arrays: for the engine's plan, and for a saved plan that is accepted; its final clusters, and what they rest
// on. Contracts cite specs/Account.antt and specs/Resting.antt.

#![tactic(auto)]

ghost use Rattle.std.specs.Prelude.{◌≡◌, [], ◌∷◌, ◌+◌, ◌≤◌, ◌<◌, ◌^◌, length, take};
ghost use Rattle.theory.specs.Rule.{by_number};
ghost use Rattle.theory.specs.Constraints.{NotOver};
ghost use Rattle.graph.specs.Lent.{graph_in, sized_in, Sound, Drawn};
ghost use Rattle.merges.specs.Run.{run_in, Blank, Merged};
ghost use Rattle.space.specs.Space.{Put, answer, after};
ghost use Rattle.sheet.specs.Answer.{by_rule, Answers};
ghost use Rattle.sheet.specs.Graph.{over_fault};
ghost use Rattle.judge.specs.Judged.{final_clusters};
ghost use Rattle.account.specs.Resting.{rest_numbers};
ghost use Rattle.account.specs.Resting.Pairs.{pairs_in};
ghost use Rattle.account.specs.Account.{report_with, report_of, saved_field};
ghost use Rattle.account.specs.Saved.{SavedIn};

use graph::Head;
use space::put_item;
use theory::{CLUSTERS, CONSTRAINTS, ELEMENTS, JOINTS, PARTS, Rule, Verdict};

// The report of a list of merges of the constraints in lent arrays, with the given verdict.
fn put_list(
    h: Head,
    start: &[u64; CONSTRAINTS],
    sizes: &[i32; CONSTRAINTS],
    verdict: Verdict,
    count: usize,
    parts: &[u16; PARTS],
    joints: &[u64; JOINTS],
    slots: &[u64; CLUSTERS],
    out: &mut [u8],
) -> Result<usize, Rule>
    requires { Sound h.n (take h.e start.now) × (length (take h.e start.now) ≡ h.e) × NotOver (take h.e start.now)
        × Merged (take h.e start.now) (run_in count parts.now joints.now slots.now) }
    ensures { (m : Merged (take h.e start.now) (run_in count parts.now joints.now slots.now))
        → (by_number result ≡ answer (report_with (sized_in h start.now sizes.now) (verdict) m.p) out.old)
        × (out.new ≡ after (report_with (sized_in h start.now sizes.now) (verdict) m.p) out.old) }
{
    let mut low = [0u64; CLUSTERS];
    let mut high = [0u64; CLUSTERS];
    rests::carry(parts, h.e, count, &mut low, &mut high);
    report::write_report(
        out, h.n, h.e, h.lines, verdict, start, sizes, count, parts, joints, slots, &low, &high,
    )
}

// The report of a sheet: the engine's plan, or of an over sheet the first constraint and the smallest set.
pub fn report(
    h: Head,
    near: &[u64; ELEMENTS],
    start: &[u64; CONSTRAINTS],
    sizes: &[i32; CONSTRAINTS],
    out: &mut [u8],
) -> Result<usize, Rule>
    requires { Drawn h near.now start.now }
    ensures { (by_number result ≡ answer (report_of (sized_in h start.now sizes.now)) out.old)
        × (out.new ≡ after (report_of (sized_in h start.now sizes.now)) out.old) }
{
    let mut slots = [0u64; CLUSTERS];
    let mut parts = [0u16; PARTS];
    let mut joints = [0u64; JOINTS];
    match judge::judge_on(h, near, start, &mut slots, &mut parts, &mut joints) {
        Ok(found) => put_list(
            h,
            start,
            sizes,
            found.verdict,
            found.steps,
            &parts,
            &joints,
            &slots,
            out,
        ),
        Err(excess) => report::write_over_report(out, h.n, h.e, excess.constraint, excess.set),
    }
}

// ---- a saved plan

// The check of a saved plan, its merges made in blank arrays that the caller lends: how many there are; 11, then 12 to 16.
pub fn check_saved(
    h: Head,
    near: &[u64; ELEMENTS],
    start: &[u64; CONSTRAINTS],
    plan: &[u16],
    slots: &mut [u64; CLUSTERS],
    parts: &mut [u16; PARTS],
    joints: &mut [u64; JOINTS],
) -> Result<usize, Rule>
    requires drawn { Drawn h near.now start.now }
    requires lent { Blank slots.old parts.old joints.old }
    ensures { SavedIn (graph_in h start.now) plan.now result parts.new joints.new
        slots.new }
{
    if 2 * h.n < h.e + 3 {
        return Err(Rule::OverSheet);
    }
    let checked = plans::check_plan(start, h.e, plan, slots, parts, joints);
    judge::check_over_after(h, near, start, checked.steps)?;
    checked.outcome?;
    Ok(checked.steps)
}

// The check of a saved plan, and the report for it: 11, then 12 to 16, then 17.
pub fn check_plan(
    h: Head,
    near: &[u64; ELEMENTS],
    start: &[u64; CONSTRAINTS],
    sizes: &[i32; CONSTRAINTS],
    plan: &[u16],
    out: &mut [u8],
) -> Result<usize, Rule>
    requires { Drawn h near.now start.now }
    ensures { Answers (by_rule (over_fault (graph_in h start.now))
        (saved_field (sized_in h start.now sizes.now) plan.now)) out.old (by_number result) out.new }
{
    let mut slots = [0u64; CLUSTERS];
    let mut parts = [0u16; PARTS];
    let mut joints = [0u64; JOINTS];
    let count = check_saved(h, near, start, plan, &mut slots, &mut parts, &mut joints)?;
    let verdict = engine::settle(&joints, &slots, count, h.n, h.e, h.lines);
    put_list(
        h, start, sizes, verdict, count, &parts, &joints, &slots, out,
    )
}

// ---- the final clusters

// The final clusters of a sheet as sets, by number; none of an over sheet.
pub fn clusters(
    h: Head,
    near: &[u64; ELEMENTS],
    start: &[u64; CONSTRAINTS],
    out: &mut [u64],
) -> Result<usize, Rule>
    requires { Drawn h near.now start.now }
    ensures { (by_number result ≡ answer (final_clusters (graph_in h start.now)) out.old)
        × (out.new ≡ after (final_clusters (graph_in h start.now)) out.old) }
{
    let mut slots = [0u64; CLUSTERS];
    let mut parts = [0u16; PARTS];
    let mut joints = [0u64; JOINTS];
    judge::plan_on(h, near, start, &mut slots, &mut parts, &mut joints);
    engine::put_clusters(&slots, CLUSTERS, out)
}

// ---- what they rest on

// The two words of a cluster, unless it is dead.
fn put_pair(out: &mut [u64], at: usize, x: u64, low: u64, high: u64) -> usize
    requires { at + 2 < 2 ^ 64 }
    ensures { Put out.old at (pairs_in (x ∷ []) (low ∷ []) (high ∷ [])) result out.new × (result ≤ at + 2) }
{
    if x == 0 {
        return at;
    }
    let a1 = put_item(out, at, low);
    put_item(out, a1, high)
}

// Those of the clusters that live among the first `used` slots, by number.
fn put_pairs(
    out: &mut [u64],
    slots: &[u64; CLUSTERS],
    low: &[u64; CLUSTERS],
    high: &[u64; CLUSTERS],
    used: usize,
) -> usize
    requires { (used ≤ 192) × (length slots.now ≡ 192) × (length low.now ≡ 192) × (length high.now ≡ 192) }
    ensures { Put out.old 0 (pairs_in (take used slots.now) (take used low.now) (take used high.now)) result
        out.new }
{
    let mut next: usize = 0;
    for c in 0..used {
        next = put_pair(out, next, slots[c], low[c], high[c]);
    }
    next
}

// The same into lent space, or 17.
fn put_rests(
    slots: &[u64; CLUSTERS],
    low: &[u64; CLUSTERS],
    high: &[u64; CLUSTERS],
    used: usize,
    out: &mut [u64],
) -> Result<usize, Rule>
    requires { (used ≤ 192) × (length slots.now ≡ 192) × (length low.now ≡ 192) × (length high.now ≡ 192) }
    ensures { (by_number result ≡ answer (pairs_in (take used slots.now) (take used low.now) (take used high.now))
        out.old)
        × (out.new ≡ after (pairs_in (take used slots.now) (take used low.now) (take used high.now))
        out.old) }
{
    let count = put_pairs(&mut out[..0], slots, low, high, used);
    if out.len() < count {
        return Err(Rule::NoRoom);
    }
    Ok(put_pairs(out, slots, low, high, used))
}

// What the final clusters of a sheet rest on, two words each, by number; none of an over sheet.
pub fn rests(
    h: Head,
    near: &[u64; ELEMENTS],
    start: &[u64; CONSTRAINTS],
    out: &mut [u64],
) -> Result<usize, Rule>
    requires { Drawn h near.now start.now }
    ensures { (by_number result ≡ answer (rest_numbers (graph_in h start.now)) out.old)
        × (out.new ≡ after (rest_numbers (graph_in h start.now)) out.old) }
{
    let mut slots = [0u64; CLUSTERS];
    let mut parts = [0u16; PARTS];
    let mut joints = [0u64; JOINTS];
    let Ok(found) = judge::judge_on(h, near, start, &mut slots, &mut parts, &mut joints) else {
        return Ok(0);
    };
    let mut low = [0u64; CLUSTERS];
    let mut high = [0u64; CLUSTERS];
    rests::carry(&parts, h.e, found.steps, &mut low, &mut high);
    put_rests(&slots, &low, &high, h.e + found.steps, out)
}
