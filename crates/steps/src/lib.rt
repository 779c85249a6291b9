// The plan as a list of step records that a caller lends (document 02, 2026-04): the steps by value from a graph in lent arrays, and one thin walk
// that fills the list. Contracts cite specs/Records.antt.

#![tactic(auto)]

ghost use Rattle.std.specs.Prelude.{◌≡◌, [], ◌+◌, ◌<◌, ◌≤◌, ◌^◌, length, take};
ghost use Rattle.theory.specs.Rule.{by_number};
ghost use Rattle.graph.specs.Lent.{graph_in, sized_in, Drawn};
ghost use Rattle.space.specs.Space.{Put};
ghost use Rattle.sheet.specs.Field.{value};
ghost use Rattle.sheet.specs.Answer.{by_rule, Answers};
ghost use Rattle.sheet.specs.Graph.{over_fault};
ghost use Rattle.steps.specs.Records.{plan_steps, saved_records};
ghost use Rattle.steps.specs.Listing.{Listed, taken_of, answer_of, filled, filled_of};
ghost use Rattle.steps.specs.Records.{kind_number, ways_number, numbers_of, step_numbers};
ghost use Rattle.steps.specs.Listing.{numbers_from};

use graph::Head;
use space::put_item;
use theory::{CLUSTERS, CONSTRAINTS, ELEMENTS, JOINTS, JointKind, PARTS, Rule, STEPS, Step, Ways};

// ---- the steps by value

// The steps of a list of merges, blank beyond them.
#[derive(Clone, Copy)]
pub struct Listing {
    pub count: usize,
    pub steps: [Step; STEPS],
}

// The steps of the engine's plan, or 11.
pub fn plan_steps(
    h: Head,
    near: &[u64; ELEMENTS],
    start: &[u64; CONSTRAINTS],
    sizes: &[i32; CONSTRAINTS],
) -> Result<Listing, Rule>
    requires { Drawn h near.now start.now }
    ensures { Listed (by_rule (over_fault (graph_in h start.now))
        (value (plan_steps (sized_in h start.now sizes.now)) [])) result }
{
    let mut slots = [0u64; CLUSTERS];
    let mut parts = [0u16; PARTS];
    let mut joints = [0u64; JOINTS];
    let Ok(found) = judge::judge_on(h, near, start, &mut slots, &mut parts, &mut joints) else {
        return Err(Rule::OverSheet);
    };
    let count = found.steps;
    let steps = engine::steps_of(&parts, &joints, count, start, sizes, h.lines, h.e);
    Ok(Listing { count, steps })
}

// The steps of a saved plan, or the rule of 11 to 16 that refuses it.
pub fn saved_steps(
    h: Head,
    near: &[u64; ELEMENTS],
    start: &[u64; CONSTRAINTS],
    sizes: &[i32; CONSTRAINTS],
    plan: &[u16],
) -> Result<Listing, Rule>
    requires { Drawn h near.now start.now }
    ensures { Listed (by_rule (over_fault (graph_in h start.now))
        (saved_records (sized_in h start.now sizes.now) plan.now)) result }
{
    let mut slots = [0u64; CLUSTERS];
    let mut parts = [0u16; PARTS];
    let mut joints = [0u64; JOINTS];
    let count = account::check_saved(h, near, start, plan, &mut slots, &mut parts, &mut joints)?;
    let steps = engine::steps_of(&parts, &joints, count, start, sizes, h.lines, h.e);
    Ok(Listing { count, steps })
}

// ---- into a lent list

// How many records go into a list of so many places: all, or none by 17.
fn check_room(len: usize, count: usize) -> Result<usize, Rule>
    ensures { result ≡ taken_of len count }
{
    if STEPS < count || len < count {
        return Err(Rule::NoRoom);
    }
    Ok(count)
}

// Fills a lent list: one record for each step, from the front; 17 where it is shorter, or the rule that refused the steps.
pub fn fill(out: &mut [Step], listing: Result<Listing, Rule>) -> Result<usize, Rule>
    ensures { (result ≡ answer_of (length out.old) listing) × (out.new ≡ filled out.old listing) }
{
    let l = match &listing {
        Ok(l) => l,
        Err(rule) => return Err(*rule),
    };
    let n = check_room(out.len(), l.count)?;
    for i in 0..n {
        out[i] = l.steps[i];
    }
    Ok(n)
}

// The answer, and the list after the call.
#[derive(Clone, Copy)]
pub struct Filled {
    pub answer: Result<usize, Rule>,
    pub list: [Step; STEPS],
}

// The same with a list of the function's own, lent whole: a caller of this one makes no reference to a record.
pub fn fill_on(listing: Result<Listing, Rule>, old: [Step; STEPS]) -> Filled
    ensures { result ≡ filled_of old listing }
{
    let mut out = old;
    let answer = fill(&mut out, listing);
    Filled { answer, list: out }
}

// ---- as numbers, for C

// How many of the joint's elements are lines.
fn kind_number(kind: JointKind) -> u64
    ensures { result ≡ kind_number kind }
{
    match kind {
        JointKind::Ppp => 0,
        JointKind::Ppl => 1,
        JointKind::Pll => 2,
        JointKind::Lll => 3,
    }
}

// How many placements there are; 256 where that is not known.
fn ways_number(ways: Ways) -> u64
    ensures { result ≡ ways_number ways }
{
    match ways {
        Ways::Known(w) => u64::from(w),
        Ways::Unknown => 256,
    }
}

// The seven numbers of a record.
fn put_record(out: &mut [u64], at: usize, s: Step) -> usize
    requires { at + 8 < 2 ^ 64 }
    ensures { Put out.old at (numbers_of s) result out.new }
{
    let a1 = put_item(out, at, s.made as u64);
    let a2 = put_item(out, a1, s.i as u64);
    let a3 = put_item(out, a2, s.j as u64);
    let a4 = put_item(out, a3, s.k as u64);
    let a5 = put_item(out, a4, s.joint);
    let a6 = put_item(out, a5, kind_number(s.kind));
    put_item(out, a6, ways_number(s.ways))
}

// The numbers of the first `count` records.
fn put_records(out: &mut [u64], f: Filled, count: usize) -> usize
    requires { count ≤ 62 }
    ensures { Put out.old 0 (step_numbers (take count f.list)) result out.new }
{
    let mut next: usize = 0;
    for s in &f.list[..count] {
        next = put_record(out, next, *s);
    }
    next
}

// The numbers of the records that were written to a list, seven a record, into lent space; the rule that refused them, or 17.
pub fn put_numbers(f: Filled, out: &mut [u64]) -> Result<usize, Rule>
    ensures { Answers (numbers_from f.list f.answer) out.old (by_number result) out.new }
{
    let n = f.answer?;
    let count = n.min(STEPS);
    if out.len() < 7 * count {
        return Err(Rule::NoRoom);
    }
    let next = put_records(out, f, count);
    Ok(next)
}
