// A held sketch: asking what one constraint more would do, and placing it. Document 01, "A held sketch"; document 02, 2026-05. specs/Sketch.antt says
// which rule refuses, what is answered and what the sketch is then.

#![tactic(auto)]

ghost use Rattle.std.specs.Prelude.{◌≡◌, ◌<◌};
ghost use Rattle.theory.specs.Rule.{rule_number, by_number};
ghost use Rattle.sheet.specs.Facts.{Facts};
ghost use Rattle.sheet.specs.Rules.{or_else};
ghost use Rattle.sheet.specs.Graph.{over_fault};
ghost use Rattle.graph.specs.Lent.{graph_in, SheetIn, Drawn};
ghost use Rattle.sketch.specs.Sketch.{by27, stored, ask_answer, place_answer, place_after};
ghost use Rattle.sketch.specs.Placing.{last_rule, last_answer, PlacedIn};

use graph::{Front, Head};
use sheet::{Constraint, Sheet};
use theory::{CONSTRAINTS, ELEMENTS, Rule, Verdict};

// What placing answers, and the sketch after it: a refusal leaves it as it was.
#[derive(Clone, Copy)]
pub struct Placed {
    pub answer: Result<Verdict, Rule>,
    pub sketch: Sheet,
}

// The sheet with one constraint more, the last.
fn store(s: Sheet, c: Constraint) -> Sheet
    requires { s.e < 200 }
    ensures { result ≡ stored s c }
{
    let at = s.e;
    let mut more = s;
    more.constraints[at] = c;
    more.e = at + 1;
    more
}

// ---- in arrays

// 27 of a graph that is over, else the rule.
fn unless_over(h: Head, near: &[u64; ELEMENTS], start: &[u64; CONSTRAINTS], rule: Rule) -> Rule
    requires { Drawn h near.now start.now }
    ensures { rule_number result ≡ or_else (by27 (over_fault (graph_in h start.now))) (rule_number rule) }
{
    if judge::verdict_of(h, near, start) == Verdict::Over {
        Rule::NoSketch
    } else {
        rule
    }
}

// The rule that refuses the last of e constraints, by the first that makes them over.
fn last_rule(first: usize, e: usize) -> Rule
    requires { first < e }
    ensures { rule_number result ≡ last_rule first e }
{
    if first + 1 == e {
        Rule::OverSheet
    } else {
        Rule::NoSketch
    }
}

// What the last constraint of a graph is answered: what is told of it has the first that makes it over.
fn judge_last(h: Head, near: &[u64; ELEMENTS], start: &[u64; CONSTRAINTS]) -> Result<Verdict, Rule>
    requires { Drawn h near.now start.now }
    ensures { by_number result ≡ last_answer (graph_in h start.now) }
{
    match judge::tell(h, near, start) {
        Ok(verdict) => Ok(verdict),
        Err(first) => Err(last_rule(first, h.e)),
    }
}

// A constraint offered by the number held to the sheet in the arrays, and noted there last: its verdict, or the rule that refuses it. Whatever is
// refused anyway is refused by 27 where the sheet is over.
pub fn place_next(
    h: Front,
    near: &mut [u64; ELEMENTS],
    start: &mut [u64; CONSTRAINTS],
    codes: &mut [i32; CONSTRAINTS],
    radii: &[u32; ELEMENTS],
    c: Constraint,
    held: usize,
) -> Result<Verdict, Rule>
    requires { (f : Facts) × SheetIn f h near.old start.old codes.old radii.now }
    ensures { (f : Facts) → SheetIn f h near.old start.old codes.old radii.now
        → PlacedIn f c held h (by_number result) near.new start.new codes.new radii.now }
{
    let Front { n, e, kinds, .. } = h;
    let head = Head {
        n,
        e,
        lines: kinds.lines,
    };
    if 2 * n < e + 3 {
        return Err(Rule::NoSketch);
    }
    if held != e {
        return Err(unless_over(head, near, start, Rule::HeldCount));
    }
    if let Err(rule) = sheet::check_constraint(near, n, kinds, radii, c) {
        return Err(unless_over(head, near, start, rule));
    }
    if e + 3 == 2 * n {
        return Err(unless_over(head, near, start, Rule::OverSheet));
    }
    graph::note(
        near,
        start,
        codes,
        e,
        c.first,
        c.second,
        graph::code_of(c.size),
    );
    judge_last(Head { e: e + 1, ..head }, near, start)
}

// ---- by value

// What asking answers: the verdict, or the refusal, that the sketch with that constraint would get.
pub fn asking(s: Sheet, c: Constraint) -> Result<Verdict, Rule>
    ensures { by_number result ≡ ask_answer s c }
{
    if sheet::check_sheet(s).is_err() {
        return Err(Rule::NoSketch);
    }
    let mut near = [0u64; ELEMENTS];
    let mut start = [0u64; CONSTRAINTS];
    let mut codes = [0i32; CONSTRAINTS];
    let mut radii = [0u32; ELEMENTS];
    let front = graph::fill(s, &mut near, &mut start, &mut codes, &mut radii);
    place_next(front, &mut near, &mut start, &mut codes, &radii, c, front.e)
}

// What placing answers, and the sketch after it.
pub fn placing(s: Sheet, c: Constraint, held: usize) -> Placed
    ensures answers { by_number result.answer ≡ place_answer s c held }
    ensures leaves { result.sketch ≡ place_after s c held }
{
    if sheet::check_sheet(s).is_err() {
        return Placed {
            answer: Err(Rule::NoSketch),
            sketch: s,
        };
    }
    let mut near = [0u64; ELEMENTS];
    let mut start = [0u64; CONSTRAINTS];
    let mut codes = [0i32; CONSTRAINTS];
    let mut radii = [0u32; ELEMENTS];
    let front = graph::fill(s, &mut near, &mut start, &mut codes, &mut radii);
    let answer = place_next(front, &mut near, &mut start, &mut codes, &radii, c, held);
    let sketch = if answer.is_ok() { store(s, c) } else { s };
    Placed { answer, sketch }
}
