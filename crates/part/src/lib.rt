// The steps of one cluster of a graph's plan: each part's steps before the step that uses it. Document 02, 2026-14. Contracts cite specs/Part.antt,
// specs/Tallies.antt.

#![tactic(auto)]

ghost use Rattle.std.specs.Prelude.{◌≡◌, ◌+◌, ◌≤◌, ◌<◌};
ghost use Rattle.theory.specs.Rule.{by_number};
ghost use Rattle.sheet.specs.Answer.{Answers};
ghost use Rattle.graph.specs.Lent.{sized_in, Drawn};
ghost use Rattle.engine.specs.Steps.{step_at};
ghost use Rattle.report.specs.Block.{Numerals};
ghost use Rattle.part.specs.Part.{part_steps_of, held_field, lines_field};
ghost use Rattle.part.specs.Tallies.{Lower, Listed, Room, measure_of, Tallied};

use graph::Head;
use report::{BLOCK, TEXT};
use theory::{CLUSTERS, CONSTRAINTS, ELEMENTS, JOINTS, PARTS, Rule};

// How many steps, and how many bytes their lines have.
#[derive(Clone, Copy)]
pub struct Tally {
    pub steps: usize,
    pub bytes: usize,
}

// The lines of the steps of cluster c, from the place `t.bytes` on, counted: none where it is initial, else those of its parts, lowest first, then
// that of its own step.
fn put_part(
    out: &mut [u8; BLOCK],
    t: Tally,
    text: &[u8; TEXT],
    parts: &[u16; PARTS],
    joints: &[u64; JOINTS],
    start: &[u64; CONSTRAINTS],
    sizes: &[i32; CONSTRAINTS],
    lines: u64,
    e: usize,
    c: usize,
) -> Tally
    requires e_bound { (e ≤ 125) × (c < e + 62) × Lower e (step_at lines e sizes.now start.now parts.now joints.now) c }
    requires room { Room t (part_steps_of e (step_at lines e sizes.now start.now parts.now joints.now) c) }
    requires numerals { Numerals text.now }
    ensures { Listed out.old t
        (part_steps_of e (step_at lines e sizes.now start.now parts.now joints.now) c) result out.new }
{
    if c < e {
        return t;
    }
    let own = c - e;
    let s = engine::step_at(parts, joints, start, sizes, lines, e, own);
    let a = put_part(out, t, text, parts, joints, start, sizes, lines, e, s.i);
    let b = put_part(out, a, text, parts, joints, start, sizes, lines, e, s.j);
    let d = put_part(out, b, text, parts, joints, start, sizes, lines, e, s.k);
    let next = report::put_steps_from(
        out,
        d.bytes,
        text,
        parts,
        joints,
        start,
        sizes,
        lines,
        e,
        own,
        own + 1,
    );
    Tally {
        steps: d.steps + 1,
        bytes: next,
    }
}

// The lines of the steps of cluster c of a graph's plan, from the front of the block, and how many they are: 11, then 26.
fn put_cluster(
    h: Head,
    near: &[u64; ELEMENTS],
    start: &[u64; CONSTRAINTS],
    sizes: &[i32; CONSTRAINTS],
    c: usize,
    out: &mut [u8; BLOCK],
) -> Result<Tally, Rule>
    requires { Drawn h near.now start.now }
    ensures { Tallied (held_field (sized_in h start.now sizes.now) c) out.old (by_number result) out.new }
{
    let mut slots = [0u64; CLUSTERS];
    let mut parts = [0u16; PARTS];
    let mut joints = [0u64; JOINTS];
    let Ok(found) = judge::judge_on(h, near, start, &mut slots, &mut parts, &mut joints) else {
        return Err(Rule::OverSheet);
    };
    if h.e + found.steps <= c {
        return Err(Rule::NoPart);
    }
    let text = report::numerals();
    let none = Tally { steps: 0, bytes: 0 };
    let all = put_part(
        out, none, &text, &parts, &joints, start, sizes, h.lines, h.e, c,
    );
    Ok(all)
}

// How many steps cluster c has and how many bytes their lines, into no lent space: 11, then 26.
pub fn measure(
    h: Head,
    near: &[u64; ELEMENTS],
    start: &[u64; CONSTRAINTS],
    sizes: &[i32; CONSTRAINTS],
    c: usize,
) -> Result<Tally, Rule>
    requires { Drawn h near.now start.now }
    ensures { by_number result ≡ measure_of (held_field (sized_in h start.now sizes.now) c) }
{
    let mut lines: [u8; BLOCK] = [0; BLOCK];
    put_cluster(h, near, start, sizes, c, &mut lines)
}

// The steps of cluster c as the report's lines, into space that takes them whole or not at all: 11, then 26, then 17.
pub fn list(
    h: Head,
    near: &[u64; ELEMENTS],
    start: &[u64; CONSTRAINTS],
    sizes: &[i32; CONSTRAINTS],
    c: usize,
    out: &mut [u8],
) -> Result<usize, Rule>
    requires { Drawn h near.now start.now }
    ensures { Answers (lines_field (held_field (sized_in h start.now sizes.now) c)) out.old (by_number result)
        out.new }
{
    let mut whole: [u8; BLOCK] = [0; BLOCK];
    let tally = put_cluster(h, near, start, sizes, c, &mut whole)?;
    space::put_all(out, &whole[..tally.bytes])
}
