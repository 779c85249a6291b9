// What is asked of a held sketch beside one constraint more: how many constraints it holds, its clusters, and what they rest on; by value, and in a
// record of lent bytes. Document 02, 2026-04 and 2026-05. Contracts cite specs/Held.antt.

#![tactic(auto)]

ghost use Rattle.std.specs.Prelude.{◌≡◌, pos, length, replicate};
ghost use Rattle.theory.specs.Rule.{by_number};
ghost use Rattle.sheet.specs.Answer.{Answers};
ghost use Rattle.reader.specs.Answers.{SheetRead};
ghost use Rattle.judge.specs.Judged.{final_clusters};
ghost use Rattle.account.specs.Resting.{rest_numbers};
ghost use Rattle.records.specs.Record.{held_record};
ghost use Rattle.held.specs.Held.{held_value, held_count_of, held_items_of};

use graph::Front;
use sheet::Sheet;
use theory::{CONSTRAINTS, ELEMENTS, Rule};

// ---- by value

// A sketch by value, in arrays that were blank; 27 where it stands for no sheet that may be held.
fn read(
    s: Sheet,
    near: &mut [u64; ELEMENTS],
    start: &mut [u64; CONSTRAINTS],
    codes: &mut [i32; CONSTRAINTS],
    radii: &mut [u32; ELEMENTS],
) -> Result<Front, Rule>
    requires { (near.old ≡ replicate 64 0) × (start.old ≡ replicate 200 0) × (codes.old ≡ replicate 200 (pos 0)) × (length radii.old ≡ 64) }
    ensures { SheetRead (held_value s) result near.new start.new codes.new radii.new }
{
    if sheet::check_sheet(s).is_err() {
        return Err(Rule::NoSketch);
    }
    let front = graph::fill(s, near, start, codes, radii);
    if judge::check_over(graph::head_of(front), near, start).is_err() {
        return Err(Rule::NoSketch);
    }
    Ok(front)
}

// How many constraints a sketch holds, or 27.
pub fn count(s: Sheet) -> Result<usize, Rule>
    ensures { by_number result ≡ held_count_of (held_value s) }
{
    let mut near = [0u64; ELEMENTS];
    let mut start = [0u64; CONSTRAINTS];
    let mut codes = [0i32; CONSTRAINTS];
    let mut radii = [0u32; ELEMENTS];
    Ok(read(s, &mut near, &mut start, &mut codes, &mut radii)?.e)
}

// Its final clusters as sets, by number, or the rule of 27 and 17 that refuses.
pub fn clusters(s: Sheet, out: &mut [u64]) -> Result<usize, Rule>
    ensures { Answers (held_items_of final_clusters (held_value s)) out.old (by_number result) out.new }
{
    let mut near = [0u64; ELEMENTS];
    let mut start = [0u64; CONSTRAINTS];
    let mut codes = [0i32; CONSTRAINTS];
    let mut radii = [0u32; ELEMENTS];
    let front = read(s, &mut near, &mut start, &mut codes, &mut radii)?;
    account::clusters(graph::head_of(front), &near, &start, out)
}

// What they rest on, two words each, or the rule of 27 and 17 that refuses.
pub fn rests(s: Sheet, out: &mut [u64]) -> Result<usize, Rule>
    ensures { Answers (held_items_of rest_numbers (held_value s)) out.old (by_number result) out.new }
{
    let mut near = [0u64; ELEMENTS];
    let mut start = [0u64; CONSTRAINTS];
    let mut codes = [0i32; CONSTRAINTS];
    let mut radii = [0u32; ELEMENTS];
    let front = read(s, &mut near, &mut start, &mut codes, &mut radii)?;
    account::rests(graph::head_of(front), &near, &start, out)
}

// ---- in a record

// How many constraints the sketch in a record holds, or 27.
pub fn count_in(lent: &[u8]) -> Result<usize, Rule>
    ensures { by_number result ≡ held_count_of (held_record lent.now) }
{
    let mut near = [0u64; ELEMENTS];
    let mut start = [0u64; CONSTRAINTS];
    let mut codes = [0i32; CONSTRAINTS];
    let mut radii = [0u32; ELEMENTS];
    Ok(records::read_held(lent, &mut near, &mut start, &mut codes, &mut radii)?.e)
}

// Its final clusters as sets, by number, or the rule of 27 and 17 that refuses.
pub fn clusters_in(lent: &[u8], out: &mut [u64]) -> Result<usize, Rule>
    ensures { Answers (held_items_of final_clusters (held_record lent.now)) out.old (by_number result) out.new }
{
    let mut near = [0u64; ELEMENTS];
    let mut start = [0u64; CONSTRAINTS];
    let mut codes = [0i32; CONSTRAINTS];
    let mut radii = [0u32; ELEMENTS];
    let front = records::read_held(lent, &mut near, &mut start, &mut codes, &mut radii)?;
    account::clusters(graph::head_of(front), &near, &start, out)
}

// What they rest on, two words each, or the rule of 27 and 17 that refuses.
pub fn rests_in(lent: &[u8], out: &mut [u64]) -> Result<usize, Rule>
    ensures { Answers (held_items_of rest_numbers (held_record lent.now)) out.old (by_number result) out.new }
{
    let mut near = [0u64; ELEMENTS];
    let mut start = [0u64; CONSTRAINTS];
    let mut codes = [0i32; CONSTRAINTS];
    let mut radii = [0u32; ELEMENTS];
    let front = records::read_held(lent, &mut near, &mut start, &mut codes, &mut radii)?;
    account::rests(graph::head_of(front), &near, &start, out)
}
