// The public crate: every entry point that a user calls, each with its whole contract and no precondition. specs/ says what each answers.

#![tactic(auto)]

ghost use Rattle.std.specs.Prelude.{◌≡◌, [], ◌∷◌, ◌+◌, ◌*◌, ◌%◌, ◌≤◌};
ghost use Rattle.theory.specs.Rule.{by_number};
ghost use Rattle.theory.specs.Set.{◌∩◌};
ghost use Rattle.space.specs.Space.{answer, after};
ghost use Rattle.sheet.specs.Answer.{Answers, after_to};
ghost use Rattle.sheet.specs.Decode.{read_sheet};
ghost use Rattle.sheet.specs.Facts.{sheet_of};
ghost use Rattle.reader.specs.Answers.{as_reading, no_facts};
ghost use Rattle.writer.specs.Write.{write_field};
ghost use Rattle.judge.specs.Judged.{plan_numbers, final_clusters};
ghost use Rattle.sketch.specs.Sketch.{ask_answer, place_answer, place_after};
ghost use Rattle.records.specs.Record.{as_judgement, ask_field, place_field, written_field, placed_in, held_record, sheet_field};
ghost use Rattle.held.specs.Held.{held_value, held_count_of, held_items_of};
ghost use Rattle.account.specs.Resting.{rest_numbers};
ghost use Rattle.card.specs.Card.{set_verdict};
ghost use Rattle.chain.specs.Says.{says};
ghost use Rattle.chain.specs.Answer.{ChainAnswers};
ghost use Rattle.longest.specs.Longest.{longest_field};
ghost use Rattle.steps.specs.Records.{Fills, numbers_field};
ghost use Rattle.steps.specs.Listing.{Listed};
ghost use Rattle.pattern.specs.Entries.{items_field, report_field, rewrite_field, verdict_field, over_numbers, initial_clusters};
ghost use Rattle.pattern.specs.Entries.{held_sheet, check_field, steps_field, saved_steps_field, hold_field, missing_field};
ghost use Rattle.part.specs.Tallies.{measure_of};
ghost use Rattle.pattern.specs.Entries.{part_of, part_field, count_of};
ghost use Rattle.pattern.specs.Entries.{chain_field};
ghost use Rattle.pattern.specs.Entries.{open_merges_field};
ghost use Rattle.std.specs.Int.Count.{ones};
ghost use Rattle.sheet.specs.Field.{kind_bytes};

use graph::Front;
use part::Tally;
use sheet::{Constraint, Element, Kind, Opening, Sheet, Size};
use steps::Listing;
use theory::{CLUSTERS, CONSTRAINTS, ELEMENTS, JOINTS, PARTS, Rule, Step, Verdict};

// The sheet that some bytes stand for, or the rule of 1 to 10 and 18 to 20 that refuses them.
pub fn read(bytes: &[u8]) -> Result<Sheet, Rule>
    ensures { by_number result ≡ as_reading (read_sheet bytes.now) }
{
    reader::read_sheet(bytes)
}

// The blank sheet, for the place of one that is refused: no elements and no constraints, each place a point or a constraint 0-0 without size.
pub fn blank() -> Sheet
    ensures { result ≡ sheet_of no_facts }
{
    let none = Constraint {
        first: 0,
        second: 0,
        size: Size::Missing,
    };
    Sheet {
        opening: Opening::Pf01,
        n: 0,
        e: 0,
        elements: [Element { kind: Kind::Point }; ELEMENTS],
        constraints: [none; CONSTRAINTS],
    }
}

// A sheet's facts as bytes in lent space, or the rule of 3, 5 to 9 and 17 to 20 that refuses them.
pub fn write(sheet: Sheet, out: &mut [u8]) -> Result<usize, Rule>
    ensures { Answers (write_field sheet) out.old (by_number result) out.new }
{
    writer::write_sheet(sheet, out)
}

// How many bytes precede the constraints of a sheet.
fn length_before(h: Front) -> usize
    requires { h.n ≤ 64 }
    ensures { result ≡ 6 + kind_bytes h.opening h.n + 4 * ones h.kinds.circles }
{
    let kinds = h.kinds;
    let radii = 4 * (u64::count_ones(kinds.circles) as usize);
    let o = h.opening;
    match o {
        Opening::Pf01 => 6 + (h.n + 7) / 8 + radii,
        Opening::Pf02 => 6 + (h.n + 3) / 4 + radii,
    }
}

// A sheet read and written again: the same sheet without its tags, or the rule of 1 to 10 and 17 to 20 that refuses it.
pub fn rewrite(bytes: &[u8], out: &mut [u8]) -> Result<usize, Rule>
    ensures { Answers (rewrite_field bytes.now) out.old (by_number result) out.new }
{
    let mut near = [0u64; ELEMENTS];
    let mut start = [0u64; CONSTRAINTS];
    let mut codes = [0i32; CONSTRAINTS];
    let mut radii = [0u32; ELEMENTS];
    let front = reader::read_codes(bytes, &mut near, &mut start, &mut codes, &mut radii)?;
    writer::write_untagged(bytes, length_before(front), out)
}

// Two numbers into lent space, or 17.
fn put_two(a: u64, b: u64, out: &mut [u64]) -> Result<usize, Rule>
    ensures { (by_number result ≡ answer (a ∷ b ∷ []) out.old) × (out.new ≡ after (a ∷ b ∷ []) out.old) }
{
    if out.len() < 2 {
        return Err(Rule::NoRoom);
    }
    out[0] = a;
    out[1] = b;
    Ok(2)
}

// Whether a sheet is over: the first constraint that makes it so and the smallest set, or no item where it is not over.
pub fn over(bytes: &[u8], out: &mut [u64]) -> Result<usize, Rule>
    ensures { Answers (items_field over_numbers bytes.now) out.old (by_number result) out.new }
{
    let mut near = [0u64; ELEMENTS];
    let mut start = [0u64; CONSTRAINTS];
    let mut sizes = [0i32; CONSTRAINTS];
    let head = reader::read_graph(bytes, &mut near, &mut start, &mut sizes)?;
    match judge::over_of(head, &near, &start) {
        Some(excess) => put_two(excess.constraint as u64, excess.set, out),
        None => Ok(0),
    }
}

// The verdict of a sheet.
pub fn verdict(bytes: &[u8]) -> Result<Verdict, Rule>
    ensures { by_number result ≡ as_judgement (verdict_field bytes.now) }
{
    let mut near = [0u64; ELEMENTS];
    let mut start = [0u64; CONSTRAINTS];
    let mut sizes = [0i32; CONSTRAINTS];
    let head = reader::read_graph(bytes, &mut near, &mut start, &mut sizes)?;
    let is = judge::verdict_of(head, &near, &start);
    Ok(is)
}

// The engine's plan, three numbers a step, ascending; no number of an over sheet.
pub fn plan(bytes: &[u8], out: &mut [u16]) -> Result<usize, Rule>
    ensures { Answers (items_field plan_numbers bytes.now) out.old (by_number result) out.new }
{
    let mut near = [0u64; ELEMENTS];
    let mut start = [0u64; CONSTRAINTS];
    let mut sizes = [0i32; CONSTRAINTS];
    let head = reader::read_graph(bytes, &mut near, &mut start, &mut sizes)?;
    let mut slots = [0u64; CLUSTERS];
    let mut parts = [0u16; PARTS];
    let mut joints = [0u64; JOINTS];
    let steps = judge::plan_on(head, &near, &start, &mut slots, &mut parts, &mut joints);
    let count = 3 * steps;
    space::put_all(out, &parts[..count])
}

// All that two sets of elements share.
pub fn shared(a: u64, b: u64) -> u64
    ensures { result ≡ a ∩ b }
{
    sets::shared(a, b)
}

// The initial clusters as sets, by number: one a constraint, of an over sheet too.
pub fn initial(bytes: &[u8], out: &mut [u64]) -> Result<usize, Rule>
    ensures { Answers (items_field initial_clusters bytes.now) out.old (by_number result) out.new }
{
    let mut near = [0u64; ELEMENTS];
    let mut start = [0u64; CONSTRAINTS];
    let mut sizes = [0i32; CONSTRAINTS];
    let head = reader::read_graph(bytes, &mut near, &mut start, &mut sizes)?;
    let e = head.e;
    space::put_all(out, &start[..e])
}

// The final clusters as sets, by number; none of an over sheet.
pub fn clusters(bytes: &[u8], out: &mut [u64]) -> Result<usize, Rule>
    ensures { Answers (items_field final_clusters bytes.now) out.old (by_number result) out.new }
{
    let mut near = [0u64; ELEMENTS];
    let mut start = [0u64; CONSTRAINTS];
    let mut sizes = [0i32; CONSTRAINTS];
    let head = reader::read_graph(bytes, &mut near, &mut start, &mut sizes)?;
    account::clusters(head, &near, &start, out)
}

// What the final clusters rest on, by number: two words each, the constraint numbers to 63 and those from 64 on; none of an over sheet.
pub fn rests(bytes: &[u8], out: &mut [u64]) -> Result<usize, Rule>
    ensures { Answers (items_field rest_numbers bytes.now) out.old (by_number result) out.new }
{
    let mut near = [0u64; ELEMENTS];
    let mut start = [0u64; CONSTRAINTS];
    let mut sizes = [0i32; CONSTRAINTS];
    let head = reader::read_graph(bytes, &mut near, &mut start, &mut sizes)?;
    account::rests(head, &near, &start, out)
}

// The report of a sheet, as bytes in lent space.
pub fn report(bytes: &[u8], out: &mut [u8]) -> Result<usize, Rule>
    ensures { Answers (report_field bytes.now) out.old (by_number result) out.new }
{
    let mut near = [0u64; ELEMENTS];
    let mut start = [0u64; CONSTRAINTS];
    let mut sizes = [0i32; CONSTRAINTS];
    let head = reader::read_graph(bytes, &mut near, &mut start, &mut sizes)?;
    account::report(head, &near, &start, &sizes, out)
}

// The check of a saved plan, three numbers a step, against a sheet; the report for that plan, or the rule of 1 to 20 that refuses.
pub fn check_plan(bytes: &[u8], plan: &[u16], out: &mut [u8]) -> Result<usize, Rule>
    ensures { Answers (check_field bytes.now plan.now) out.old (by_number result) out.new }
{
    let mut near = [0u64; ELEMENTS];
    let mut start = [0u64; CONSTRAINTS];
    let mut sizes = [0i32; CONSTRAINTS];
    let head = reader::read_graph(bytes, &mut near, &mut start, &mut sizes)?;
    account::check_plan(head, &near, &start, &sizes, plan, out)
}

// ---- the plan as a list of step records

// The steps of the engine's plan by value, or the rule of 1 to 11 and 18 to 20 that refuses.
fn plan_listing(bytes: &[u8]) -> Result<Listing, Rule>
    ensures { Listed (steps_field bytes.now) result }
{
    let mut near = [0u64; ELEMENTS];
    let mut start = [0u64; CONSTRAINTS];
    let mut sizes = [0i32; CONSTRAINTS];
    let head = reader::read_graph(bytes, &mut near, &mut start, &mut sizes)?;
    steps::plan_steps(head, &near, &start, &sizes)
}

// The steps of a saved plan by value, or the rule of 1 to 16 and 18 to 20 that refuses.
fn saved_listing(bytes: &[u8], plan: &[u16]) -> Result<Listing, Rule>
    ensures { Listed (saved_steps_field bytes.now plan.now) result }
{
    let mut near = [0u64; ELEMENTS];
    let mut start = [0u64; CONSTRAINTS];
    let mut sizes = [0i32; CONSTRAINTS];
    let head = reader::read_graph(bytes, &mut near, &mut start, &mut sizes)?;
    steps::saved_steps(head, &near, &start, &sizes, plan)
}

// The engine's plan as records in a list that the caller lends, one for each step, or the rule of 1 to 11 and 17 to 20 that refuses.
pub fn steps(bytes: &[u8], out: &mut [Step]) -> Result<usize, Rule>
    ensures { Fills (steps_field bytes.now) out.old (by_number result) out.new }
{
    steps::fill(out, plan_listing(bytes))
}

// A saved plan's steps, in the saved order, as records in a list that the caller lends, or the rule of 1 to 20 that refuses.
pub fn saved_steps(bytes: &[u8], plan: &[u16], out: &mut [Step]) -> Result<usize, Rule>
    ensures { Fills (saved_steps_field bytes.now plan.now) out.old (by_number result) out.new }
{
    steps::fill(out, saved_listing(bytes, plan))
}

// The records of the engine's plan as numbers, seven a step, in lent space, or the rule of 1 to 11 and 17 to 20 that refuses.
pub fn step_numbers(bytes: &[u8], out: &mut [u64]) -> Result<usize, Rule>
    ensures { Answers (numbers_field (steps_field bytes.now)) out.old (by_number result) out.new }
{
    let l = plan_listing(bytes)?;
    let filled = steps::fill_on(Ok(l), l.steps);
    steps::put_numbers(filled, out)
}

// The records of a saved plan as numbers, seven a step, in lent space, or the rule of 1 to 20 that refuses.
pub fn saved_step_numbers(bytes: &[u8], plan: &[u16], out: &mut [u64]) -> Result<usize, Rule>
    ensures { Answers (numbers_field (saved_steps_field bytes.now plan.now)) out.old (by_number result) out.new }
{
    let l = saved_listing(bytes, plan)?;
    let filled = steps::fill_on(Ok(l), l.steps);
    steps::put_numbers(filled, out)
}

// ---- the steps of one cluster

// The steps of one cluster of the plan, by its number, measured; or the rule of 1 to 11, 18 to 20 and 26 that refuses.
fn part_size(bytes: &[u8], number: usize) -> Result<Tally, Rule>
    ensures { by_number result ≡ measure_of (part_of bytes.now number) }
{
    let mut near = [0u64; ELEMENTS];
    let mut start = [0u64; CONSTRAINTS];
    let mut sizes = [0i32; CONSTRAINTS];
    let head = reader::read_graph(bytes, &mut near, &mut start, &mut sizes)?;
    part::measure(head, &near, &start, &sizes, number)
}

// How many steps one cluster of the plan has, without writing any; or the rule of 1 to 11, 18 to 20 and 26 that refuses.
pub fn part_steps(bytes: &[u8], number: usize) -> Result<usize, Rule>
    ensures { by_number result ≡ count_of (part_of bytes.now number) }
{
    Ok(part_size(bytes, number)?.steps)
}

// How many bytes the lines of those steps have, without writing any; or the rule of 1 to 11, 18 to 20 and 26 that refuses.
pub fn part_bytes(bytes: &[u8], number: usize) -> Result<usize, Rule>
    ensures { by_number result ≡ count_of (part_field bytes.now number) }
{
    Ok(part_size(bytes, number)?.bytes)
}

// The steps of one cluster of the plan as the report's lines, as bytes in lent space; or the rule of 1 to 11, 17 to 20 and 26 that refuses.
pub fn part(bytes: &[u8], number: usize, out: &mut [u8]) -> Result<usize, Rule>
    ensures { Answers (part_field bytes.now number) out.old (by_number result) out.new }
{
    let mut near = [0u64; ELEMENTS];
    let mut start = [0u64; CONSTRAINTS];
    let mut sizes = [0i32; CONSTRAINTS];
    let head = reader::read_graph(bytes, &mut near, &mut start, &mut sizes)?;
    part::list(head, &near, &start, &sizes, number, out)
}

// The cheapest missing dimensions of a sheet, for a price for each pair: one number a pair, its first end times 256 plus its second, by price, then
// pair; or the rule of 1 to 11 and 17 to 23 that refuses.
pub fn missing(bytes: &[u8], prices: &[u16], out: &mut [u16]) -> Result<usize, Rule>
    ensures { Answers (missing_field bytes.now prices.now) out.old (by_number result) out.new }
{
    let mut near = [0u64; ELEMENTS];
    let mut start = [0u64; CONSTRAINTS];
    let mut sizes = [0i32; CONSTRAINTS];
    let head = reader::read_graph(bytes, &mut near, &mut start, &mut sizes)?;
    missing::missing(head, &near, &start, prices, out)
}

// ---- a held sketch

// The sketch held from a sheet, or the rule of 1 to 11 and 18 to 20 that refuses it.
pub fn hold(bytes: &[u8]) -> Result<Sheet, Rule>
    ensures { by_number result ≡ as_reading (held_sheet bytes.now) }
{
    let mut near = [0u64; ELEMENTS];
    let mut start = [0u64; CONSTRAINTS];
    let mut codes = [0i32; CONSTRAINTS];
    let mut radii = [0u32; ELEMENTS];
    let front = reader::read_codes(bytes, &mut near, &mut start, &mut codes, &mut radii)?;
    let head = graph::head_of(front);
    judge::check_over(head, &near, &start)?;
    Ok(graph::sheet_of(front, &start, &codes, &radii))
}

// Asking: the verdict of a held sketch with one more constraint, or the rule of 27, 6 to 9, 11 and 20 that refuses it.
pub fn ask(s: &Sheet, c: Constraint) -> Result<Verdict, Rule>
    ensures { by_number result ≡ ask_answer s.now c }
{
    sketch::asking(*s, c)
}

// Placing: a held sketch takes one more constraint, and answers as asking would; or the rule of 27, 24, 6 to 9, 11 and 20 refuses it.
pub fn place(s: &mut Sheet, c: Constraint, held: usize) -> Result<Verdict, Rule>
    ensures { (by_number result ≡ place_answer s.old c held) × (s.new ≡ place_after s.old c held) }
{
    let r = sketch::placing(*s, c, held);
    *s = r.sketch;
    r.answer
}

// How many constraints a held sketch has, the number that placing takes; or 27.
pub fn held_count(s: Sheet) -> Result<usize, Rule>
    ensures { by_number result ≡ held_count_of (held_value s) }
{
    held::count(s)
}

// The final clusters of a held sketch as sets, by number, or the rule of 27 and 17 that refuses.
pub fn held_clusters(s: Sheet, out: &mut [u64]) -> Result<usize, Rule>
    ensures { Answers (held_items_of final_clusters (held_value s)) out.old (by_number result) out.new }
{
    held::clusters(s, out)
}

// What they rest on, by number: two words each, the constraint numbers to 63 and those from 64 on; or the rule of 27 and 17 that refuses.
pub fn held_rests(s: Sheet, out: &mut [u64]) -> Result<usize, Rule>
    ensures { Answers (held_items_of rest_numbers (held_value s)) out.old (by_number result) out.new }
{
    held::rests(s, out)
}

// ---- a held sketch in lent bytes

// The sketch held from a sheet, as a record in lent bytes, or the rule of 1 to 11 and 17 to 20 that refuses it.
pub fn hold_in(bytes: &[u8], lent: &mut [u8]) -> Result<usize, Rule>
    ensures { Answers (hold_field bytes.now) lent.old (by_number result) lent.new }
{
    let mut near = [0u64; ELEMENTS];
    let mut start = [0u64; CONSTRAINTS];
    let mut codes = [0i32; CONSTRAINTS];
    let mut radii = [0u32; ELEMENTS];
    let front = reader::read_codes(bytes, &mut near, &mut start, &mut codes, &mut radii)?;
    judge::check_over(graph::head_of(front), &near, &start)?;
    let sheet = graph::sheet_of(front, &start, &codes, &radii);
    records::write(sheet, lent)
}

// Asking of a record.
pub fn ask_in(lent: &[u8], c: Constraint) -> Result<Verdict, Rule>
    ensures { by_number result ≡ as_judgement (ask_field lent.now c) }
{
    records::ask(lent, c)
}

// Placing in a record: also 17, where it has no room.
pub fn place_in(lent: &mut [u8], c: Constraint, held: usize) -> Result<Verdict, Rule>
    ensures { (by_number result ≡ placed_in (place_field lent.old c held) lent.old)
        × (lent.new ≡ after_to (written_field (place_field lent.old c held)) lent.old) }
{
    records::place(lent, c, held)
}

// The sheet in a record again, as bytes in lent space, or the rule of 27 and 17 that refuses.
pub fn held_in(lent: &[u8], out: &mut [u8]) -> Result<usize, Rule>
    ensures { Answers (sheet_field lent.now) out.old (by_number result) out.new }
{
    records::sheet(lent, out)
}

// How many constraints the sketch in a record has, the number that placing takes; or 27.
pub fn held_count_in(lent: &[u8]) -> Result<usize, Rule>
    ensures { by_number result ≡ held_count_of (held_record lent.now) }
{
    held::count_in(lent)
}

// The final clusters of the sketch in a record as sets, by number, or the rule of 27 and 17 that refuses.
pub fn held_clusters_in(lent: &[u8], out: &mut [u64]) -> Result<usize, Rule>
    ensures { Answers (held_items_of final_clusters (held_record lent.now)) out.old (by_number result) out.new }
{
    held::clusters_in(lent, out)
}

// What they rest on, by number: two words each, the constraint numbers to 63 and those from 64 on; or the rule of 27 and 17 that refuses.
pub fn held_rests_in(lent: &[u8], out: &mut [u64]) -> Result<usize, Rule>
    ensures { Answers (held_items_of rest_numbers (held_record lent.now)) out.old (by_number result) out.new }
{
    held::rests_in(lent, out)
}

// ---- the chain from one element to another

// The numbers of the shortest run of final clusters from one element to another, into lent space; "none" where the two are not connected; or the rule of
// 1 to 11, 17 to 20 and 25 that refuses.
pub fn chain(bytes: &[u8], from: usize, to: usize, out: &mut [u16]) -> Result<Option<usize>, Rule>
    ensures { ChainAnswers (chain_field bytes.now from to) out.old (says result) out.new }
{
    let mut near = [0u64; ELEMENTS];
    let mut start = [0u64; CONSTRAINTS];
    let mut sizes = [0i32; CONSTRAINTS];
    let head = reader::read_graph(bytes, &mut near, &mut start, &mut sizes)?;
    chain::chain_of(head, &near, &start, from, to, out)
}

// ---- the card of five points

// The verdict of five points with the distances whose bit stands in a number, pair (0,1) the lowest bit, then dictionary order; bits from 10 on stand
// for no pair.
pub fn card(number: usize) -> Verdict
    ensures { result ≡ set_verdict 5 (number % 1024) }
{
    card::verdict(number)
}

// ---- the sheet with the longest plan

// The sheet of n points with the longest plan, as bytes in lent space, or the rule of 3 and 17 that refuses.
pub fn longest(n: usize, out: &mut [u8]) -> Result<usize, Rule>
    ensures { Answers (longest_field n) out.old (by_number result) out.new }
{
    longest::write(n, out)
}

// ---- the merges that are open

// The merges that are open after `count` of the engine's steps, or after all if there are fewer: three numbers each, ascending, by the lowest element of
// the joint, then place by place; or the rule of 1 to 11 and 17 to 20 that refuses.
pub fn open_merges(bytes: &[u8], count: usize, out: &mut [u16]) -> Result<usize, Rule>
    ensures { Answers (open_merges_field bytes.now count) out.old (by_number result) out.new }
{
    let mut near = [0u64; ELEMENTS];
    let mut start = [0u64; CONSTRAINTS];
    let mut sizes = [0i32; CONSTRAINTS];
    let head = reader::read_graph(bytes, &mut near, &mut start, &mut sizes)?;
    opens::open_of(head, &near, &start, count, out)
}
