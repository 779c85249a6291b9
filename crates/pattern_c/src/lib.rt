// The entry points for C: numbers and slices alone, each slice a pointer and a length. include/pattern.h declares them. An answer is the count of
// items written, or minus the number of the rule that refuses; specs/ says it.

#![tactic(auto)]

ghost use Rattle.std.specs.Prelude.{◌≡◌, pos, get_or, ◌%◌};
ghost use Rattle.theory.specs.Set.{◌∩◌};
ghost use Rattle.theory.specs.Rule.{by_number, refusal};
ghost use Rattle.chain.specs.Says.{says};
ghost use Rattle.judge.specs.Judged.{plan_numbers, final_clusters};
ghost use Rattle.account.specs.Resting.{rest_numbers};
ghost use Rattle.pattern.specs.Entries.{items_field, report_field, rewrite_field, verdict_field, over_numbers, initial_clusters, check_field, hold_field};
ghost use Rattle.records.specs.Record.{as_judgement, ask_field, place_field, held_record, sheet_field};
ghost use Rattle.held.specs.Held.{held_count_of, held_items_of};
ghost use Rattle.pattern.specs.Entries.{steps_field, saved_steps_field};
ghost use Rattle.steps.specs.Records.{numbers_field};
ghost use Rattle.pattern.specs.Entries.{chain_field};
ghost use Rattle.sheet.specs.Facts.{blank_constraint};
ghost use Rattle.card.specs.Card.{set_verdict};
ghost use Rattle.longest.specs.Longest.{longest_field};
ghost use Rattle.sketch.specs.Judgement.{Is};
ghost use Rattle.pattern_c.specs.Numbers.{as_count, as_number, AnswersCount, PlacedCount, as_items, ChainCount};
ghost use Rattle.pattern_c.specs.Columns.{places_of, opening_by, kind_from, kinds_listed, element_in, constraint_from, constraint_in};
ghost use Rattle.pattern_c.specs.Columns.{columns_fault, columns_field};
ghost use Rattle.pattern.specs.Entries.{part_of, part_field, count_of, missing_field};
ghost use Rattle.pattern.specs.Entries.{open_merges_field};

use sheet::{Constraint, Element, Kind, Opening, Sheet, Size};
use theory::{CONSTRAINTS, ELEMENTS, Rule, Verdict};

// The count of items written, or minus the rule's number.
fn count(answer: Result<usize, Rule>) -> i32
    ensures { result ≡ as_count (by_number answer) }
{
    match answer {
        Ok(n) => { if n < 2147483648 { n as i32 } else { 2147483647 } }
        Err(rule) => -i32::from(rule.number()),
    }
}

// A sheet read and written again: the same sheet without its tags, or the rule of 1 to 10 and 17 to 20 that refuses it.
pub fn pattern_rewrite(sheet: &[u8], out: &mut [u8]) -> i32
    ensures { AnswersCount (rewrite_field sheet.now) out.old result out.new }
{
    count(pattern::rewrite(sheet, out))
}

// ---- a sheet's facts in columns

// A constraint from its numbers.
fn constraint_from(first: u8, second: u8, map: u8, size: i32) -> Constraint
    ensures { result ≡ constraint_from first second map size }
{
    let size = sheet::size_by(map, size);
    Constraint {
        first,
        second,
        size,
    }
}

// What stands where a list is too short: a constraint that rule 6 refuses.
fn blank() -> Constraint
    ensures { result ≡ blank_constraint }
{
    Constraint {
        first: 0,
        second: 0,
        size: Size::Missing,
    }
}

// A size, 0 past the end.
fn size_at(sizes: &[i32], i: usize) -> i32
    ensures { result ≡ get_or sizes.now i (pos 0) }
{
    if i < sizes.len() { sizes[i] } else { 0 }
}

// The constraint at a place of the columns; the blank one where the place lies beyond a list that its map needs.
fn constraint_at(firsts: &[u8], seconds: &[u8], maps: &[u8], sizes: &[i32], i: usize) -> Constraint
    ensures { result ≡ constraint_in firsts.now seconds.now maps.now sizes.now i }
{
    if firsts.len() <= i {
        return blank();
    }
    if seconds.len() <= i {
        return blank();
    }
    if maps.len() <= i {
        return blank();
    }
    let first = firsts[i];
    let second = seconds[i];
    let map = maps[i];
    let size = size_at(sizes, i);
    if map % 2 == 0 {
        return constraint_from(first, second, map, size);
    }
    if sizes.len() <= i {
        return blank();
    }
    constraint_from(first, second, map, size)
}

// The block of 200 constraints in the columns.
fn constraints_in(
    firsts: &[u8],
    seconds: &[u8],
    maps: &[u8],
    sizes: &[i32],
) -> [Constraint; CONSTRAINTS]
    ensures { result ≡ places_of (constraint_in firsts.now seconds.now maps.now sizes.now) 200 }
{
    let none = blank();
    let mut cs = [none; CONSTRAINTS];
    for i in 0..CONSTRAINTS {
        cs[i] = constraint_at(firsts, seconds, maps, sizes, i);
    }
    cs
}

// A kind as a number; past the end 3, which no kind has.
fn kind_number(kinds: &[u8], i: usize) -> u8
    ensures { result ≡ get_or kinds.now i 3 }
{
    if i < kinds.len() { kinds[i] } else { 3 }
}

// A radius, 0 past the end.
fn radius_at(radii: &[u32], i: usize) -> u32
    ensures { result ≡ get_or radii.now i 0 }
{
    if i < radii.len() { radii[i] } else { 0 }
}

// Whether the first n kinds are those of elements.
fn kinds_listed(kinds: &[u8], n: usize) -> bool
    ensures { result ≡ kinds_listed kinds.now n }
{
    for i in 0..n {
        if 2 < kind_number(kinds, i) {
            return false;
        }
    }
    true
}

// A kind by its number: 0 point, 1 line, else a circle.
fn kind_from(kind: u8, radius: u32) -> Kind
    ensures { result ≡ kind_from kind radius }
{
    match kind {
        0 => Kind::Point,
        1 => Kind::Line,
        _ => Kind::Circle(radius),
    }
}

// The block of 64 elements in the columns.
fn elements_in(kinds: &[u8], radii: &[u32]) -> [Element; ELEMENTS]
    ensures { result ≡ places_of (element_in kinds.now radii.now) 64 }
{
    let none = Element { kind: Kind::Point };
    let mut elements = [none; ELEMENTS];
    for i in 0..ELEMENTS {
        elements[i] = Element {
            kind: kind_from(kind_number(kinds, i), radius_at(radii, i)),
        };
    }
    elements
}

// An opening by its number: 2 is PF02.
fn opening_by(opening: usize) -> Opening
    ensures { result ≡ opening_by opening }
{
    if opening == 2 {
        Opening::Pf02
    } else {
        Opening::Pf01
    }
}

// Rules 1, 3 and 18 of the columns.
fn check_columns(opening: usize, n: usize, kinds: &[u8]) -> Result<(), Rule>
    ensures { refusal result ≡ columns_fault opening n kinds.now }
{
    if opening < 1 || 2 < opening {
        return Err(Rule::Opening);
    }
    if !sheet::elements_in_range(n) {
        return Err(Rule::ElementCount);
    }
    if !kinds_listed(kinds, n) {
        return Err(Rule::UnknownKind);
    }
    Ok(())
}

// A sheet's facts in columns as bytes in lent space, or the rule of 1, 3, 5 to 9 and 17 to 20 that refuses them.
pub fn pattern_write(
    opening: usize,
    n: usize,
    e: usize,
    kinds: &[u8],
    radii: &[u32],
    firsts: &[u8],
    seconds: &[u8],
    maps: &[u8],
    sizes: &[i32],
    out: &mut [u8],
) -> i32
    ensures { AnswersCount
        (columns_field opening n e kinds.now radii.now firsts.now seconds.now maps.now
        sizes.now) out.old result out.new }
{
    if let Err(rule) = check_columns(opening, n, kinds) {
        return count(Err(rule));
    }
    let elements = elements_in(kinds, radii);
    let constraints = constraints_in(firsts, seconds, maps, sizes);
    let facts = Sheet {
        opening: opening_by(opening),
        n,
        e,
        elements,
        constraints,
    };
    count(pattern::write(facts, out))
}

// Whether a sheet is over: the number of the first constraint that makes it so and the smallest set, element i as bit i;
// no item where it is not over.
pub fn pattern_over(sheet: &[u8], out: &mut [u64]) -> i32
    ensures { AnswersCount (items_field over_numbers sheet.now) out.old result out.new }
{
    count(pattern::over(sheet, out))
}

// A verdict as its number, counted like items.
fn verdict_number(answer: Result<Verdict, Rule>) -> Result<usize, Rule>
    ensures { by_number result ≡ as_number (by_number answer) }
{
    Ok(usize::from(answer?.number()))
}

// The verdict of a sheet, 0 over, 1 angle, 2 well, 3 stuck, 4 under; or minus the rule of 1 to 10 and 18 to 20 that refuses it.
pub fn pattern_verdict(sheet: &[u8]) -> i32
    ensures { result ≡ as_count (as_number (as_judgement (verdict_field sheet.now))) }
{
    count(verdict_number(pattern::verdict(sheet)))
}

// The engine's plan, three numbers a step, ascending; no number of an over sheet.
pub fn pattern_plan(sheet: &[u8], out: &mut [u16]) -> i32
    ensures { AnswersCount (items_field plan_numbers sheet.now) out.old result out.new }
{
    count(pattern::plan(sheet, out))
}

// All that two sets of elements share.
pub fn pattern_shared(a: u64, b: u64) -> u64
    ensures { result ≡ a ∩ b }
{
    pattern::shared(a, b)
}

// The initial clusters as sets, element i as bit i, by cluster number: one a constraint, of an over sheet too.
pub fn pattern_initial(sheet: &[u8], out: &mut [u64]) -> i32
    ensures { AnswersCount (items_field initial_clusters sheet.now) out.old result out.new }
{
    count(pattern::initial(sheet, out))
}

// The final clusters as sets, element i as bit i, by cluster number; none of an over sheet.
pub fn pattern_clusters(sheet: &[u8], out: &mut [u64]) -> i32
    ensures { AnswersCount (items_field final_clusters sheet.now) out.old result out.new }
{
    count(pattern::clusters(sheet, out))
}

// What the final clusters rest on, in the order of `pattern_clusters`: two words each, constraint i as bit i of the first, 64 + i of the second; none of
// an over sheet.
pub fn pattern_rests(sheet: &[u8], out: &mut [u64]) -> i32
    ensures { AnswersCount (items_field rest_numbers sheet.now) out.old result out.new }
{
    count(pattern::rests(sheet, out))
}

// The report of a sheet, as bytes; or the rule of 1 to 10 and 17 to 20 that refuses it.
pub fn pattern_report(sheet: &[u8], out: &mut [u8]) -> i32
    ensures { AnswersCount (report_field sheet.now) out.old result out.new }
{
    count(pattern::report(sheet, out))
}

// The check of a saved plan, three numbers a step: the report for that plan, or the rule of 1 to 20 that refuses.
pub fn pattern_check_plan(sheet: &[u8], plan: &[u16], out: &mut [u8]) -> i32
    ensures { AnswersCount (check_field sheet.now plan.now) out.old result out.new }
{
    count(pattern::check_plan(sheet, plan, out))
}

// The steps of the engine's plan, seven numbers each: the cluster made, its three parts, the joint as a set, how many of its elements are lines, and
// how
// many placements there are, 256 where that is not known; or the rule of 1 to 11 and 17 to 20 that refuses.
pub fn pattern_steps(sheet: &[u8], out: &mut [u64]) -> i32
    ensures { AnswersCount (numbers_field (steps_field sheet.now)) out.old result out.new }
{
    count(pattern::step_numbers(sheet, out))
}

// The steps of a saved plan in the saved order, seven numbers each, or the rule of 1 to 20 that refuses.
pub fn pattern_saved_steps(sheet: &[u8], plan: &[u16], out: &mut [u64]) -> i32
    ensures { AnswersCount (numbers_field (saved_steps_field sheet.now plan.now)) out.old result out.new }
{
    count(pattern::saved_step_numbers(sheet, plan, out))
}

// ---- a held sketch in a record of lent bytes

// The sketch held from a sheet, as a record, or the rule of 1 to 11 and 17 to 20 that refuses it.
pub fn pattern_hold(sheet: &[u8], lent: &mut [u8]) -> i32
    ensures { AnswersCount (hold_field sheet.now) lent.old result lent.new }
{
    count(pattern::hold_in(sheet, lent))
}

// Asking: the verdict of the sketch with that constraint as its number, or minus the rule of 27, 6 to 9, 11 and 20 that refuses it.
pub fn pattern_ask(lent: &[u8], first: u8, second: u8, map: u8, size: i32) -> i32
    ensures { result ≡ as_count (as_number (as_judgement (ask_field lent.now (constraint_from first second map size)))) }
{
    let c = constraint_from(first, second, map, size);
    count(verdict_number(pattern::ask_in(lent, c)))
}

// Placing: the answer of asking, and the record then with that constraint; also the rules 24 and 17.
pub fn pattern_place(lent: &mut [u8], first: u8, second: u8, map: u8, size: i32, held: usize) -> i32
    ensures { PlacedCount (place_field lent.old (constraint_from first second map size) held) lent.old result
        lent.new }
{
    let c = constraint_from(first, second, map, size);
    count(verdict_number(pattern::place_in(lent, c, held)))
}

// The sheet in a record again, as bytes in lent space, or the rule of 27 and 17 that refuses.
pub fn pattern_held(lent: &[u8], out: &mut [u8]) -> i32
    ensures { AnswersCount (sheet_field lent.now) out.old result out.new }
{
    count(pattern::held_in(lent, out))
}

// How many constraints the sketch in a record has, the number that placing takes; or -27 where none stands there.
pub fn pattern_held_count(lent: &[u8]) -> i32
    ensures { result ≡ as_count (held_count_of (held_record lent.now)) }
{
    count(pattern::held_count_in(lent))
}

// The final clusters of the sketch in a record as sets, element i as bit i, by cluster number; or the rule of 27 and 17 that refuses.
pub fn pattern_held_clusters(lent: &[u8], out: &mut [u64]) -> i32
    ensures { AnswersCount (held_items_of final_clusters (held_record lent.now)) out.old result out.new }
{
    count(pattern::held_clusters_in(lent, out))
}

// What they rest on, in the order of `pattern_held_clusters`: two words each, constraint i as bit i of the first, 64 + i of the second; or the rule of 27
// and 17 that refuses.
pub fn pattern_held_rests(lent: &[u8], out: &mut [u64]) -> i32
    ensures { AnswersCount (held_items_of rest_numbers (held_record lent.now)) out.old result out.new }
{
    count(pattern::held_rests_in(lent, out))
}

// How many steps one cluster of the plan has, by its number; or minus the rule of 1 to 11, 18 to 20 and 26 that refuses.
pub fn pattern_part_steps(sheet: &[u8], number: usize) -> i32
    ensures { result ≡ as_count (count_of (part_of sheet.now number)) }
{
    count(pattern::part_steps(sheet, number))
}

// How many bytes the lines of those steps have; or minus the rule of 1 to 11, 18 to 20 and 26 that refuses.
pub fn pattern_part_bytes(sheet: &[u8], number: usize) -> i32
    ensures { result ≡ as_count (count_of (part_field sheet.now number)) }
{
    count(pattern::part_bytes(sheet, number))
}

// The steps of one cluster of the plan as the report's lines, as bytes in lent space, or the rule of 1 to 11, 17 to 20 and 26 that refuses.
pub fn pattern_part(sheet: &[u8], number: usize, out: &mut [u8]) -> i32
    ensures { AnswersCount (part_field sheet.now number) out.old result out.new }
{
    count(pattern::part(sheet, number, out))
}

// The chain's answer, counted like items; "none" by a number that no rule has.
fn count_chain(answer: Result<Option<usize>, Rule>) -> i32
    ensures { result ≡ as_count (as_items (says answer)) }
{
    match answer {
        Ok(Some(n)) => count(Ok(n)),
        Ok(None) => -100,
        Err(rule) => count(Err(rule)),
    }
}

// The numbers of the shortest run of final clusters from one element to another; minus 100 where there is none, or minus the rule of 1 to 11, 17 to
// 20 and 25 that refuses.
pub fn pattern_chain(sheet: &[u8], from: usize, to: usize, out: &mut [u16]) -> i32
    ensures { ChainCount (chain_field sheet.now from to) out.old result out.new }
{
    count_chain(pattern::chain(sheet, from, to, out))
}

// The cheapest missing dimensions, for a price for each pair in dictionary order: one number a pair, its first end times 256 plus its second; or the
// rule of 1 to 11 and 17 to 23 that refuses.
pub fn pattern_missing(sheet: &[u8], prices: &[u16], out: &mut [u16]) -> i32
    ensures { AnswersCount (missing_field sheet.now prices.now) out.old result out.new }
{
    count(pattern::missing(sheet, prices, out))
}

// The verdict of five points with the distances whose bit stands in a number, 0 over, 1 angle, 2 well, 3 stuck, 4 under.
pub fn pattern_card(number: usize) -> i32
    ensures { result ≡ as_count (as_number (Is (set_verdict 5 (number % 1024)))) }
{
    count(verdict_number(Ok(pattern::card(number))))
}

// The sheet of n points with the longest plan, as bytes in lent space, or the rule of 3 and 17 that refuses.
pub fn pattern_longest(n: usize, out: &mut [u8]) -> i32
    ensures { AnswersCount (longest_field n) out.old result out.new }
{
    count(pattern::longest(n, out))
}

// The merges that are open after `steps` of the engine's steps, or after all if there are fewer: three numbers each, ascending; or the rule of 1 to 11
// and 17 to 20 that refuses.
pub fn pattern_open(sheet: &[u8], steps: usize, out: &mut [u16]) -> i32
    ensures { AnswersCount (open_merges_field sheet.now steps) out.old result out.new }
{
    count(pattern::open_merges(sheet, steps, out))
}
