// The static library that C links: each entry point of `pattern_c` under its name, with its contract. include/pattern.h declares them.

#![tactic(auto)]

ghost use Rattle.std.specs.Prelude.{◌≡◌, ◌%◌};
ghost use Rattle.theory.specs.Set.{◌∩◌};
ghost use Rattle.judge.specs.Judged.{plan_numbers, final_clusters};
ghost use Rattle.account.specs.Resting.{rest_numbers};
ghost use Rattle.pattern.specs.Entries.{items_field, report_field, rewrite_field, verdict_field, over_numbers, initial_clusters, check_field, hold_field};
ghost use Rattle.records.specs.Record.{as_judgement, ask_field, place_field, held_record, sheet_field};
ghost use Rattle.held.specs.Held.{held_count_of, held_items_of};
ghost use Rattle.pattern.specs.Entries.{steps_field, saved_steps_field};
ghost use Rattle.steps.specs.Records.{numbers_field};
ghost use Rattle.pattern.specs.Entries.{chain_field};
ghost use Rattle.card.specs.Card.{set_verdict};
ghost use Rattle.longest.specs.Longest.{longest_field};
ghost use Rattle.sketch.specs.Judgement.{Is};
ghost use Rattle.pattern_c.specs.Numbers.{as_count, as_number, AnswersCount, PlacedCount, ChainCount};
ghost use Rattle.pattern_c.specs.Columns.{constraint_from};
ghost use Rattle.pattern_c.specs.Columns.{columns_field};
ghost use Rattle.pattern.specs.Entries.{part_of, part_field, count_of, missing_field};
ghost use Rattle.pattern.specs.Entries.{open_merges_field};

// A sheet read and written again: the same sheet without its tags, or the rule of 1 to 10 and 17 to 20 that refuses it.
#[unsafe(no_mangle)]
pub extern "C" fn pattern_rewrite(sheet: &[u8], out: &mut [u8]) -> i32
    ensures { AnswersCount (rewrite_field sheet.now) out.old result out.new }
{
    pattern_c::pattern_rewrite(sheet, out)
}

// A sheet's facts in columns as bytes in lent space, or the rule of 1, 3, 5 to 9 and 17 to 20 that refuses them.
#[unsafe(no_mangle)]
pub extern "C" fn pattern_write(
    opening: usize,
    n: usize,
    e: usize,
    kinds: &[u8],
    radii: &[u32],
    firsts: &[u8],
    seconds: &[u8],
    maps: &[u8],
    sizes: &[i32],
    out: &mut [u8],
) -> i32
    ensures { AnswersCount
        (columns_field opening n e kinds.now radii.now firsts.now seconds.now maps.now
        sizes.now) out.old result out.new }
{
    pattern_c::pattern_write(
        opening, n, e, kinds, radii, firsts, seconds, maps, sizes, out,
    )
}

// Whether a sheet is over: the number of the first constraint that makes it so and the smallest set, element i as bit i;
// no item where it is not over.
#[unsafe(no_mangle)]
pub extern "C" fn pattern_over(sheet: &[u8], out: &mut [u64]) -> i32
    ensures { AnswersCount (items_field over_numbers sheet.now) out.old result out.new }
{
    pattern_c::pattern_over(sheet, out)
}

// The verdict of a sheet, 0 over, 1 angle, 2 well, 3 stuck, 4 under; or minus the rule of 1 to 10 and 18 to 20 that refuses it.
#[unsafe(no_mangle)]
pub extern "C" fn pattern_verdict(sheet: &[u8]) -> i32
    ensures { result ≡ as_count (as_number (as_judgement (verdict_field sheet.now))) }
{
    pattern_c::pattern_verdict(sheet)
}

// The engine's plan, three numbers a step, ascending; no number of an over sheet.
#[unsafe(no_mangle)]
pub extern "C" fn pattern_plan(sheet: &[u8], out: &mut [u16]) -> i32
    ensures { AnswersCount (items_field plan_numbers sheet.now) out.old result out.new }
{
    pattern_c::pattern_plan(sheet, out)
}

// All that two sets of elements share.
#[unsafe(no_mangle)]
pub extern "C" fn pattern_shared(a: u64, b: u64) -> u64
    ensures { result ≡ a ∩ b }
{
    pattern_c::pattern_shared(a, b)
}

// The initial clusters as sets, element i as bit i, by cluster number: one a constraint, of an over sheet too.
#[unsafe(no_mangle)]
pub extern "C" fn pattern_initial(sheet: &[u8], out: &mut [u64]) -> i32
    ensures { AnswersCount (items_field initial_clusters sheet.now) out.old result out.new }
{
    pattern_c::pattern_initial(sheet, out)
}

// The final clusters as sets, element i as bit i, by cluster number; none of an over sheet.
#[unsafe(no_mangle)]
pub extern "C" fn pattern_clusters(sheet: &[u8], out: &mut [u64]) -> i32
    ensures { AnswersCount (items_field final_clusters sheet.now) out.old result out.new }
{
    pattern_c::pattern_clusters(sheet, out)
}

// What the final clusters rest on, in the order of `pattern_clusters`: two words each, constraint i as bit i of the first, 64 + i of the second; none of
// an over sheet.
#[unsafe(no_mangle)]
pub extern "C" fn pattern_rests(sheet: &[u8], out: &mut [u64]) -> i32
    ensures { AnswersCount (items_field rest_numbers sheet.now) out.old result out.new }
{
    pattern_c::pattern_rests(sheet, out)
}

// The report of a sheet, as bytes; or the rule of 1 to 10 and 17 to 20 that refuses it.
#[unsafe(no_mangle)]
pub extern "C" fn pattern_report(sheet: &[u8], out: &mut [u8]) -> i32
    ensures { AnswersCount (report_field sheet.now) out.old result out.new }
{
    pattern_c::pattern_report(sheet, out)
}

// The check of a saved plan, three numbers a step: the report for that plan, or the rule of 1 to 20 that refuses.
#[unsafe(no_mangle)]
pub extern "C" fn pattern_check_plan(sheet: &[u8], plan: &[u16], out: &mut [u8]) -> i32
    ensures { AnswersCount (check_field sheet.now plan.now) out.old result out.new }
{
    pattern_c::pattern_check_plan(sheet, plan, out)
}

// The steps of the engine's plan, seven numbers each: the cluster made, its three parts, the joint as a set, how many of its elements are lines, and
// how
// many placements there are, 256 where that is not known; or the rule of 1 to 11 and 17 to 20 that refuses.
#[unsafe(no_mangle)]
pub extern "C" fn pattern_steps(sheet: &[u8], out: &mut [u64]) -> i32
    ensures { AnswersCount (numbers_field (steps_field sheet.now)) out.old result out.new }
{
    pattern_c::pattern_steps(sheet, out)
}

// The steps of a saved plan in the saved order, seven numbers each, or the rule of 1 to 20 that refuses.
#[unsafe(no_mangle)]
pub extern "C" fn pattern_saved_steps(sheet: &[u8], plan: &[u16], out: &mut [u64]) -> i32
    ensures { AnswersCount (numbers_field (saved_steps_field sheet.now plan.now)) out.old result out.new }
{
    pattern_c::pattern_saved_steps(sheet, plan, out)
}

// The sketch held from a sheet, as a record, or the rule of 1 to 11 and 17 to 20 that refuses it.
#[unsafe(no_mangle)]
pub extern "C" fn pattern_hold(sheet: &[u8], lent: &mut [u8]) -> i32
    ensures { AnswersCount (hold_field sheet.now) lent.old result lent.new }
{
    pattern_c::pattern_hold(sheet, lent)
}

// Asking: the verdict of the sketch with that constraint as its number, or minus the rule of 27, 6 to 9, 11 and 20 that refuses it.
#[unsafe(no_mangle)]
pub extern "C" fn pattern_ask(lent: &[u8], first: u8, second: u8, map: u8, size: i32) -> i32
    ensures { result ≡ as_count (as_number (as_judgement (ask_field lent.now (constraint_from first second map size)))) }
{
    pattern_c::pattern_ask(lent, first, second, map, size)
}

// Placing: the answer of asking, and the record then with that constraint; also the rules 24 and 17.
#[unsafe(no_mangle)]
pub extern "C" fn pattern_place(
    lent: &mut [u8],
    first: u8,
    second: u8,
    map: u8,
    size: i32,
    held: usize,
) -> i32
    ensures { PlacedCount (place_field lent.old (constraint_from first second map size) held) lent.old result
        lent.new }
{
    pattern_c::pattern_place(lent, first, second, map, size, held)
}

// The sheet in a record again, as bytes in lent space, or the rule of 27 and 17 that refuses.
#[unsafe(no_mangle)]
pub extern "C" fn pattern_held(lent: &[u8], out: &mut [u8]) -> i32
    ensures { AnswersCount (sheet_field lent.now) out.old result out.new }
{
    pattern_c::pattern_held(lent, out)
}

// How many constraints the sketch in a record has, the number that placing takes; or -27 where none stands there.
#[unsafe(no_mangle)]
pub extern "C" fn pattern_held_count(lent: &[u8]) -> i32
    ensures { result ≡ as_count (held_count_of (held_record lent.now)) }
{
    pattern_c::pattern_held_count(lent)
}

// The final clusters of the sketch in a record as sets, element i as bit i, by cluster number; or the rule of 27 and 17 that refuses.
#[unsafe(no_mangle)]
pub extern "C" fn pattern_held_clusters(lent: &[u8], out: &mut [u64]) -> i32
    ensures { AnswersCount (held_items_of final_clusters (held_record lent.now)) out.old result out.new }
{
    pattern_c::pattern_held_clusters(lent, out)
}

// What they rest on, in the order of `pattern_held_clusters`: two words each, constraint i as bit i of the first, 64 + i of the second; or the rule of 27
// and 17 that refuses.
#[unsafe(no_mangle)]
pub extern "C" fn pattern_held_rests(lent: &[u8], out: &mut [u64]) -> i32
    ensures { AnswersCount (held_items_of rest_numbers (held_record lent.now)) out.old result out.new }
{
    pattern_c::pattern_held_rests(lent, out)
}

// How many steps one cluster of the plan has, by its number; or minus the rule of 1 to 11, 18 to 20 and 26 that refuses.
#[unsafe(no_mangle)]
pub extern "C" fn pattern_part_steps(sheet: &[u8], number: usize) -> i32
    ensures { result ≡ as_count (count_of (part_of sheet.now number)) }
{
    pattern_c::pattern_part_steps(sheet, number)
}

// How many bytes the lines of those steps have; or minus the rule of 1 to 11, 18 to 20 and 26 that refuses.
#[unsafe(no_mangle)]
pub extern "C" fn pattern_part_bytes(sheet: &[u8], number: usize) -> i32
    ensures { result ≡ as_count (count_of (part_field sheet.now number)) }
{
    pattern_c::pattern_part_bytes(sheet, number)
}

// The steps of one cluster of the plan as the report's lines, as bytes in lent space, or the rule of 1 to 11, 17 to 20 and 26 that refuses.
#[unsafe(no_mangle)]
pub extern "C" fn pattern_part(sheet: &[u8], number: usize, out: &mut [u8]) -> i32
    ensures { AnswersCount (part_field sheet.now number) out.old result out.new }
{
    pattern_c::pattern_part(sheet, number, out)
}

// The numbers of the shortest run of final clusters from one element to another; minus 100 where there is none, or minus the rule of 1 to 11, 17 to
// 20 and 25 that refuses.
#[unsafe(no_mangle)]
pub extern "C" fn pattern_chain(sheet: &[u8], from: usize, to: usize, out: &mut [u16]) -> i32
    ensures { ChainCount (chain_field sheet.now from to) out.old result out.new }
{
    pattern_c::pattern_chain(sheet, from, to, out)
}

// The cheapest missing dimensions, for a price for each pair in dictionary order: one number a pair, its first end times 256 plus its second; or the
// rule of 1 to 11 and 17 to 23 that refuses.
#[unsafe(no_mangle)]
pub extern "C" fn pattern_missing(sheet: &[u8], prices: &[u16], out: &mut [u16]) -> i32
    ensures { AnswersCount (missing_field sheet.now prices.now) out.old result out.new }
{
    pattern_c::pattern_missing(sheet, prices, out)
}

// The verdict of five points with the distances whose bit stands in a number, 0 over, 1 angle, 2 well, 3 stuck, 4 under.
#[unsafe(no_mangle)]
pub extern "C" fn pattern_card(number: usize) -> i32
    ensures { result ≡ as_count (as_number (Is (set_verdict 5 (number % 1024)))) }
{
    pattern_c::pattern_card(number)
}

// The sheet of n points with the longest plan, as bytes in lent space, or the rule of 3 and 17 that refuses.
#[unsafe(no_mangle)]
pub extern "C" fn pattern_longest(n: usize, out: &mut [u8]) -> i32
    ensures { AnswersCount (longest_field n) out.old result out.new }
{
    pattern_c::pattern_longest(n, out)
}

// The merges that are open after `steps` of the engine's steps, or after all if there are fewer: three numbers each, ascending; or the rule of 1 to 11
// and 17 to 20 that refuses.
#[unsafe(no_mangle)]
pub extern "C" fn pattern_open(sheet: &[u8], steps: usize, out: &mut [u16]) -> i32
    ensures { AnswersCount (open_merges_field sheet.now steps) out.old result out.new }
{
    pattern_c::pattern_open(sheet, steps, out)
}
