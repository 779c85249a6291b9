// A held sketch in bytes that its owner lends: the record for C. Document 02, 2026-05. specs/Record.antt says how it is laid out, and what asking and
// placing answer and leave in it.

#![tactic(auto)]

ghost use Rattle.std.specs.Prelude.{◌≡◌, pos, length, replicate};
ghost use Rattle.theory.specs.Rule.{by_number};
ghost use Rattle.space.specs.Space.{answer, after};
ghost use Rattle.sheet.specs.Facts.{facts_of};
ghost use Rattle.sheet.specs.Rules.{sheet_fault};
ghost use Rattle.sheet.specs.Answer.{Answers, after_to};
ghost use Rattle.reader.specs.Answers.{SheetRead};
ghost use Rattle.records.specs.Record.{record_bytes, record_sheet, as_judgement, ask_field, place_field};
ghost use Rattle.records.specs.Record.{written_field, placed_in, held_record, sheet_field};

use graph::Front;
use sheet::{Constraint, Sheet};
use theory::{CONSTRAINTS, ELEMENTS, Rule, Verdict};

// The sheet in a record, in arrays that were blank; 27 where none stands there.
fn read(
    lent: &[u8],
    near: &mut [u64; ELEMENTS],
    start: &mut [u64; CONSTRAINTS],
    codes: &mut [i32; CONSTRAINTS],
    radii: &mut [u32; ELEMENTS],
) -> Result<Front, Rule>
    requires { (near.old ≡ replicate 64 0) × (start.old ≡ replicate 200 0) × (codes.old ≡ replicate 200 (pos 0)) × (length radii.old ≡ 64) }
    ensures { SheetRead (record_sheet lent.now) result near.new start.new codes.new radii.new }
{
    if lent.len() < 2 {
        return Err(Rule::NoSketch);
    }
    let end = 2 + usize::from(u16::from_le_bytes([lent[0], lent[1]]));
    if lent.len() < end {
        return Err(Rule::NoSketch);
    }
    reader::read_codes(&lent[2..end], near, start, codes, radii).or(Err(Rule::NoSketch))
}

// The facts as a record at the front of lent bytes, or 17.
pub fn write(s: Sheet, out: &mut [u8]) -> Result<usize, Rule>
    requires { sheet_fault s ≡ 0 }
    ensures { (by_number result ≡ answer (record_bytes (facts_of s)) out.old)
        × (out.new ≡ after (record_bytes (facts_of s)) out.old) }
{
    if out.len() < 2 {
        return Err(Rule::NoRoom);
    }
    let length = writer::write_accepted(s, &mut out[2..])?;
    let front = space::put_text(out, 0, &(length as u16).to_le_bytes());
    Ok(front + length)
}

// What asking answers of a record.
pub fn ask(lent: &[u8], c: Constraint) -> Result<Verdict, Rule>
    ensures { by_number result ≡ as_judgement (ask_field lent.now c) }
{
    let mut near = [0u64; ELEMENTS];
    let mut start = [0u64; CONSTRAINTS];
    let mut codes = [0i32; CONSTRAINTS];
    let mut radii = [0u32; ELEMENTS];
    let front = read(lent, &mut near, &mut start, &mut codes, &mut radii)?;
    sketch::place_next(front, &mut near, &mut start, &mut codes, &radii, c, front.e)
}

// Placing in a record: what it answers, and the record with the constraint where no rule refuses.
pub fn place(lent: &mut [u8], c: Constraint, held: usize) -> Result<Verdict, Rule>
    ensures { (by_number result ≡ placed_in (place_field lent.old c held) lent.old)
        × (lent.new ≡ after_to (written_field (place_field lent.old c held)) lent.old) }
{
    let mut near = [0u64; ELEMENTS];
    let mut start = [0u64; CONSTRAINTS];
    let mut codes = [0i32; CONSTRAINTS];
    let mut radii = [0u32; ELEMENTS];
    let front = read(lent, &mut near, &mut start, &mut codes, &mut radii)?;
    let verdict = sketch::place_next(front, &mut near, &mut start, &mut codes, &radii, c, held)?;
    let next = Front {
        e: front.e + 1,
        ..front
    };
    write(graph::sheet_of(next, &start, &codes, &radii), lent)?;
    Ok(verdict)
}

// ---- the sketch in a record

// The sketch in a record, in arrays that were blank; 27 where none stands there, or a sheet that is over.
pub fn read_held(
    lent: &[u8],
    near: &mut [u64; ELEMENTS],
    start: &mut [u64; CONSTRAINTS],
    codes: &mut [i32; CONSTRAINTS],
    radii: &mut [u32; ELEMENTS],
) -> Result<Front, Rule>
    requires { (near.old ≡ replicate 64 0) × (start.old ≡ replicate 200 0) × (codes.old ≡ replicate 200 (pos 0)) × (length radii.old ≡ 64) }
    ensures { SheetRead (held_record lent.now) result near.new start.new codes.new radii.new }
{
    let front = read(lent, near, start, codes, radii)?;
    if judge::check_over(graph::head_of(front), near, start).is_err() {
        return Err(Rule::NoSketch);
    }
    Ok(front)
}

// The sheet in a record, as bytes in lent space, or the rule of 27 and 17 that refuses.
pub fn sheet(lent: &[u8], out: &mut [u8]) -> Result<usize, Rule>
    ensures { Answers (sheet_field lent.now) out.old (by_number result) out.new }
{
    let mut near = [0u64; ELEMENTS];
    let mut start = [0u64; CONSTRAINTS];
    let mut codes = [0i32; CONSTRAINTS];
    let mut radii = [0u32; ELEMENTS];
    let front = read_held(lent, &mut near, &mut start, &mut codes, &mut radii)?;
    let held = graph::sheet_of(front, &start, &codes, &radii);
    writer::write_accepted(held, out)
}
