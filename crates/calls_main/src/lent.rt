// The calls that take lent space, filled with 170 before, or a sketch by value.
use crate::said::{
    say, say_bytes, say_judgement, say_longs, say_number, say_sheet, say_shorts, say_signed,
    say_written,
};
use crate::text::{constraint_of, least, number, some};
use std::io;
use steps::{Filled, Listing};
use theory::{ELEMENTS, JointKind, Rule, STEPS, Step, Ways};

// ---- bytes

fn in_bytes(entry: u8, numbers: &[u16], bytes: &[u8], out: &mut [u8]) -> Result<usize, Rule> {
    match entry {
        b'w' => pattern::rewrite(bytes, out),
        b'r' => pattern::report(bytes, out),
        b'k' => pattern::check_plan(bytes, numbers, out),
        b'H' => pattern::hold_in(bytes, out),
        b'L' => pattern::longest(number(numbers, 0), out),
        _ => pattern::part(bytes, number(numbers, 0), out),
    }
}

fn on_bytes(
    to: &impl Print,
    text: bool,
    entry: u8,
    numbers: &[u16],
    bytes: &[u8],
    out: &mut [u8],
) -> io::Result<()> {
    say_written(to, in_bytes(entry, numbers, bytes, out))?;
    say_bytes(to, text, out)
}

pub fn lend_bytes(
    to: &impl Print,
    text: bool,
    entry: u8,
    room: usize,
    numbers: &[u16],
    bytes: &[u8],
) -> io::Result<()> {
    let mut out = [170u8; 4096];
    let n = least(room, 4096);
    on_bytes(to, text, entry, numbers, bytes, &mut out[0..n])
}

pub fn part(to: &impl Print, room: usize, numbers: &[u16], bytes: &[u8]) -> io::Result<()> {
    let c = number(numbers, 0);
    say_written(to, pattern::part_steps(bytes, c))?;
    say_written(to, pattern::part_bytes(bytes, c))?;
    lend_bytes(to, true, b'P', room, numbers, bytes)
}

// ---- 16-bit numbers

fn in_shorts(entry: u8, numbers: &[u16], bytes: &[u8], out: &mut [u16]) -> i32 {
    match entry {
        b'p' => pattern_c::pattern_plan(bytes, out),
        b'M' => pattern_c::pattern_missing(bytes, numbers, out),
        b'g' => pattern_c::pattern_chain(bytes, number(numbers, 0), number(numbers, 1), out),
        _ => pattern_c::pattern_open(bytes, number(numbers, 0), out),
    }
}

fn on_shorts(
    to: &impl Print,
    entry: u8,
    numbers: &[u16],
    bytes: &[u8],
    out: &mut [u16],
) -> io::Result<()> {
    say_signed(to, in_shorts(entry, numbers, bytes, out))?;
    say_shorts(to, out)
}

pub fn lend_shorts(
    to: &impl Print,
    entry: u8,
    room: usize,
    numbers: &[u16],
    bytes: &[u8],
) -> io::Result<()> {
    let mut out = [170u16; 4096];
    let n = least(room, 4096);
    on_shorts(to, entry, numbers, bytes, &mut out[0..n])
}

// ---- 64-bit numbers

// The rule of a number; no rule has some.
fn rule_of(number: u8) -> Option<Rule> {
    let rules = [
        Rule::Opening,
        Rule::CutShort,
        Rule::ElementCount,
        Rule::KindBits,
        Rule::ConstraintCount,
        Rule::Ends,
        Rule::PairTwice,
        Rule::SizeMap,
        Rule::SizeRange,
        Rule::BytesLeft,
        Rule::OverSheet,
        Rule::PlanLength,
        Rule::NoCluster,
        Rule::NotOpen,
        Rule::StillOpen,
        Rule::NoRoom,
        Rule::UnknownKind,
        Rule::RadiusRange,
        Rule::EqualRadii,
        Rule::PriceCount,
        Rule::PriceRange,
        Rule::NoCompletion,
        Rule::HeldCount,
        Rule::NoElement,
        Rule::NoPart,
        Rule::NoSketch,
    ];
    for rule in rules {
        if rule.number() == number {
            return Some(rule);
        }
    }
    None
}

// A list of 62 marked records, filled with blank ones, as many as are counted, or refused by a rule; its first records then, as numbers. By a number
// that no rule has it is refused here.
fn fill(to: &impl Print, rule: usize, count: usize, out: &mut [u64]) -> io::Result<()> {
    let mark = Step {
        made: 170,
        i: 170,
        j: 170,
        k: 170,
        joint: 170,
        kind: JointKind::Lll,
        ways: Ways::Known(170),
    };
    let marked = [mark; STEPS];
    let told = (rule % 256) as u8;
    let steps = engine::no_steps();
    let listing = match rule_of(told) {
        Some(rule) => Err(rule),
        None => Ok(Listing { count, steps }),
    };
    let filled = steps::fill_on(listing, marked);
    let unknown = told != 0 && listing.is_ok();
    let answer = Ok(out.len() / 7);
    let list = if unknown { marked } else { filled.list };
    let _ = steps::put_numbers(Filled { answer, list }, out);
    if unknown {
        say_number(to, b"refused ", u64::from(told))?;
        return say(to, b" ");
    }
    say_written(to, filled.answer)
}

fn in_longs(entry: u8, bytes: &[u8], out: &mut [u64]) -> Result<usize, Rule> {
    match entry {
        b'o' => pattern::over(bytes, out),
        b'c' => pattern::clusters(bytes, out),
        b'i' => pattern::initial(bytes, out),
        b'q' => pattern::rests(bytes, out),
        b'E' => pattern::held_rests_in(bytes, out),
        _ => pattern::step_numbers(bytes, out),
    }
}

fn on_longs(
    to: &impl Print,
    entry: u8,
    numbers: &[u16],
    bytes: &[u8],
    out: &mut [u64],
) -> io::Result<()> {
    match entry {
        b't' => fill(to, number(numbers, 0), number(numbers, 1), out)?,
        _ => say_written(to, in_longs(entry, bytes, out))?,
    }
    say_longs(to, out)
}

pub fn lend_longs(
    to: &impl Print,
    entry: u8,
    room: usize,
    numbers: &[u16],
    bytes: &[u8],
) -> io::Result<()> {
    let mut out = [170u64; 4096];
    let n = least(room, 4096);
    on_longs(to, entry, numbers, bytes, &mut out[0..n])
}

// ---- a sheet in columns

// The bytes are the kinds and the columns of k first ends, second ends and maps; the numbers the opening, n, e, k, the
// radius of each circle, the size of each constraint, and how many sizes there are.
fn write(
    to: &impl Print,
    numbers: &[u16],
    bytes: &[u8],
    radii: &[u32],
    sizes: &[i32],
    out: &mut [u8],
) -> io::Result<()> {
    let n = number(numbers, 1);
    let k = number(numbers, 3);
    let answer = pattern_c::pattern_write(
        number(numbers, 0),
        n,
        number(numbers, 2),
        some(bytes, 0, n),
        radii,
        some(bytes, n, k),
        some(bytes, n + k, k),
        some(bytes, n + 2 * k, k),
        sizes,
        out,
    );
    say_signed(to, answer)?;
    say(to, b" ")?;
    say_bytes(to, false, out)
}

pub fn lend_columns(to: &impl Print, room: usize, numbers: &[u16], bytes: &[u8]) -> io::Result<()> {
    let radii = [number(numbers, 4) as u32; ELEMENTS];
    let sizes = [number(numbers, 5) as i32; 256];
    let mut out = [170u8; 4096];
    let k = least(number(numbers, 6), 256);
    let n = least(room, 4096);
    write(to, numbers, bytes, &radii, &sizes[0..k], &mut out[0..n])
}

// ---- a held sketch

// Asked and placed in a sketch by value, by the number told; in the blank one where the bytes stand for no sheet.
pub fn by_value(to: &impl Print, told: usize, numbers: &[u16], bytes: &[u8]) -> io::Result<()> {
    let c = constraint_of(numbers);
    let sketch = pattern::read(bytes).unwrap_or(pattern::blank());
    say_judgement(to, sketch::asking(sketch, c))?;
    let placed = sketch::placing(sketch, c, told);
    let answer = placed.answer;
    say_judgement(to, answer)?;
    let after = placed.sketch;
    say_sheet(to, after)
}

// Asked and placed in a record that holds the sheet.
fn in_record(
    to: &impl Print,
    told: usize,
    numbers: &[u16],
    bytes: &[u8],
    lent: &mut [u8],
) -> io::Result<()> {
    let c = constraint_of(numbers);
    let _ = pattern::hold_in(bytes, lent);
    say_judgement(to, pattern::ask_in(lent, c))?;
    say_judgement(to, pattern::place_in(lent, c, told))?;
    say_bytes(to, false, lent)
}

pub fn record(to: &impl Print, told: usize, numbers: &[u16], bytes: &[u8]) -> io::Result<()> {
    let mut lent = [170u8; 4096];
    let n = least(bytes.len(), 4080) + 16;
    in_record(to, told, numbers, bytes, &mut lent[0..n])
}
