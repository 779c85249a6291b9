// Takes over a saved plan. The arguments name two files: a sheet, and a plan of 16-bit numbers, lowest byte first, three a step. Prints the report
// for that plan, or the line "refused" and the rule's number.

#![tactic(auto)]

use std::{env, io};

// Room for the longest report: rule 17 is never met.
const ROOM: usize = 4667;

// A file of this many numbers or more is no plan: a sheet's has 186 at most.
const NUMBERS: usize = 32768;

// Checks the plan in a file's bytes against a sheet, and prints the answer.
fn take_over(rt: &(impl Print + Eprint + Alloc), sheet: &[u8], file: &[u8]) -> io::Result<()> {
    if file.len() % 2 != 0 {
        return eprintln!(rt;
            "plan: the file has an odd number of bytes, and a plan is 16-bit numbers"
        );
    }
    if file.len() >= 65536 {
        return eprintln!(rt; "plan: the file is too long for a plan");
    }
    let mut plan = [0u16; NUMBERS];
    let count = console::numbers(file, &mut plan);
    let mut out = [0u8; ROOM];
    let written = pattern::check_plan(sheet, &plan[..count], &mut out);
    console::print(rt, written, &out)
}

fn main(rt: HostRuntime) -> io::Result<()> {
    let mut names = env::args(&rt)?;
    let (Some(_), Some(first), Some(second), None) = (
        names.next(),
        names.next(),
        names.next(),
        names.next(),
    ) else {
        return eprintln!(rt; "usage: takeover_main SHEET PLAN");
    };
    let mut sheet = [0u8; 2079];
    let n = match console::read_file(&rt, first.as_str(), &mut sheet) {
        Ok(n) => n,
        Err(error) => return console::fail(&rt, first.as_str(), &error),
    };
    let mut file = [0u8; 65536];
    let m = match console::read_file(&rt, second.as_str(), &mut file) {
        Ok(m) => m,
        Err(error) => return console::fail(&rt, second.as_str(), &error),
    };
    take_over(&rt, &sheet[..n], &file[..m])
}
