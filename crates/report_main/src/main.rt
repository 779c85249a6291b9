// Reads a sheet from standard input, at most 2,079 bytes, and prints its report; of a refused one the line "refused" and the rule's number.

#![tactic(auto)]

use std::io;

// Room for the longest report: rule 17 is never met.
const ROOM: usize = 4667;

fn main(rt: HostRuntime) -> io::Result<()> {
    let mut sheet = [0u8; 2079];
    let n = match console::read(&mut rt.reader(), &mut sheet) {
        Ok(n) => n,
        Err(error) => return console::fail(&rt, "standard input", &error),
    };
    let mut out = [0u8; ROOM];
    let written = pattern::report(&sheet[..n], &mut out);
    console::print(&rt, written, &out)
}
