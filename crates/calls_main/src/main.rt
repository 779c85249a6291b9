// Calls the entry points on inputs given as text on standard input, a call to a line, and prints what each answers, then
// the lent space: a report's as text, other bytes in hexadecimal. A line has the letter of an entry point, the room lent,
// a list of 16-bit numbers and a list of bytes, in hexadecimal, lowest byte first, with one space between. Where the text
// starts with the line "2", the answers go to standard error.

#![tactic(auto)]

mod lent;
mod said;
mod text;

use crate::lent::{by_value, lend_bytes, lend_columns, lend_longs, lend_shorts, part, record};
use crate::said::{say, say_bytes, say_number, say_reading, say_signed, say_written};
use crate::text::{byte, list, number, short};
use std::io;

// A call, by its letter.
fn call(
    rt: &(impl Print + Eprint + Alloc),
    to: &impl Print,
    entry: u8,
    room: usize,
    numbers: &[u16],
    bytes: &[u8],
) -> io::Result<()> {
    match entry {
        b'd' => say_reading(to, pattern::read(bytes)),
        b'h' => say_reading(to, pattern::hold(bytes)),
        b'v' => say_signed(to, pattern_c::pattern_verdict(bytes)),
        b'K' => say_signed(to, pattern_c::pattern_card(number(numbers, 0))),
        b'e' => say_written(to, pattern::held_count_in(bytes)),
        b'N' => {
            let lines = card_counts::lines();
            say_bytes(to, true, &lines)
        }
        b'R' => {
            console::refuse(rt, (room % 256) as u8)?;
            say(to, b"printed")
        }
        b'S' => {
            let a = number(numbers, 0);
            let b = number(numbers, 1);
            say_number(to, b"shared ", pattern::shared(a as u64, b as u64))
        }
        b's' => by_value(to, room, numbers, bytes),
        b'a' => record(to, room, numbers, bytes),
        b'f' => lend_columns(to, room, numbers, bytes),
        b'P' => part(to, room, numbers, bytes),
        b'r' | b'k' => lend_bytes(to, true, entry, room, numbers, bytes),
        b'w' | b'H' | b'L' => lend_bytes(to, false, entry, room, numbers, bytes),
        b'p' | b'M' | b'g' | b'O' => lend_shorts(to, entry, room, numbers, bytes),
        b'o' | b'c' | b'i' | b'q' | b'E' | b'T' | b't' => lend_longs(
            to, entry, room, numbers, bytes,
        ),
        _ => say(to, b"no such entry"),
    }
}

// The call that stands here; answers where the next line starts.
fn line(
    rt: &(impl Print + Eprint + Alloc),
    to: &impl Print,
    text: &[u8],
    at: usize,
) -> io::Result<usize> {
    let mut lent = [0u8; 2];
    let mut pairs = [0u8; 4096];
    let mut bytes = [0u8; 4096];
    let mut numbers = [0u16; 2048];
    let room = list(text, at.wrapping_add(2), &mut lent);
    let second = list(text, room.next, &mut pairs);
    let third = list(text, second.next, &mut bytes);
    let i = second.count;
    let j = third.count;
    let k = console::numbers(&pairs[..i], &mut numbers);
    call(
        rt,
        to,
        byte(text, at),
        short(&lent),
        &numbers[..k],
        &bytes[..j],
    )?;
    say(to, b"\n")?;
    Ok(third.next)
}

// Each line in turn, while the text goes on.
fn lines(
    rt: &(impl Print + Eprint + Alloc),
    to: &impl Print,
    text: &[u8],
    from: usize,
) -> io::Result<()> {
    let mut at = from;
    while at < text.len() {
        let next = line(rt, to, text, at)?;
        if next <= at {
            return Ok(());
        }
        at = next;
    }
    Ok(())
}

fn start(rt: &HostRuntime, text: &[u8]) -> io::Result<()> {
    if byte(text, 0) == b'2' {
        lines(rt, &rt.stderr(), text, 2)
    } else {
        lines(rt, &rt.stdout(), text, 0)
    }
}

fn main(rt: HostRuntime) -> io::Result<()> {
    let mut text = [0u8; 65536];
    let n = match console::read(&mut rt.reader(), &mut text) {
        Ok(n) => n,
        Err(error) => return console::fail(&rt, "standard input", &error),
    };
    start(&rt, &text[..n])
}
