// What is said of an answer. Each goes to the file that is named first.
use sheet::Sheet;
use std::io;
use theory::{Rule, Verdict};

pub fn say(to: &impl Print, text: &[u8]) -> io::Result<()> {
    to.write_all(text)
}

pub fn say_number(to: &impl Print, text: &[u8], n: u64) -> io::Result<()> {
    to.write_all(text)?;
    to.print(n)
}

pub fn say_written(to: &impl Print, w: Result<usize, Rule>) -> io::Result<()> {
    match w {
        Ok(n) => say_number(to, b"done ", n as u64)?,
        Err(rule) => say_number(to, b"refused ", u64::from(rule.number()))?,
    }
    say(to, b" ")
}

pub fn say_judgement(to: &impl Print, j: Result<Verdict, Rule>) -> io::Result<()> {
    match j {
        Ok(v) => say_number(to, b"verdict ", u64::from(v.number()))?,
        Err(rule) => say_number(to, b"refused ", u64::from(rule.number()))?,
    }
    say(to, b" ")
}

// A number without its sign.
fn magnitude(z: i32) -> u32 {
    if z < 0 {
        ((-1 - z) as u32) + 1
    } else {
        z as u32
    }
}

// What a function for C answers.
pub fn say_signed(to: &impl Print, z: i32) -> io::Result<()> {
    let m = magnitude(z) as u64;
    if z < 0 {
        say_number(to, b"answer -", m)
    } else {
        say_number(to, b"answer ", m)
    }
}

// ---- lent space

// A byte of a report: a line's end is a stroke, and a byte that is no letter a point.
fn letter(b: u8) -> u8 {
    match b {
        10 => b'/',
        128..=255 => b'.',
        _ => b,
    }
}

fn say_byte(to: &impl Print, text: bool, b: u8) -> io::Result<()> {
    if text {
        let l = [letter(b); 1];
        say(to, &l)
    } else {
        print!(to; "{b:02x}")
    }
}

pub fn say_bytes(to: &impl Print, text: bool, space: &[u8]) -> io::Result<()> {
    for b in space {
        say_byte(to, text, *b)?;
    }
    Ok(())
}

fn say_short(to: &impl Print, n: u16) -> io::Result<()> {
    say_number(to, b" ", n as u64)
}

pub fn say_shorts(to: &impl Print, space: &[u16]) -> io::Result<()> {
    for n in space {
        say_short(to, *n)?;
    }
    Ok(())
}

pub fn say_longs(to: &impl Print, space: &[u64]) -> io::Result<()> {
    for n in space {
        say_number(to, b" ", *n)?;
    }
    Ok(())
}

// ---- a sheet

// A sheet, written again: its bytes, or the rule that refuses it.
fn say_sheet_on(to: &impl Print, s: Sheet, out: &mut [u8]) -> io::Result<()> {
    let written = pattern::write(s, out);
    say_written(to, written)?;
    match written {
        Ok(n) if n <= out.len() => say_bytes(to, false, &out[..n]),
        _ => Ok(()),
    }
}

pub fn say_sheet(to: &impl Print, s: Sheet) -> io::Result<()> {
    let mut out = [0u8; 4096];
    say_sheet_on(to, s, &mut out)
}

pub fn say_reading(to: &impl Print, r: Result<Sheet, Rule>) -> io::Result<()> {
    match r {
        Ok(sheet) => {
            say(to, b"accepted ")?;
            say_sheet(to, sheet)
        }
        Err(rule) => say_number(to, b"refused ", u64::from(rule.number())),
    }
}
