// What the programs share: reading the input, printing an answer, and the numbers of a saved plan.

#![tactic(auto)]

ghost use Rattle.std.specs.Prelude.{◌≡◌, ◌+◌, ◌*◌, ◌≤◌, ◌++◌, length, take, drop, IfOk, OnErr};
ghost use Rattle.io.specs.Counts.{IsPrefixLen};
ghost use Rattle.console.specs.Numbers.{numbers_for};
ghost use Rattle.console.specs.Refused.{refused_line};

use space::{put_decimal, put_item, put_text};
use std::fs::File;
use std::io::{self, Read};
use std::rt::Files;
use theory::Rule;

// The line "refused" and the rule's number, to the front of a block; answers its length.
fn refusal(rule: u8, out: &mut [u8; 12]) -> usize
    requires { length out.old ≡ 12 }
    ensures { (result ≤ length out.new) × (take result out.new ≡ refused_line rule) }
{
    let a1 = put_text(out, 0, b"refused ");
    let a2 = put_decimal(out, a1, rule as usize);
    put_item(out, a2, b'\n')
}

// Says on standard error that a reading or a writing of that name failed, and why.
pub fn fail(rt: &(impl Eprint + Alloc), name: &str, error: &io::Error) -> io::Result<()> {
    let text = format!(in rt.alloc(); "{error}")?;
    let cause = match text.as_str().find(" (os error ") {
        Some(at) => &text.as_str()[..at],
        None => text.as_str(),
    };
    eprintln!(rt; "{name}: {cause}")
}

// Writes bytes to standard output; where that fails, says so on standard error.
fn put(rt: &(impl Print + Eprint + Alloc), bytes: &[u8]) -> io::Result<()> {
    match rt.write_all(bytes) {
        Ok(()) => Ok(()),
        Err(error) => fail(rt, "standard output", &error),
    }
}

// Prints that line.
pub fn refuse(rt: &(impl Print + Eprint + Alloc), rule: u8) -> io::Result<()> {
    let mut line: [u8; 12] = [0; 12];
    let n = refusal(rule, &mut line);
    put(rt, &line[..n])
}

// Prints what was written into lent space, or the line "refused" and the rule's number.
pub fn print(
    rt: &(impl Print + Eprint + Alloc),
    written: Result<usize, Rule>,
    out: &[u8],
) -> io::Result<()> {
    match written {
        Ok(n) if n <= out.len() => put(rt, &out[..n]),
        Ok(_) => Ok(()),
        Err(rule) => refuse(rt, rule.number()),
    }
}

// Reads until the buffer is full or the input ends; answers how many bytes stand at the front of the buffer.
pub fn read(input: &mut impl Read, buffer: &mut [u8]) -> io::Result<usize>
    ensures ok { IfOk result (λ count. IsPrefixLen count buffer.new) }
    ensures err { OnErr result (length buffer.new ≡ length buffer.old) }
{
    let mut count: usize = 0;
    while count < buffer.len() {
        let more = input.read(&mut buffer[count..])?;
        if more == 0 {
            return Ok(count);
        }
        count += more;
    }
    Ok(count)
}

// Reads the file of a name, as `read` does.
pub fn read_file(rt: &impl Files, name: &str, buffer: &mut [u8]) -> io::Result<usize>
    ensures ok { IfOk result (λ count. IsPrefixLen count buffer.new) }
    ensures err { OnErr result (length buffer.new ≡ length buffer.old) }
{
    let mut file = File::open(rt, name)?;
    read(&mut file, buffer)
}

// A 16-bit number, lowest byte first.
fn number(low: u8, high: u8) -> u16
    ensures { result ≡ low + 256 * high }
{
    low as u16 + 256 * (high as u16)
}

// The 16-bit numbers of a file, lowest byte first, to the front of a list, as many as it takes; answers how many there are.
pub fn numbers(bytes: &[u8], list: &mut [u16]) -> usize
    ensures prefix_len { IsPrefixLen result list.new }
    ensures value { result ≡ length (numbers_for (length list.old) bytes.now) }
    ensures list_after { list.new ≡ numbers_for (length list.old) bytes.now ++ drop result list.old }
{
    let mut i: usize = 0;
    while i < list.len() {
        if bytes.len() < 2 * i + 2 {
            return i;
        }
        list[i] = number(bytes[2 * i], bytes[2 * i + 1]);
        i += 1;
    }
    i
}
