// Fields of a sheet, read at a cursor: document 01, "The sheet in bytes". Each answers a value with the next cursor or the rule
// that refuses it. Contracts cite the fields of the crate `sheet` and, for what an answer says, specs/Fields.antt.
ghost use Rattle.std.specs.Prelude.{◌≡◌, ◌+◌, ◌≤◌, ◌<◌, ◌^◌, leb, drop, IfOk};
ghost use Rattle.sheet.specs.Field.{byte, field};
ghost use Rattle.elements.specs.Fields.{as_field};

use theory::Rule;

// The place of the next byte.
#[derive(Clone, Copy)]
pub struct Cursor {
    pub at: usize,
}

// What a field's reading answers: the value with the next cursor, or the rule that refuses it (document 01, "Where each form goes").
pub type Read<T> = Result<(T, Cursor), Rule>;

// One byte: rule 2 where none is left.
pub fn read_byte(s: &[u8], c: Cursor) -> Read<u8>
    ensures { as_field s.now result ≡ byte (drop c.at s.now) }
{
    let b = s.get(c.at).ok_or(Rule::CutShort)?;
    Ok((*b, Cursor { at: c.at + 1 }))
}

// Whether k bytes stand from a place on. In a loop the first test is the same at each turn.
pub fn enough(len: usize, at: usize, k: usize) -> bool
    ensures { result ≡ leb (at + k) len }
{
    k <= len && at <= len - k
}

// A number of k bytes, lowest first: rule 2 where they are not all there.
pub fn read_number(s: &[u8], c: Cursor, k: usize) -> Read<u64>
    requires { (0 < k) × (k ≤ 8) }
    ensures result_value { as_field s.now result ≡ field k (drop c.at s.now) }
    ensures below { IfOk result (λ p. p.0 < 256 ^ k) }
{
    let at = c.at;
    if !enough(s.len(), at, k) {
        return Err(Rule::CutShort);
    }
    let mut u: u64 = 0;
    for i in (0..k).rev() {
        u = 256 * u + u64::from(s[at + i]);
    }
    Ok((u, Cursor { at: at + k }))
}
