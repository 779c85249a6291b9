// Writing into lent space. Each function puts its items from a place on and answers the place after them; where they have no room it stores nothing
// of them, so that a call over no space measures. Contracts cite specs/Space.antt and specs/Text.antt.

#![tactic(auto)]

ghost use Rattle.std.specs.Prelude.{◌≡◌, [], ◌∷◌, ◌+◌, ◌<◌, ◌^◌, length};
ghost use Rattle.theory.specs.Rule.{by_number};
ghost use Rattle.space.specs.Space.{Put, answer, after};
ghost use Rattle.space.specs.Text.{digit as digitCode, decimal};

use theory::Rule;

pub fn put_item<T: Copy>(out: &mut [T], at: usize, x: T) -> usize
    requires { at + 1 < 2 ^ 64 }
    ensures { Put out.old at (x ∷ []) result out.new }
{
    if at < out.len() {
        out[at] = x;
    }
    at + 1
}

pub fn put_text(out: &mut [u8], at: usize, text: &[u8]) -> usize
    requires { at + length text.now < 2 ^ 64 }
    ensures { Put out.old at text.now result out.new }
{
    let next = at + text.len();
    if next <= out.len() {
        for i in 0..text.len() {
            out[at + i] = text[i];
        }
    }
    next
}

// A whole answer, or 17.
pub fn put_all<T: Copy>(out: &mut [T], items: &[T]) -> Result<usize, Rule>
    ensures answers { by_number result ≡ answer items.now out.old }
    ensures leaves { out.new ≡ after items.now out.old }
{
    if out.len() < items.len() {
        return Err(Rule::NoRoom);
    }
    for i in 0..items.len() {
        out[i] = items[i];
    }
    Ok(items.len())
}

// ---- numbers as text

fn digit(d: usize) -> u8
    requires { d < 10 }
    ensures { result ≡ digitCode d }
{
    b'0' + d as u8
}

// A number below 1,000 in decimal.
pub fn put_decimal(out: &mut [u8], at: usize, n: usize) -> usize
    requires { (n < 1000) × (at + length (decimal n) < 2 ^ 64) }
    ensures { Put out.old at (decimal n) result out.new }
{
    if n < 10 {
        return put_item(out, at, digit(n));
    }
    if n < 100 {
        let a1 = put_item(out, at, digit(n / 10));
        return put_item(out, a1, digit(n % 10));
    }
    let a1 = put_item(out, at, digit(n / 100));
    let a2 = put_item(out, a1, digit(n / 10 % 10));
    put_item(out, a2, digit(n % 10))
}
