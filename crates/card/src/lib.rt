// The card of five points: the verdict of every set of distances among them. Document 02, 2026-10. Contracts cite specs/Card.antt.

#![tactic(auto)]

ghost use Rattle.std.specs.Prelude.{◌≡◌, ◌<◌, ◌%◌, T};
ghost use Rattle.theory.specs.declared.Verdict.{Verdict};
ghost use Rattle.card.specs.Card.{set_verdict, initial, all_right};

use theory::Verdict;

// The first letter of each set's verdict. A set's number has a bit for each pair, that of (0,1) the lowest, then in dictionary order.
const CARD: [u8; 1024] = *b"\
    uuuuuuuuuuuuuuuuuuuuuuuuuuuuuuuuuuuuuuuuuuuuuuuuuuuuuuuuuuuuuuuu\
    uuuuuuuuuuuuuuuuuuuuuuuuuuuuuuuuuuuuuuuuuuuuuuuuuuuuuuuuuuuuuuuw\
    uuuuuuuuuuuuuuuuuuuuuuuuuuuuuuuuuuuuuuuuuuuuuuuuuuuuuuuouuuuuuuo\
    uuuuuuuuuuuuuuuuuuuuuuuuuuuuuuuwuuuuuuuuuuuuuuuwuuuuuuuouuuwuwwo\
    uuuuuuuuuuuuuuuuuuuuuuuuuuuuuuuuuuuuuuuuuuuuuuuuuuuuuuuuuuuuuuuw\
    uuuuuuuuuuuuuuuuuuuuuuuuuuuouuuouuuuuuuuuuuuuuuwuuuuuuuwuuuouwwo\
    uuuuuuuuuuuuuuuuuuuuuuuuuuuuuuuwuuuuuuuuuuuuuuuwuuuuuuuouuuwuwwo\
    uuuuuuuuuuuuuuuwuuuuuuuwuuuouwwouuuuuuuwuuuwuwwouuuwuwwouwwowooo\
    uuuuuuuuuuuuuuuuuuuuuuuuuuuuuuuuuuuuuuuuuuuuuuuuuuuuuuuuuuuuuuuw\
    uuuuuuuuuuuuuuuuuuuuuuuuuuuuuuuwuuuuuuuuuuuuuououuuuuuuwuuuwuowo\
    uuuuuuuuuuuuuuuuuuuuuuuuuuuuuuuwuuuuuuuuuuuuuuuwuuuuuuuouuuwuwwo\
    uuuuuuuuuuuuuuuwuuuuuuuwuuuwuwwouuuuuuuwuuuwuowouuuwuwwouwwowooo\
    uuuuuuuuuuuuuuuuuuuuuuuuuuuuuuuwuuuuuuuuuuuuuuuwuuuuuuuwuuuwuwwo\
    uuuuuuuuuuuuuuuwuuuuuuuwuuuouwwouuuuuuuwuuuwuowouuuwuwwouwwowooo\
    uuuuuuuuuuuuuuoouuuuuuuwuuuwuwoouuuuuuuwuuuwuwoouuuwuwwouwwowooo\
    uuuuuuuwuuuwuwoouuuwuwwouwwowooouuuwuwwouwwowooooooooooooooooooo";

// The card, each entry the first letter of the defined verdict.
fn card() -> [u8; 1024]
    ensures { T (all_right 0 result) }
{
    CARD
}

// An entry of the card.
fn entry(i: usize) -> u8
    requires { i < 1024 }
    ensures { result ≡ initial (set_verdict 5 i) }
{
    let card = card();
    card[i]
}

// The verdict whose name begins with a letter.
fn named(letter: u8) -> Verdict
    ensures { (v : Verdict) → letter ≡ initial v → result ≡ v }
{
    match letter {
        b'o' => Verdict::Over,
        b'a' => Verdict::Angle,
        b'w' => Verdict::Well,
        b's' => Verdict::Stuck,
        _ => Verdict::Under,
    }
}

// The verdict of five points with the distances whose bit stands in a number; bits from 10 on stand for no pair.
pub fn verdict(number: usize) -> Verdict
    ensures { result ≡ set_verdict 5 (number % 1024) }
{
    named(entry(number % 1024))
}
