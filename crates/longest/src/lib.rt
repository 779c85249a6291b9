// The sheet with the longest plan: document 02, 2026-12. Contracts cite specs/Longest.antt.

#![tactic(auto)]

ghost use Rattle.std.specs.Prelude.{◌≡◌, ◌+◌, ◌*◌, ◌≤◌, ◌<◌, take};
ghost use Rattle.theory.specs.Rule.{by_number};
ghost use Rattle.sheet.specs.Encode.{sheet_bytes};
ghost use Rattle.sheet.specs.Answer.{Answers};
ghost use Rattle.space.specs.Space.{answer, after};
ghost use Rattle.longest.specs.Longest.{distance as distance_of, strip as strip_of, longest_sheet, longest_field};

use sheet::{Constraint, Element, Kind, Opening, Sheet, Size};
use theory::{CONSTRAINTS, ELEMENTS, Rule};

fn distance(a: usize, b: usize) -> Constraint
    requires { (a < 64) × (b < 64) }
    ensures { result ≡ distance_of a b }
{
    Constraint {
        first: a as u8,
        second: b as u8,
        size: Size::Given(300),
    }
}

// Pair (0,1), then the pairs of element k with the two before it, for so many k from 2 on, at the front of a block.
fn strip(steps: usize) -> [Constraint; CONSTRAINTS]
    requires { steps ≤ 62 }
    ensures { take (2 * steps + 1) result ≡ strip_of steps }
{
    let mut cs = [distance(0, 1); CONSTRAINTS];
    for j in 0..steps {
        let k = j + 2;
        cs[2 * j + 1] = distance(j, k);
        cs[2 * j + 2] = distance(j + 1, k);
    }
    cs
}

// The bytes of the sheet of n points in lent space, or rule 17.
fn write_strip(n: usize, out: &mut [u8]) -> Result<usize, Rule>
    requires { (2 ≤ n) × (n ≤ 64) }
    ensures { (by_number result ≡ answer (sheet_bytes (longest_sheet n)) out.old)
        × (out.new ≡ after (sheet_bytes (longest_sheet n)) out.old) }
{
    let facts = Sheet {
        opening: Opening::Pf01,
        n,
        e: 2 * n - 3,
        elements: [Element { kind: Kind::Point }; ELEMENTS],
        constraints: strip(n - 2),
    };
    writer::write_accepted(facts, out)
}

// The sheet of n points with the longest plan, as bytes in lent space, or the rule of 3 and 17 that refuses.
pub fn write(n: usize, out: &mut [u8]) -> Result<usize, Rule>
    ensures { Answers (longest_field n) out.old (by_number result) out.new }
{
    if !sheet::elements_in_range(n) {
        return Err(Rule::ElementCount);
    }
    write_strip(n, out)
}
