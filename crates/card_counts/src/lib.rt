// How many sets of distances among two to five points have each verdict. Document 02, 2026-10. Contracts cite specs/Counts.antt.

#![tactic(auto)]

ghost use Rattle.std.specs.Prelude.{◌≡◌};
ghost use Rattle.card_counts.specs.Counts.{counts_lines};

// A line for each count of points.
const LINES: [u8; 162] = *b"points 2 over 0 well 1 stuck 0 under 1\n\
    points 3 over 0 well 1 stuck 0 under 7\n\
    points 4 over 1 well 6 stuck 0 under 57\n\
    points 5 over 81 well 100 stuck 0 under 843\n";

// How many sets are over, well, stuck and under, a line for each count of points.
pub fn lines() -> [u8; 162]
    ensures { result ≡ counts_lines }
{
    LINES
}
