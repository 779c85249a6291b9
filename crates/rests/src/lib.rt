// What clusters rest on: the constraint numbers that they came from, carried along a list of merges. Document 02, 2026-04. Contracts cite
// `theory` Rests and specs/Words.antt.

#![tactic(auto)]

ghost use Rattle.std.specs.Prelude.{◌≡◌, ◌+◌, ◌≤◌, ◌<◌, get_or, set, replicate};
ghost use Rattle.theory.specs.Set.{◌∪◌};
ghost use Rattle.merges.specs.Run.{most_constraints, most_steps, places};
ghost use Rattle.rests.specs.Words.{Listed, Told, Alone};

use theory::{CLUSTERS, PARTS};

// The words of initial clusters, each of which rests on the constraint of its own number: those of the numbers from `first` to `last`, 64 at most.
fn note_alone(words: &mut [u64; CLUSTERS], first: usize, last: usize)
    requires { (last ≤ first + 64) × (last ≤ places) × (words.old ≡ replicate places 0) }
    ensures { Alone first last last words.new }
{
    for i in first..last {
        words[i] = sets::single((i - first) as u8);
    }
}

// The word of cluster `made`: those of its three parts.
fn join(words: &mut [u64; CLUSTERS], made: usize, i: usize, j: usize, k: usize)
    requires { (made < places) × (i < places) × (j < places) × (k < places) }
    ensures { words.new ≡ set words.old made
        (get_or words.old i 0 ∪ get_or words.old j 0 ∪ get_or words.old k 0) }
{
    words[made] = words[i] | words[j] | words[k];
}

// What the clusters of e constraints rest on after a list of merges, from its parts: a merged one on what its three rest on. By number, in arrays
// that were blank, constraints 0 to 63 as bits of `low`, 64 to 127 of `high`; only what stands at a living cluster's number counts.
pub fn carry(
    parts: &[u16; PARTS],
    e: usize,
    steps: usize,
    low: &mut [u64; CLUSTERS],
    high: &mut [u64; CLUSTERS],
)
    requires { (e ≤ most_constraints) × (steps ≤ most_steps) × Listed e parts.now steps
        × (low.old ≡ replicate places 0) × (high.old ≡ replicate places 0) }
    ensures { (l : Listed e parts.now steps)
        → Told 0 l.cs l.p low.new × Told 1 l.cs l.p high.new }
{
    note_alone(low, 0, 64);
    note_alone(high, 64, e);
    for t in 0..steps {
        let i = usize::from(parts[3 * t]);
        let j = usize::from(parts[3 * t + 1]);
        let k = usize::from(parts[3 * t + 2]);
        join(low, e + t, i, j, k);
        join(high, e + t, i, j, k);
    }
}
