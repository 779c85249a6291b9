// The chain from one element to another (document 02, 2026-08), by a breadth-first search: from the end outwards, layer
// by layer, the clusters whose shared set (2026-09) with what was reached is not empty; then from the start the lowest
// cluster of each layer.
// Contracts cite specs/Layers.antt and specs/Answer.antt.

#![tactic(auto)]

ghost use Rattle.std.specs.Prelude.{◌≡◌, ◌&&◌, ◌^◌, ◌≤◌, ◌<◌, length, position, MatchOption};
ghost use Rattle.std.proofs.lemmas.List.Edits.{sets};
ghost use Rattle.chain.specs.Says.{says};
ghost use Rattle.sheet.specs.Graph.{over_fault};
ghost use Rattle.sheet.specs.Answer.{by_rule};
ghost use Rattle.graph.specs.Lent.{graph_in, Drawn};
ghost use Rattle.chain.specs.Layers.{shares, grown, way, distance, chain_of};
ghost use Rattle.chain.specs.Kept.{LayersIn, Measured};
ghost use Rattle.chain.specs.Answer.{chain_answer, chain_after, asked, ChainAnswers};

use graph::Head;
use theory::{CLUSTERS, CONSTRAINTS, ELEMENTS, JOINTS, PARTS, Rule};

// ---- from the end outwards

// The set d with the clusters that share an element with it.
fn around(s: &[u64], d: u64) -> u64
    ensures { result ≡ grown s.now d d }
{
    let mut all = d;
    for &c in s {
        if sets::shared(c, d) != 0 {
            all |= c;
        }
    }
    all
}

// How many clusters lead from one element to another, with what each layer before has reached, or that none do.
fn spread(s: &[u64], from: usize, to: usize, layers: &mut [u64; ELEMENTS]) -> Option<usize>
    requires { (from < 64) × (to < 64) }
    ensures { MatchOption result (64 ≤ distance s.now from to)
        (λ t. (t ≡ distance s.now from to) × (t < 64) × LayersIn s.now to t layers.new) }
{
    let start = sets::single(from as u8);
    let mut d = sets::single(to as u8);
    for t in 0..ELEMENTS {
        if sets::shared(start, d) != 0 {
            return Some(t);
        }
        layers[t] = d;
        let next = around(s, d);
        if next == d {
            return None;
        }
        d = next;
    }
    None
}

// ---- the way forward

// The lowest cluster that shares an element with both sets, if one does.
fn first_both(s: &[u64], a: u64, d: u64) -> Option<usize>
    ensures { result ≡ position (λ c. shares a c && shares c d) s.now }
{
    s.iter()
        .position(|&c| sets::shared(a, c) != 0 && sets::shared(c, d) != 0)
}

// The numbers of the way over t layers, into lent space that has room for them.
fn put_way(s: &[u64], layers: &[u64; ELEMENTS], t: usize, from: usize, to: usize, out: &mut [u16])
    requires { Measured s.now from to t layers.now out.old }
    ensures { out.new ≡ sets out.old 0 (way s.now to t (2 ^ from)) }
{
    let mut a = sets::single(from as u8);
    for i in 0..t {
        let k = first_both(s, a, layers[t - i - 1]).unwrap();
        out[i] = k as u16;
        a = s[k];
    }
}

// The chain between two elements of clusters, into lent space, one place a cluster, or 17.
fn find(s: &[u64], from: usize, to: usize, out: &mut [u16]) -> Result<Option<usize>, Rule>
    requires { (length s.now ≤ 192) × (from < 64) × (to < 64) }
    ensures { (says result ≡ chain_answer (chain_of s.now from to) out.old)
        × (out.new ≡ chain_after (chain_of s.now from to) out.old) }
{
    let mut layers = [0u64; ELEMENTS];
    let Some(t) = spread(s, from, to, &mut layers) else {
        return Ok(None);
    };
    if out.len() < t {
        return Err(Rule::NoRoom);
    }
    put_way(s, &layers, t, from, to, out);
    Ok(Some(t))
}

// The chain of a constraint graph, or the rule of 11, 25 and 17 that refuses it.
pub fn chain_of(
    h: Head,
    near: &[u64; ELEMENTS],
    start: &[u64; CONSTRAINTS],
    from: usize,
    to: usize,
    out: &mut [u16],
) -> Result<Option<usize>, Rule>
    requires { Drawn h near.now start.now }
    ensures { ChainAnswers
        (by_rule (over_fault (graph_in h start.now)) (asked (graph_in h start.now) from to))
        out.old (says result) out.new }
{
    let mut slots = [0u64; CLUSTERS];
    let mut parts = [0u16; PARTS];
    let mut joints = [0u64; JOINTS];
    let Ok(found) = judge::judge_on(h, near, start, &mut slots, &mut parts, &mut joints) else {
        return Err(Rule::OverSheet);
    };
    if h.n <= from || h.n <= to {
        return Err(Rule::NoElement);
    }
    let used = h.e + found.steps;
    find(&slots[..used], from, to, out)
}
