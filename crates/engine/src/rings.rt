// Angles that run round (document 02, 2026-03): whether clusters make a ring of lines, by stripping off the lines that lead nowhere. Contracts cite
// theory's Ring.
ghost use Rattle.std.specs.Prelude.{◌≡◌};
ghost use Rattle.theory.specs.Ring.{linked as linkedOf, strip, ringed as isRinged};

// The lines of l that a cluster holds, none if there is only one.
fn linked(cluster: u64, l: u64) -> u64
    ensures { result ≡ linkedOf l cluster }
{
    let m = cluster & l;
    if m & m.wrapping_sub(1) == 0 { 0 } else { m }
}

// Of the lines l, those that lie in two or more of the clusters that hold two or more of them.
fn strip_lines(clusters: &[u64], l: u64) -> u64
    ensures { result ≡ strip l clusters.now }
{
    let mut once: u64 = 0;
    let mut twice: u64 = 0;
    for cluster in clusters.iter().rev() {
        let m = linked(*cluster, l);
        twice |= m & once;
        once |= m;
    }
    twice
}

// Do lines stay, however often they are stripped?
pub fn ringed(clusters: &[u64], lines: u64) -> bool
    ensures { result ≡ isRinged lines clusters.now }
{
    let mut l = lines;
    while l != 0 {
        let next = strip_lines(clusters, l);
        if next == l {
            return true;
        }
        l = next;
    }
    false
}
