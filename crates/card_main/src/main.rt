// Prints, for two to five points, how many sets of distances are over, well, stuck and under, a line for each count of points.

#![tactic(auto)]

use std::io;

fn main(rt: HostRuntime) -> io::Result<()> {
    let lines = card_counts::lines();
    console::print(&rt, Ok(162), &lines)
}
