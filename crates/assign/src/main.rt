// Reads asks, one to a line, and prints the steps by which each is assigned.
#![tactic(auto)]

mod report;
mod steps;

use report::report;
use std::io::{BufRead, BufReader};

fn run(rt: &HostRuntime) -> anyhow::Result<()> {
    // counted by hand: zipped with a range the reading would end at the range's last number
    let mut place = 0u64;
    for line in BufReader::new(rt.alloc(), rt.stdin())?.split(rt.alloc(), b'\n') {
        place = place.saturating_add(1);
        if let Some(text) = report(rt.alloc(), place, line?.as_slice())? {
            rt.print(text)?;
        }
    }
    Ok(())
}

fn main(rt: HostRuntime) -> anyhow::Result<()> {
    run(&rt)
}
