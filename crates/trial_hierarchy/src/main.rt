//! Measures hierarchies. The figures go to standard error; standard output says which aims are met.
#![tactic(auto)]

mod build;
mod chain;
mod clock;
mod instances;
mod subsets;

use clock::{micros, now, report};
use std::io;

fn main(rt: HostRuntime) -> io::Result<()> {
    let start = now(&rt)?;
    let wide = subsets::are_right(rt.alloc());
    let after_wide = now(&rt)?;
    let chain = chain::is_right(rt.alloc());
    let after_chain = now(&rt)?;
    let given = instances::are_right(rt.alloc());
    let end = now(&rt)?;
    measured(
        &rt,
        "1024 structures of ten properties, twice, with all joins, within sixty seconds",
        wide,
        micros(start, after_wide),
    )?;
    measured(
        &rt,
        "a chain of 1024 structures with all joins, within sixty seconds",
        chain,
        micros(after_wide, after_chain),
    )?;
    measured(
        &rt,
        "10000 instances at 100 carriers with their needs, twice, within sixty seconds",
        given,
        micros(after_chain, end),
    )
}

/// Says how long it took, and whether the aim is met.
fn measured(rt: &HostRuntime, aim: &str, right: bool, time: u128) -> io::Result<()> {
    eprintln!(rt; "{aim}: {time} us")?;
    report(rt, aim, right && time < 60_000_000)
}
