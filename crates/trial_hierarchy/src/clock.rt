//! Processor time, and aims.
use std::io;
use std::time::{CpuClock, Duration};

/// The processor time between two readings, in microseconds.
pub(crate) fn micros(from: Duration, to: Duration) -> u128 {
    to.as_micros().saturating_sub(from.as_micros())
}

/// Says whether an aim is met.
pub(crate) fn report(rt: &HostRuntime, aim: &str, met: bool) -> io::Result<()> {
    let answer = if met { "yes" } else { "no" };
    println!(rt; "{aim}: {answer}")
}

/// The processor time of the process so far.
pub(crate) fn now(rt: &HostRuntime) -> io::Result<Duration> {
    rt.process_cpu_time()
}
