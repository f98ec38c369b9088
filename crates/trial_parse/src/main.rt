//! Reads long sources and prints what they hold: each kind once, or the kind and the number of
//! times that the words of the command line say, to be measured.
#![tactic(auto)]

mod read;
mod source;

use read::{Held, read};
use source::Source;
use std::process::ExitCode;
use std::{env, io};

fn main(rt: HostRuntime) -> ExitCode {
    match trial(&rt) {
        Ok(()) => ExitCode::SUCCESS,
        Err(_) => ExitCode::FAILURE,
    }
}

/// Reads what the words say, or each kind of source once.
fn trial(rt: &HostRuntime) -> io::Result<()> {
    let mut words = env::args(rt)?.skip(1);
    let Some(name) = words.next() else {
        for source in Source::ALL {
            report(rt, source, 1)?;
        }
        return Ok(());
    };
    let times = match words.next() {
        Some(word) => word.parse().unwrap_or(1),
        None => 1,
    };
    for source in Source::ALL {
        if source.name() == name.as_str() {
            report(rt, source, times)?;
        }
    }
    Ok(())
}

/// Reads a source a number of times, and prints what the last reading found.
fn report(rt: &HostRuntime, source: Source, times: u32) -> io::Result<()> {
    let mut held = None;
    let text = source.text(rt.alloc())?;
    for _ in 0..times {
        held = read(rt.alloc(), text.as_slice())?;
    }
    match held {
        Some(
            Held {
                tokens,
                commands,
                names,
            },
        ) => {
            println!(rt;
                "{}: {} bytes, {tokens} tokens, {commands} commands, {names} names",
                source.name(),
                text.len()
            )?;
        }
        None => println!(rt; "{}: refused", source.name())?,
    }
    Ok(())
}
