//! Conversion without normal forms.
use crate::clock::{micros, now, report};
use crate::terms::{NESTED, closed, doubling, limits, repeated};
use hb_convert::{Verdict, convertible};
use hb_env::Env;
use hb_term::{ConstId, Scoped, Term};
use plain_reduction::{DOUBLE, NEXT, SAME, World, ZERO, constant};
use std::io;

/// How many times each pair is compared.
const TURNS: u32 = 100;

/// Says whether the terms are found convertible in so many steps, and in so many microseconds each time.
fn compare(
    rt: &HostRuntime,
    env: &Env,
    pair: (&Scoped, &Scoped),
    steps: u64,
    aim: &str,
) -> io::Result<()> {
    let alloc = rt.alloc();
    let start = now(rt)?;
    for _turn in 0..TURNS {
        let answer = convertible(alloc, env, pair.0, pair.1, &limits(steps));
        if !matches!(answer, Ok(Verdict::Yes)) {
            return report(rt, aim, false);
        }
    }
    let time = micros(start, now(rt)?) / u128::from(TURNS);
    eprintln!(rt; "{aim}: {time} us")?;
    report(rt, aim, time < 10_000)
}

/// Says how long a comparison takes that finds nothing, and then exceeds the limits.
fn give_up(rt: &HostRuntime, env: &Env, a: &Scoped, b: &Scoped, aim: &str) -> io::Result<()> {
    let alloc = rt.alloc();
    let start = now(rt)?;
    let answer = convertible(alloc, env, a, b, &limits(5_000));
    let time = micros(start, now(rt)?);
    eprintln!(rt; "{aim}: {time} us")?;
    report(rt, aim, answer.is_err() && time < 100_000)
}

/// Measures comparisons.
pub(crate) fn trial(rt: &HostRuntime, world: &mut World) -> io::Result<()> {
    chains(rt, world)?;
    deep(rt, &world.env)?;
    vain(rt, &world.env)
}

/// A constant that stands for another through a chain of definitions.
fn chains(rt: &HostRuntime, world: &mut World) -> io::Result<()> {
    let zero = ConstId {
        decl: ZERO,
        maker: false,
    };
    let Ok(last) = world.chain(zero, 1_000) else {
        return println!(rt; "not declared");
    };
    let end = closed(Term::Const(last))?;
    let start = closed(Term::Const(zero))?;
    let aim = "through 1000 definitions, within ten milliseconds";
    compare(rt, &world.env, (&end, &start), 1_000, aim)
}

/// Applications inside one another, the same and nearly the same.
fn deep(rt: &HostRuntime, env: &Env) -> io::Result<()> {
    let alloc = rt.alloc();
    let first = closed(repeated(alloc, NEXT, 1_000, doubling(alloc)?)?)?;
    let again = closed(repeated(alloc, NEXT, 1_000, doubling(alloc)?)?)?;
    let aim = "the same at depth 1000, with no step";
    compare(rt, env, (&first, &again), 0, aim)?;
    let other = Term::app(alloc, constant(SAME), doubling(alloc)?)?;
    let second = closed(repeated(alloc, NEXT, 1_000, other)?)?;
    let aim = "alike at depth 1000, with a thousand steps";
    compare(rt, env, (&first, &second), 1_000, aim)
}

/// Two doublings of different constants.
fn vain(rt: &HostRuntime, env: &Env) -> io::Result<()> {
    let alloc = rt.alloc();
    let ones = closed(doubling(alloc)?)?;
    let zeros = closed(repeated(alloc, DOUBLE, NESTED, constant(ZERO))?)?;
    let aim = "a look that finds nothing, within a tenth of a second";
    give_up(rt, env, &ones, &zeros, aim)
}
