//! Times the works that count: parsing and walking, reading a client's messages, writing, values, escaping, the iterated key.
//!
//! `test_bench` times every work, `test_bench NAME..` those whose names begin so, and `test_bench check` does
//! a few units of each, untimed, and prints the sum that its answers come to.
#![tactic(auto)]

mod escapes;
mod input;
mod keys;
mod pieces;
mod streams;
mod values;
mod work;
mod writers;

use crate::input::Input;
use crate::work::{Work, sum_of};
use pgp_base::Error;
use std::time::Instant;
use std::{env, io};

/// How many units of each work `check` does.
const FEW: u32 = 8;

/// How often a work is timed; the least time counts.
const TURNS: u32 = 5;

fn main(rt: HostRuntime) -> io::Result<()> {
    let words: Vec<String> = env::args(&rt)?.skip(1).collect(rt.alloc())?;
    run(&rt, &words)
}

/// Does what the words ask for.
fn run(rt: &HostRuntime, words: &[String]) -> io::Result<()> {
    for (work, name) in &Work::ALL {
        if words.is_empty() {
            time(rt, *work, name)?;
        }
        run_work(rt, *work, name, words)?;
    }
    Ok(())
}

/// Does what the words ask for with this work.
fn run_work(rt: &HostRuntime, work: Work, name: &str, words: &[String]) -> io::Result<()> {
    for word in words {
        if word.as_str() == "check" {
            check(rt, work, name)?;
        } else if name.starts_with(word.as_str()) {
            time(rt, work, name)?;
        }
    }
    Ok(())
}

/// Prints the sum of a few units.
fn check(rt: &HostRuntime, work: Work, name: &str) -> io::Result<()> {
    let mut input = Input::new(rt.alloc(), work, FEW)?;
    match sum_of(rt.alloc(), work, &mut input, FEW) {
        Ok(sum) => println!(rt; "{name} {sum}"),
        Err(e) => refused(rt, name, e),
    }
}

fn refused(rt: &HostRuntime, name: &str, e: Error) -> io::Result<()> {
    let number = e.number();
    println!(rt; "{name} fault {number}")
}

/// Prints the least time of a unit, in nanoseconds.
fn time(rt: &HostRuntime, work: Work, name: &str) -> io::Result<()> {
    let units = work.units();
    let mut least = u128::MAX;
    for _ in 0..TURNS {
        let mut input = Input::new(rt.alloc(), work, units)?;
        let start = Instant::now(rt)?;
        let answer = sum_of(rt.alloc(), work, &mut input, units);
        let nanos = start.elapsed(rt)?.as_nanos();
        if let Err(e) = answer {
            return refused(rt, name, e);
        }
        least = least.min(nanos);
    }
    let hundredths = least.saturating_mul(100) / units.max(1) as u128;
    let whole = hundredths / 100;
    let rest = hundredths % 100;
    println!(rt; "{name} {whole}.{rest:02}")
}
