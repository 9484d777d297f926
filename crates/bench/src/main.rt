// Runs stored problems through the library: checks what they give, or times them.
//
// It reads files of the folder that it is run in, which are in data/: problems.txt has a line for each problem NAME;
// NAME.bin is its command file, and NAME.expect the transcript that this must give. Without arguments the program
// compares; with the argument `time` it prints, for each problem, how large its sheet is and how long the work takes.
//
// figures  what is timed
// choose   the field, the order and the division of a problem
// problem  what a command file poses
// timing   how long a repeated piece of work takes
#![tactic(auto)]

mod choose;
mod figures;
mod problem;
mod timing;

use crate::choose::measure_problem;
use crate::problem::Problem;
use anyhow::anyhow;
use replay::transcript::transcript;
use std::{env, fmt, fs};

// Nanoseconds, shown as microseconds.
#[derive(Clone, Copy)]
struct Micros(u64);

impl fmt::Display for Micros {
    fn fmt<W: fmt::Write>(&self, f: &mut fmt::Formatter<W>) -> fmt::Result {
        let whole = self.0 / 1000;
        let part = self.0 % 1000;
        write!(f, "{whole}.{part:03}")
    }
}

fn read_input(rt: &HostRuntime, name: &str) -> anyhow::Result<Vec<u8>> {
    let path = format!(in rt.alloc(); "{name}.bin")?;
    Ok(fs::read(rt, path.as_str())?)
}

// Whether the transcript of the problem is the expected one; a problem that fails is named.
fn check_problem(rt: &HostRuntime, name: &str) -> anyhow::Result<bool> {
    let input = read_input(rt, name)?;
    let path = format!(in rt.alloc(); "{name}.expect")?;
    let expected = fs::read(rt, path.as_str())?;
    let text = transcript(rt.alloc(), input.as_slice())?;
    if text.as_slice() == expected.as_slice() {
        return Ok(true);
    }
    println!(rt; "failed: {name}")?;
    Ok(false)
}

// Two counts, as in the program that runs the stored cases: a library for them would be no plainer.
fn check_all(rt: &HostRuntime, names: &str) -> anyhow::Result<()> {
    let mut good: u64 = 0;
    let mut bad: u64 = 0;
    for name in names.lines() {
        if check_problem(rt, name)? {
            good = good.saturating_add(1);
        } else {
            bad = bad.saturating_add(1);
        }
    }
    println!(rt; "{good} problems as expected, {bad} not")?;
    if bad > 0 {
        return Err(anyhow!("not every problem came out as expected"));
    }
    Ok(())
}

fn time_problem(rt: &HostRuntime, name: &str) -> anyhow::Result<()> {
    let input = read_input(rt, name)?;
    let problem = Problem::read(rt.alloc(), input.as_slice())?;
    let figures = measure_problem(rt, &problem)?;
    let rows = figures.size.rows;
    let steps = figures.size.steps;
    let completing = Micros(figures.completing);
    let copying = Micros(figures.copying);
    let remainder = Micros(figures.remainder);
    println!(rt; "{name} {rows} {steps} {completing} {copying} {remainder}")?;
    Ok(())
}

fn time_all(rt: &HostRuntime, names: &str) -> anyhow::Result<()> {
    println!(rt; "problem rows steps completing copying remainder")?;
    for name in names.lines() {
        time_problem(rt, name)?;
    }
    Ok(())
}

// Whether the argument `time` was given.
fn wants_times(rt: &HostRuntime) -> anyhow::Result<bool> {
    let mut arguments = env::args(rt)?;
    // The first is the program's own name.
    let _ = arguments.next();
    match arguments.next() {
        None => Ok(false),
        Some(word) if word.as_str() == "time" => Ok(true),
        Some(_) => Err(anyhow!("the only argument is `time`")),
    }
}

fn run(rt: &HostRuntime) -> anyhow::Result<()> {
    let names = fs::read_to_string(rt, "problems.txt")?;
    if wants_times(rt)? {
        time_all(rt, names.as_str())
    } else {
        check_all(rt, names.as_str())
    }
}

fn main(rt: HostRuntime) -> anyhow::Result<()> {
    run(&rt)
}
