// Carries out a command file from standard input and prints its transcript.
#![tactic(auto)]

use anyhow::anyhow;
use replay::transcript::{MOST_INPUT, transcript};
use std::io::{Read, Write};

fn run(rt: &HostRuntime) -> anyhow::Result<()> {
    let mut input = Vec::new(rt.alloc());
    rt.stdin().take(MOST_INPUT as u64).read_to_end(&mut input)?;
    let text = transcript(rt.alloc(), input.as_slice()).map_err(|_| anyhow!(
        "no memory for the transcript"
    ))?;
    rt.stdout().write_all(text.as_slice())?;
    Ok(())
}

fn main(rt: HostRuntime) -> anyhow::Result<()> {
    run(&rt)
}
