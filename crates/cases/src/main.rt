// Runs the stored cases through the library and says which pass.
//
// It reads four files in the folder that it is run in; data/ has them. Each is a list of cases: a line `case NAME`, a line
// `in HEX` with the command file in hexadecimal, and a line `out LINE` for each line that the transcript must have.
#![tactic(auto)]

use anyhow::anyhow;
use replay::transcript::transcript;
use std::alloc::{AllocError, Global};
use std::fs;

// A case while its lines are read.
#[derive(Drop)]
struct Case {
    name: String,
    input: Vec<u8>,
    expected: String,
}

impl Case {
    fn new(heap: Global, name: &str) -> Result<Case, AllocError> {
        Ok(Case {
            name: String::from_str(heap, name)?,
            input: Vec::new(heap),
            expected: String::new(heap),
        })
    }

    // One line more.
    fn take_line(&mut self, line: &str) -> anyhow::Result<()> {
        if let Some(text) = line.strip_prefix("in ") {
            decode(text, &mut self.input)?;
        }
        if let Some(expected) = line.strip_prefix("out ") {
            self.expected.push_str(expected)?;
            self.expected.push_str("\n")?;
        }
        Ok(())
    }

    // Whether the transcript is the expected one; a case that fails is named.
    fn run(&self, rt: &HostRuntime) -> anyhow::Result<bool> {
        let text = transcript(rt.alloc(), self.input.as_slice())?;
        let passed = text.as_slice() == self.expected.as_bytes();
        if !passed {
            let name = self.name.as_str();
            println!(rt; "failed: {name}")?;
        }
        Ok(passed)
    }
}

// Adds the bytes that a hexadecimal text names; its letters are small. An input may be long, so it is decoded where it stays.
fn decode(text: &str, bytes: &mut Vec<u8>) -> anyhow::Result<()> {
    if !text.bytes().all(|b| matches!(b, b'0'..=b'9' | b'a'..=b'f')) {
        return Err(anyhow!("a case has an input that is not hexadecimal"));
    }
    if text.len() % 2 == 1 {
        return Err(anyhow!("a case has half a byte"));
    }
    let old = bytes.len();
    bytes.resize(old + text.len() / 2, 0)?;
    Ok(hex::decode_to_slice(text, &mut bytes[old..])?)
}

// How many cases came out as written, and how many did not.
#[derive(Clone, Copy, Default)]
struct Tally {
    passed: u64,
    failed: u64,
}

impl Tally {
    fn count(&mut self, passed: bool) {
        let counter = if passed {
            &mut self.passed
        } else {
            &mut self.failed
        };
        *counter = counter.saturating_add(1);
    }
}

fn run_file(rt: &HostRuntime, path: &str) -> anyhow::Result<Tally> {
    let heap = rt.alloc();
    let text = fs::read_to_string(rt, path)?;
    let mut tally = Tally::default();
    let mut current: Option<Case> = None;
    for line in text.lines() {
        if let Some(name) = line.strip_prefix("case ") {
            if let Some(case) = current.take() {
                tally.count(case.run(rt)?);
            }
            current = Some(Case::new(heap, name)?);
        } else if let Some(case) = &mut current {
            case.take_line(line)?;
        }
    }
    if let Some(case) = current {
        tally.count(case.run(rt)?);
    }
    Ok(tally)
}

fn run(rt: &HostRuntime) -> anyhow::Result<()> {
    let mut failed: u64 = 0;
    for name in ["worked", "refusals", "mistakes", "runs"] {
        let path = format!(in rt.alloc(); "{name}.txt")?;
        let tally = run_file(rt, path.as_str())?;
        let good = tally.passed;
        let bad = tally.failed;
        println!(rt; "{name}: {good} as written, {bad} not")?;
        failed = failed.saturating_add(bad);
    }
    if failed > 0 {
        return Err(anyhow!("not every case came out as written"));
    }
    Ok(())
}

fn main(rt: HostRuntime) -> anyhow::Result<()> {
    run(&rt)
}
