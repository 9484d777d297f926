// How long a repeated piece of work takes.
//
// Other programs may run on the same machine, so the work is timed in several rounds, and the fastest one counts.
use std::time::Instant;

// A round is repeated so often that it takes this many nanoseconds: a reading of the clock is nothing beside it.
const ROUND: u64 = 2_000_000;

const ROUNDS: u32 = 15;

// A round of 2^24 repetitions takes long enough, whatever is repeated.
const DOUBLINGS: u32 = 24;

// The nanoseconds since then.
pub(crate) fn nanoseconds_since(rt: &HostRuntime, start: Instant) -> anyhow::Result<u64> {
    let elapsed = start.elapsed(rt)?.as_nanos();
    Ok(u64::try_from(elapsed).unwrap_or(u64::MAX))
}

// How often the work is done in a round, where `repeat` does it so many times and tells how many nanoseconds that took.
fn find_times<W: FnMut(u64) -> anyhow::Result<u64>>(repeat: &mut W) -> anyhow::Result<u64>
    requires { W.IsAlwaysCallable repeat.old }
    ensures { W.IsAlwaysCallable repeat.new }
{
    let mut times: u64 = 1;
    for _ in 0..DOUBLINGS {
        if repeat(times)? >= ROUND {
            break;
        }
        times = times.saturating_mul(2);
    }
    Ok(times)
}

// The nanoseconds of the fastest round.
fn find_fastest<W: FnMut(u64) -> anyhow::Result<u64>>(
    mut repeat: W,
    times: u64,
) -> anyhow::Result<u64>
    requires { W.IsAlwaysCallable repeat }
{
    let mut best = u64::MAX;
    for _ in 0..ROUNDS {
        best = best.min(repeat(times)?);
    }
    Ok(best)
}

// The nanoseconds that the work takes once.
pub(crate) fn time<W: FnMut(u64) -> anyhow::Result<u64>>(mut repeat: W) -> anyhow::Result<u64>
    requires { W.IsAlwaysCallable repeat }
{
    let times = find_times(&mut repeat)?;
    let best = find_fastest(repeat, times)?;
    Ok(best.checked_div(times).unwrap_or(0))
}
