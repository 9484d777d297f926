// Shows a stored table from standard input: a line on the setting, then a line for each row.
#![tactic(auto)]

use std::io::Read;
use stored::show::show;

fn main(rt: HostRuntime) -> anyhow::Result<()> {
    let mut bytes = Vec::new(rt.alloc());
    rt.stdin().read_to_end(&mut bytes)?;
    let text = show(rt.alloc(), &bytes)?;
    print!(rt; "{text}")?;
    Ok(())
}
