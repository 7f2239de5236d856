// Reads a file from standard input, and prints its cheapest complete reading.
#![tactic(auto)]

use report::filter;

fn main(rt: HostRuntime) -> anyhow::Result<()> {
    filter(rt.alloc(), rt.stdin(), &mut rt.stdout())?;
    Ok(())
}
