// Reads a script of calls on a board from standard input, and prints each call with its answer.
#![tactic(auto)]

use script::filter;

fn main(rt: HostRuntime) -> anyhow::Result<()> {
    filter(rt.alloc(), &mut rt.stdin(), &mut rt.stdout())?;
    Ok(())
}
