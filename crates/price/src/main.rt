// Reads lines of a kind's letter and costs from standard input, and prints what each line comes to.
#![tactic(auto)]

mod answer;
mod filtering;
mod line;
mod text;

use filtering::filter;

fn main(rt: HostRuntime) -> anyhow::Result<()> {
    filter(rt.alloc(), &mut rt.stdin(), &mut rt.stdout())?;
    Ok(())
}
