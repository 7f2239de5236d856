// Runs every case of its folder: files through `least`, and scripts of calls; prints what each gives.
#![tactic(auto)]

use report::least;
use script::run as run_script;
use std::alloc::{AllocError, Global};
use std::fs;
use std::io::Write;

// Cases are numbered from 0 below this.
const CASES: usize = 1000;

// Prints what the case of that name gives, if there is one.
fn run_case<F: FnOnce(Global, &[u8]) -> Result<Vec<u8>, AllocError>>(
    rt: &HostRuntime,
    name: &str,
    printed: F,
) -> anyhow::Result<()>
    requires { F.IsAlwaysCallable printed }
{
    let Ok(bytes) = fs::read(rt, name) else {
        return Ok(());
    };
    println!(rt; "== {name}")?;
    let lines = printed(rt.alloc(), bytes.as_slice())?;
    rt.stdout().write_all(lines.as_slice())?;
    Ok(())
}

// (Closures, since the checker finds no contract of a function of another crate that is named by itself.)
fn run(rt: &HostRuntime) -> anyhow::Result<()> {
    for n in 0..CASES {
        let name = format!(in rt.alloc(); "least/{n:03}.bin")?;
        run_case(rt, name.as_str(), |heap, bytes| least(heap, bytes))?;
    }
    for n in 0..CASES {
        let name = format!(in rt.alloc(); "calls/{n:03}.txt")?;
        run_case(rt, name.as_str(), |heap, bytes| run_script(heap, bytes))?;
    }
    Ok(())
}

fn main(rt: HostRuntime) -> anyhow::Result<()> {
    run(&rt)
}
