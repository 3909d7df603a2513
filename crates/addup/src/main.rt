// Reads lines of seconds from standard input, and prints each as a time, and last their sum.
#![tactic(auto)]

use seconds::add_up;
use std::io::Read;

fn run(rt: &HostRuntime) -> anyhow::Result<()> {
    let mut input = Vec::new(rt.alloc());
    rt.stdin().read_to_end(&mut input)?;
    let text = add_up(rt.alloc(), input.as_slice())?;
    rt.print(text.as_str())?;
    Ok(())
}

fn main(rt: HostRuntime) -> anyhow::Result<()> {
    run(&rt)
}
