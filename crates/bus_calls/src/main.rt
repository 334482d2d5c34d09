// Sends seeded calls to stacks of buses and writes every answer, to be held against a second program.
#![tactic(auto)]

mod random;
mod report;
mod script;
mod stacks;

use std::io::Write;

fn main(rt: HostRuntime) -> anyhow::Result<()> {
    let mut out = String::new(rt.alloc());
    stacks::all(&mut out)?;
    rt.stdout().write_all(out.as_bytes())?;
    Ok(())
}
