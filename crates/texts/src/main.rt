// Assembles the texts of standard input and writes all that comes of them, to be held against a second assembler.
#![tactic(auto)]

mod cases;
mod digest;
mod lent;

use cases::Input;
use lent::Lent;
use std::alloc::Global;
use std::fmt::Write as _;
use std::io::{Read, Write};

// Standard input is the number of cases, each of them, and nothing behind the last.
fn answer_all(alloc: Global, bytes: &[u8]) -> anyhow::Result<String> {
    let mut out = String::new(alloc);
    let mut input = Input::new(bytes);
    let count = input.number(b'\n')?;
    for i in 0..count {
        writeln!(&mut out, "case {i}")?;
        let case = input.case()?;
        let mut lent = Lent::new(alloc, &case)?;
        lent.assemble(case.text, &mut out)?;
        lent.write_digests(&mut out)?;
    }
    input.end()?;
    Ok(out)
}

fn main(rt: HostRuntime) -> anyhow::Result<()> {
    let alloc = rt.alloc();
    let mut input = Vec::new(alloc);
    rt.stdin().read_to_end(&mut input)?;
    let out = answer_all(alloc, input.as_slice())?;
    rt.stdout().write_all(out.as_bytes())?;
    Ok(())
}
