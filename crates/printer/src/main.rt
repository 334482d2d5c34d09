// The words of a text from standard input, four hexadecimal digits a line, or why the text is refused.
#![tactic(auto)]

use std::io::{Read, Write};
use std::process::ExitCode;

// One byte more than a text may have: enough to see that it is too long.
const KEPT: u64 = 32_769;

fn read_text(rt: &HostRuntime) -> anyhow::Result<Vec<u8>> {
    let mut text = Vec::new(rt.alloc());
    rt.stdin().take(KEPT).read_to_end(&mut text)?;
    Ok(text)
}

fn main(rt: HostRuntime) -> anyhow::Result<ExitCode> {
    let text = read_text(&rt)?;
    let mut output = rt.stdout();
    match printing::print(rt.alloc(), text.as_slice())? {
        Ok(words) => {
            output.write_all(words.as_slice())?;
            Ok(ExitCode::SUCCESS)
        }
        Err(refusal) => {
            output.write_all(refusal.as_slice())?;
            Ok(ExitCode::FAILURE)
        }
    }
}
