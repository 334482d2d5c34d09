// Words from standard input, four hexadecimal digits a line, as the lines that assemble to them.
#![tactic(auto)]

use arrayvec::ArrayVec;
use lister::report;
use std::alloc::{AllocError, Global};
use std::io::{Read, Write};
use std::process::ExitCode;

// One byte more than a word has digits: enough to see that a line is too long.
const KEPT: usize = 5;

// The answers to the input so far, and the line that is being read.
#[derive(Drop)]
struct Transcript {
    heap: Global,
    number: u64,
    line: ArrayVec<u8, KEPT>,
    all_listed: bool,
    out: Vec<u8>,
}

impl Transcript {
    fn new(heap: Global) -> Transcript {
        Transcript {
            heap,
            number: 1,
            line: ArrayVec::new(),
            all_listed: true,
            out: Vec::new(heap),
        }
    }

    fn end_line(&mut self) -> Result<(), AllocError> {
        let listed = report(self.heap, self.number, &self.line, &mut self.out)?;
        self.all_listed &= listed;
        self.number = self.number.saturating_add(1);
        self.line.clear();
        Ok(())
    }

    fn push(&mut self, byte: u8) -> Result<(), AllocError> {
        if byte == b'\n' {
            self.end_line()?;
        } else if !self.line.is_full() {
            self.line.push(byte);
        }
        Ok(())
    }

    // The last line may lack its LF.
    fn finish(&mut self) -> Result<(), AllocError> {
        if !self.line.is_empty() {
            self.end_line()?;
        }
        Ok(())
    }
}

// Answers whether every line named a valid word.
fn transcribe(rt: &HostRuntime) -> anyhow::Result<bool> {
    let heap = rt.alloc();
    let mut input = rt.stdin();
    let mut output = rt.stdout();
    let mut buffer = vec![in heap; 0u8; 65536]?;
    let mut transcript = Transcript::new(heap);
    // Stays: a loop without a bound would ask for a handle, and the library's iterators over lines keep a line whole.
    for _ in 0..u64::MAX {
        let n = input.read(&mut buffer)?;
        if n == 0 {
            break;
        }
        for byte in &buffer[..n] {
            transcript.push(*byte)?;
        }
        output.write_all(&transcript.out)?;
        transcript.out.clear();
    }
    transcript.finish()?;
    output.write_all(&transcript.out)?;
    Ok(transcript.all_listed)
}

fn main(rt: HostRuntime) -> anyhow::Result<ExitCode> {
    let all_listed = transcribe(&rt)?;
    Ok(if all_listed {
        ExitCode::SUCCESS
    } else {
        ExitCode::FAILURE
    })
}
