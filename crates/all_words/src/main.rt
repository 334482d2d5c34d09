// Every one of the 65,536 words: its line, and what it does to two sets of registers. Words that are not valid are
// printed as runs. The word that is printed with a line is the one that the line assembles to.
#![tactic(auto)]

mod effects;

use assembler::{LineKind, LineRecord};
use effects::{effect_of, push_word};
use lister::list;
use roundtrip::assemble_back;
use std::alloc::AllocError;
use std::io::Write;
use std::str::from_utf8;
use word::decode;

const REGISTERS: [[u16; 8]; 2] = [
    [
        0x0000, 0x0001, 0x7FFF, 0x8000, 0xFFFF, 0x1234, 0x00FF, 0xABCD,
    ],
    [
        0xFF80, 0x8001, 0x0002, 0x7FFE, 0x0000, 0xC0DE, 0x5555, 0xAAAA,
    ],
];

const NO_LINE: LineRecord = LineRecord {
    line: 0,
    address: 0,
    words: 0,
    kind: LineKind::Data,
};

// The word that a word's line assembles to.
fn assembled(word: u16) -> Option<u16> {
    let mut image = [0; 2];
    let mut lines = [NO_LINE];
    assemble_back(word, &mut image, &mut lines).ok()?;
    Some(u16::from_be_bytes(image))
}

// The run of words that are not valid, if the words before were such.
fn end_run(out: &mut String, first: Option<u16>, last: u16) -> Result<(), AllocError> {
    let Some(first) = first else {
        return Ok(());
    };
    push_word(out, first)?;
    out.push('-')?;
    push_word(out, last)?;
    out.push_str(" refused 16\n")
}

// The word's digits, its line without LF, and its two effects.
fn push_listed(out: &mut String, word: u16, line: &str) -> Result<(), AllocError> {
    push_word(out, word)?;
    out.push_str(line.trim_end())?;
    out.push_str(" ;")?;
    if let Some(instruction) = decode(word) {
        for registers in &REGISTERS {
            out.push(' ')?;
            effect_of(instruction, registers).push_to(out)?;
        }
    }
    out.push('\n')
}

fn push_all(out: &mut String) -> anyhow::Result<()> {
    let mut run = None;
    for word in 0..=0xFFFFu16 {
        let mut buffer = [0; 16];
        match list(word, &mut buffer) {
            Ok(n) => {
                end_run(out, run.take(), word.wrapping_sub(1))?;
                if let Some(word) = assembled(word) {
                    push_listed(out, word, from_utf8(&buffer[..n])?)?;
                }
            }
            Err(_) => {
                run.get_or_insert(word);
            }
        }
    }
    end_run(out, run, 0xFFFF)?;
    Ok(())
}

fn main(rt: HostRuntime) -> anyhow::Result<()> {
    let mut out = String::new(rt.alloc());
    push_all(&mut out)?;
    rt.stdout().write_all(out.as_bytes())?;
    Ok(())
}
