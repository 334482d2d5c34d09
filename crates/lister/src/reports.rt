// Lines of input that name words, and what is printed for each.
ghost use Rattle.std.specs.Prelude.{◌≡◌, ◌<◌, false, ◌++◌, IfSome, None};
ghost use Rattle.lister.specs.Reports.{hex_digit, word_in, report_of, report_for, report, is_listed, Added};
ghost use Rattle.word.specs.Words.{decoded, is_valid};

use crate::line::line_of;
use std::alloc::{AllocError, Global};
use word::decode;

fn hex_digit(byte: u8) -> Option<u16>
    ensures value { result ≡ hex_digit byte }
    ensures small { IfSome result (λ d. d < 16) }
{
    char::from(byte).to_digit(16).map(|d| d as u16)
}

/// The word that a line of exactly four hexadecimal digits names.
pub fn word_in(text: &[u8]) -> Option<u16>
    ensures { result ≡ word_in text.now }
{
    let &[a, b, c, d] = text else {
        return None;
    };
    let a = hex_digit(a)?;
    let b = hex_digit(b)?;
    let c = hex_digit(c)?;
    let d = hex_digit(d)?;
    // Stays: four digits by their worth, since `from_str_radix` would let a sign pass for one.
    Some(a * 4096 + b * 256 + c * 16 + d)
}

fn add_malformed(heap: Global, number: u64, out: &mut Vec<u8>) -> Result<bool, AllocError>
    ensures { Added result false (report_for number None) out.old.items out.new.items }
{
    let message = format!(in heap;
        "line {number}: not a word, four hexadecimal digits expected\n"
    )?;
    out.extend_from_slice(message.as_bytes())?;
    Ok(false)
}

fn add_listed(word: u16, out: &mut Vec<u8>) -> Result<bool, AllocError>
    ensures { Added result (is_valid word) (report_of (decoded word)) out.old.items out.new.items }
{
    let Some(instruction) = decode(word) else {
        out.extend_from_slice(b"refused 16\n")?;
        return Ok(false);
    };
    let line = line_of(instruction.fields());
    out.extend_from_slice(line.as_bytes())?;
    Ok(true)
}

/// Adds to `out` what is printed for an input line, given its number and its bytes without LF, and answers whether it
/// named a valid word. Where there is no memory, `out` stays as it was.
pub fn report(heap: Global, number: u64, text: &[u8], out: &mut Vec<u8>) -> Result<bool, AllocError>
    ensures { Added result (is_listed text.now) (report number text.now) out.old.items out.new.items }
{
    match word_in(text) {
        Some(word) => add_listed(word, out),
        None => add_malformed(heap, number, out),
    }
}
