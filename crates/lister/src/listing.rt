// A word's line, into a lent buffer.
ghost use Rattle.std.specs.Prelude.{◌≡◌};
ghost use Rattle.lister.specs.Answers.{number_of, answer, buffer_after};

use crate::line::line_of;
use word::decode;

/// Why a word was not listed.
#[derive(Clone, Copy, PartialEq, Eq, Debug)]
pub enum Refusal {
    /// The word is not valid.
    NotValid = 16,
    /// The buffer is shorter than the line.
    DoesNotFit = 17,
}

impl Refusal {
    /// The number by which it is known.
    // Stays: a method here; as a trait's it would take an impl with this same line for each enum that has numbers.
    pub fn number(self) -> u8
        ensures { result ≡ number_of self }
    {
        self as u8
    }
}

/// Writes the line of a word into the front of the buffer, and answers its length. A refusal leaves the buffer as it was.
pub fn list(word: u16, buffer: &mut [u8]) -> Result<usize, Refusal>
    ensures answer { result ≡ answer word buffer.old }
    ensures buffer { buffer.new ≡ buffer_after word buffer.old }
{
    let instruction = decode(word).ok_or(Refusal::NotValid)?;
    let line = line_of(instruction.fields());
    let n = line.len();
    if buffer.len() < n {
        return Err(Refusal::DoesNotFit);
    }
    buffer[..n].copy_from_slice(line.as_bytes());
    Ok(n)
}
