// A word as its line, and the line as the word again.
#![tactic(auto)]

ghost use Rattle.std.specs.Prelude.{◌≡◌};
ghost use Rattle.roundtrip.specs.Back.{number_of, answer, image_after, lines_after, ComesBack};
ghost use Rattle.roundtrip.specs.declared.NotBack.TheVariants.{Refused};

use assembler::{Assembled, LineRecord, Refused, assemble};
use lister::list;

/// Why a word does not come back.
#[derive(Clone, Copy, PartialEq, Eq, Debug)]
pub enum NotBack {
    /// The word is not valid, and has no line.
    NotValid,
    /// Its line is refused: there is no room for its image or its record.
    Refused(Refused),
}

impl From<Refused> for NotBack {
    ghost from_gives = { λ e r. r ≡ Refused e };

    fn from(refused: Refused) -> NotBack {
        NotBack::Refused(refused)
    }
}

impl NotBack {
    /// The number by which it is known.
    // Stays: a match and no discriminants, since one case holds the assembler's refusal with its number.
    pub fn number(self) -> u8
        ensures { result ≡ number_of self }
    {
        match self {
            NotBack::NotValid => 16,
            NotBack::Refused(refused) => refused.refusal.number(),
        }
    }
}

/// Lists a word and assembles its line: the image goes into the front of one lent buffer, the record of the line into the
/// front of a lent table; all that is not said is left as it was.
pub fn assemble_back(
    word: u16,
    image: &mut [u8],
    lines: &mut [LineRecord],
) -> Result<Assembled, NotBack>
    ensures answer { result ≡ answer word image.old lines.old }
    ensures image { image.new ≡ image_after word image.old lines.old }
    ensures lines { lines.new ≡ lines_after word image.old lines.old }
    ensures back { ComesBack word image.old lines.old result image.new lines.new }
{
    let mut buffer = [0; 16];
    // A line has 15 bytes at most, so that no other refusal comes.
    let Ok(n) = list(word, &mut buffer) else {
        return Err(NotBack::NotValid);
    };
    Ok(assemble(&buffer[..n], image, &mut [], lines)?)
}

#[cfg(test)]
mod tests {
    use super::*;
    use assembler::LineKind;
    use std::process::Abort;
    use std::test::Fail;

    const NO_LINE: LineRecord = LineRecord {
        line: 0,
        address: 0,
        words: 0,
        kind: LineKind::Data,
    };

    fn comes_back(rt: &impl Abort, word: u16) -> Result<(), Fail> {
        let mut image = [7; 3];
        let mut lines = [NO_LINE; 2];
        let assembled = assemble_back(word, &mut image, &mut lines)?;
        assert_eq!(rt; assembled.length, 2);
        assert_eq!(rt; assembled.lines, 1);
        assert_eq!(rt; u16::from_be_bytes([image[0], image[1]]), word);
        assert_eq!(rt; image[2], 7);
        assert_eq!(rt; lines[0].words, 1);
        assert_eq!(rt; lines[1], NO_LINE);
        Ok(())
    }

    #[test]
    fn words_come_back(rt: HostRuntime) -> Result<(), Fail> {
        comes_back(&rt, 0x5328)?;
        comes_back(&rt, 0x2DFF)?;
        comes_back(&rt, 0x0003)
    }

    fn refused(rt: &impl Abort, word: u16, image: &mut [u8], lines: &mut [LineRecord], number: u8) {
        match assemble_back(word, image, lines) {
            Ok(_) => assert!(rt; false),
            Err(refusal) => assert_eq!(rt; refusal.number(), number),
        }
    }

    #[test]
    fn words_that_are_not_valid(rt: HostRuntime) {
        let mut image = [7; 2];
        let mut lines = [NO_LINE];
        refused(&rt, 0x0007, &mut image, &mut lines, 16);
        refused(&rt, 0x7800, &mut image, &mut lines, 16);
        refused(&rt, 0x7800, &mut [], &mut [], 16);
        assert!(rt; image == [7; 2]);
        assert!(rt; lines == [NO_LINE]);
    }

    #[test]
    fn no_room(rt: HostRuntime) {
        let mut image = [7; 2];
        let mut lines = [NO_LINE];
        refused(&rt, 0x5328, &mut [], &mut lines, 15);
        refused(&rt, 0x5328, &mut image, &mut [], 13);
        assert!(rt; image == [7; 2]);
    }
}
