// What is lent to the assembler for one text, and what is written of it afterwards.
use crate::cases::Case;
use crate::digest::{kind_name, of_bytes, of_labels, of_lines};
use anyhow::Result;
use assembler::{Assembled, LabelRecord, LineKind, LineRecord, Refused, assemble};
use std::alloc::Global;
use std::fmt::Write;

// What is longer is told apart by its digest.
const MOST_SHOWN: usize = 48;

// What everything lent is full of beforehand.
const BYTE: u8 = 0xA5;

const LABEL: LabelRecord = LabelRecord {
    place: 0xA5A5,
    length: 0xA5,
    address: 0x5A5A,
};

const LINE: LineRecord = LineRecord {
    line: 0xA5A5,
    address: 0x5A5A,
    words: 0xA55A,
    kind: LineKind::Data,
};

#[derive(Drop)]
pub struct Lent {
    image: Vec<u8>,
    labels: Vec<LabelRecord>,
    lines: Vec<LineRecord>,
}

impl Lent {
    pub fn new(alloc: Global, case: &Case<'_>) -> Result<Lent> {
        let image = vec![in alloc; BYTE; case.image]?;
        let labels = vec![in alloc; LABEL; case.labels]?;
        let lines = vec![in alloc; LINE; case.lines]?;
        Ok(Lent {
            image,
            labels,
            lines,
        })
    }

    // The answer, and what it says to have been filled.
    pub fn assemble(&mut self, text: &[u8], out: &mut String) -> Result<()> {
        let answer = assemble(
            text,
            self.image.as_mut_slice(),
            self.labels.as_mut_slice(),
            self.lines.as_mut_slice(),
        );
        match answer {
            Ok(
                Assembled {
                    length,
                    labels,
                    lines,
                },
            ) => {
                writeln!(out, "accepted {length} {labels} {lines}")?;
                self.write_image(length, out)?;
                self.write_records(labels, lines, out)
            }
            Err(
                Refused {
                    refusal,
                    line,
                    labels,
                    lines,
                },
            ) => {
                let number = refusal.number();
                writeln!(out, "refused {number} {line} {labels} {lines}")?;
                self.write_records(labels, lines, out)
            }
        }
    }

    // A short image byte by byte.
    fn write_image(&self, length: usize, out: &mut String) -> Result<()> {
        if length == 0 || MOST_SHOWN < length {
            return Ok(());
        }
        out.push_str("image ")?;
        for byte in self.image.iter().take(length) {
            write!(out, "{byte:02x}")?;
        }
        out.push_str("\n")?;
        Ok(())
    }

    // The first records of each table.
    fn write_records(&self, labels: usize, lines: usize, out: &mut String) -> Result<()> {
        for label in self.labels.iter().take(labels.min(MOST_SHOWN)) {
            writeln!(
                out,
                "label {} {} {}",
                label.place, label.length, label.address
            )?;
        }
        for line in self.lines.iter().take(lines.min(MOST_SHOWN)) {
            let kind = kind_name(line.kind);
            writeln!(
                out,
                "line {} {} {} {kind}",
                line.line, line.address, line.words
            )?;
        }
        Ok(())
    }

    // All that was lent, also what was not filled.
    pub fn write_digests(&self, out: &mut String) -> Result<()> {
        let image = of_bytes(self.image.as_slice());
        let labels = of_labels(self.labels.as_slice());
        let lines = of_lines(self.lines.as_slice());
        writeln!(out, "lent {image:08x} {labels:08x} {lines:08x}")?;
        Ok(())
    }
}
