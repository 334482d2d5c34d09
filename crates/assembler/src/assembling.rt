// A text to its image.
ghost use Rattle.std.specs.Prelude.{◌≡◌, ◌≤◌, length};
ghost use Rattle.syntax.specs.Cuts.{lines as text_lines};
ghost use Rattle.assembler.specs.Answers.{assembled, of_lines, passed, named, summary, image_in, labels_in, lines_in, over};
ghost use Rattle.assembler.specs.Images.{address_in, first_undefined, image_of};
ghost use Rattle.assembler.specs.Placing.{room, state_of, start, place};
ghost use Rattle.assembler.specs.Tables.{filled, size, Spared};
ghost use Rattle.assembler.specs.Laws.{AddressesFit};

use crate::image::put_image;
use crate::layout::place_lines;
use crate::lines::count_lines;
use crate::records::{LabelRecord, LineRecord, Position, Refusal};
use crate::table::Table;
use crate::uses::first_undefined;

const MOST_BYTES: usize = 32_768;

const MOST_LINES: usize = 2_048;

/// What an accepted text came to: the image's length in bytes, and how many records each table holds.
#[derive(Clone, Copy, PartialEq, Eq, Debug)]
pub struct Assembled {
    pub length: usize,
    pub labels: usize,
    pub lines: usize,
}

/// Why and on which line a text was refused (0: on none), and how many records each table holds.
// Stays: the line is a number, not an Option: every refusal has a place, and the rules call the place of no line 0.
#[derive(Clone, Copy, PartialEq, Eq, Debug)]
pub struct Refused {
    pub refusal: Refusal,
    pub line: usize,
    pub labels: usize,
    pub lines: usize,
}

// What is left to ask of a text whose lines are all placed, and its image.
fn put_placed(
    text: &[u8],
    end: Position,
    image: &mut Table<u8>,
    labels: &Table<LabelRecord>,
    lines: &Table<LineRecord>,
) -> Result<Assembled, Refused>
    requires empty { image.old.count ≡ 0 }
    requires long { end.address ≡ length (image_of (address_in text.now (filled labels.now)) (text_lines text.now)) }
    ensures answer { result ≡ summary (named (size image.old) text.now (state_of end (filled labels.now) (filled lines.now)) (first_undefined text.now (filled labels.now) (text_lines text.now))) }
    ensures image { filled image.new ≡ image_in (named (size image.old) text.now (state_of end (filled labels.now) (filled lines.now)) (first_undefined text.now (filled labels.now) (text_lines text.now))) }
    ensures spared { Spared image.old image.new }
{
    let refused = |refusal, line| Refused {
        refusal,
        line,
        labels: labels.len(),
        lines: lines.len(),
    };
    if let Some(line) = first_undefined(text, labels.filled()) {
        return Err(refused(Refusal::NameUndefined, line));
    }
    let length = usize::from(end.address);
    if image.free() < length {
        return Err(refused(Refusal::ImageTooLong, 0));
    }
    put_image(text, labels.filled(), image);
    Ok(Assembled {
        length,
        labels: labels.len(),
        lines: lines.len(),
    })
}

// A text of no more bytes and lines than it may have.
fn assemble_lines(
    text: &[u8],
    image: &mut Table<u8>,
    labels: &mut Table<LabelRecord>,
    lines: &mut Table<LineRecord>,
) -> Result<Assembled, Refused>
    requires empty { (image.old.count ≡ 0) × ((labels.old.count ≡ 0) × (lines.old.count ≡ 0)) }
    requires short { (length text.now ≤ 32768) × (length (text_lines text.now) ≤ 2048) }
    ensures answer { result ≡ summary (passed (size image.old) text.now (place (room (size labels.old) (size lines.old)) text.now start (text_lines text.now))) }
    ensures image { filled image.new ≡ image_in (passed (size image.old) text.now (place (room (size labels.old) (size lines.old)) text.now start (text_lines text.now))) }
    ensures labels { filled labels.new ≡ labels_in (passed (size image.old) text.now (place (room (size labels.old) (size lines.old)) text.now start (text_lines text.now))) }
    ensures lines { filled lines.new ≡ lines_in (passed (size image.old) text.now (place (room (size labels.old) (size lines.old)) text.now start (text_lines text.now))) }
    ensures spared { (Spared image.old image.new) × ((Spared labels.old labels.new) × (Spared lines.old lines.new)) }
{
    match place_lines(text, labels, lines) {
        Ok(end) => put_placed(text, end, image, labels, lines),
        Err(stop) => Err(Refused {
            refusal: stop.refusal,
            line: usize::from(stop.at.line),
            labels: labels.len(),
            lines: lines.len(),
        }),
    }
}

/// Assembles a text: its image goes into the front of one lent buffer, and the records of its labels and of the lines
/// that have words into the fronts of two lent tables; all that is not said is left as it was. A refusal leaves the
/// buffer as it was, and the records of what stood before it.
pub fn assemble(
    text: &[u8],
    image: &mut [u8],
    labels: &mut [LabelRecord],
    lines: &mut [LineRecord],
) -> Result<Assembled, Refused>
    ensures answer { result ≡ summary (assembled (room (length labels.old) (length lines.old)) (length image.old) text.now) }
    ensures image { image.new ≡ over (image_in (assembled (room (length labels.old) (length lines.old)) (length image.old) text.now)) image.old }
    ensures labels { labels.new ≡ over (labels_in (assembled (room (length labels.old) (length lines.old)) (length image.old) text.now)) labels.old }
    ensures lines { lines.new ≡ over (lines_in (assembled (room (length labels.old) (length lines.old)) (length image.old) text.now)) lines.old }
{
    let refused = |refusal, line| Refused {
        refusal,
        line,
        labels: 0,
        lines: 0,
    };
    if MOST_BYTES < text.len() {
        return Err(refused(Refusal::TextTooLong, 0));
    }
    if MOST_LINES < count_lines(text) {
        return Err(refused(Refusal::TooManyLines, MOST_LINES + 1));
    }
    let mut image = Table::new(image);
    let mut labels = Table::new(labels);
    let mut lines = Table::new(lines);
    assemble_lines(text, &mut image, &mut labels, &mut lines)
}

/// Every address of an accepted text, its end included, is below the ports.
pub fn addresses_fit()
    ensures { AddressesFit }
{}
