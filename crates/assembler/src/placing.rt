// Placing: one line after the other gets its address and its records.
ghost use Rattle.std.specs.Prelude.{◌≡◌, ℕ, ◌+◌, ◌*◌, ◌≤◌, min, List, [], ◌∷◌, ◌++◌, length, is_ok, if◌then◌else◌, IfOk, OnErr, Ok, Err, nat_lt};
ghost use Rattle.std.specs.Option.{option_map, ForSome};
ghost use Rattle.assembler.specs.declared.records.Refusal.TheVariants.{NoLineRecord};
ghost use Rattle.assembler.specs.Tables.{filled, size, Spared};
ghost use Rattle.assembler.specs.Placing.{room, state_of, line_record, label_record, place_rest, place_label, place_line, came_to, Keeps};

use crate::expansion::word_count;
use crate::labels::find_label;
use crate::records::{LabelRecord, LineKind, LineRecord, Position, Refusal};
use crate::table::Table;
use syntax::{Statement, read_data, read_statement};

const MOST_LABELS: usize = 256;

// Fills the record of the next line, and answers how much memory its words take.
fn place_words(
    words: u16,
    kind: LineKind,
    at: Position,
    lines: &mut Table<LineRecord>,
) -> Result<usize, Refusal>
    ensures told { result ≡ (if nat_lt (length (filled lines.old)) (size lines.old) then Ok (2 * words) else Err NoLineRecord) }
    ensures kept { filled lines.new ≡ (if is_ok result then filled lines.old ++ (line_record (state_of at [] []) words kind ∷ []) else filled lines.old) }
    ensures spared { Spared lines.old lines.new }
{
    let record = LineRecord {
        line: at.line,
        address: at.address,
        words,
        kind,
    };
    lines.push(record).or(Err(Refusal::NoLineRecord))?;
    Ok(2 * usize::from(words))
}

// A label's name, and what stands behind it, on a line of a text.
#[derive(Clone, Copy)]
struct Label<'a> {
    name: &'a [u8],
    rest: Option<&'a [u8]>,
    ghost short: { (length name.now ≤ 32) × ForSome rest (λ x. length x.now ≤ 120) },
}

impl Label<'_> {
    // Its record on the next line.
    fn record(self, at: Position) -> LabelRecord
        ensures { result ≡ label_record (state_of at [] []) self.entry.name.now }
    {
        LabelRecord {
            place: at.place,
            length: self.name.len() as u8,
            address: at.address,
        }
    }

    // Places what stands behind it.
    fn place_rest(self, at: Position, lines: &mut Table<LineRecord>) -> Result<usize, Refusal>
        ensures comes { (labels : List LabelRecord) (most bytes : ℕ) → place_rest (room most (size lines.old)) (state_of at labels (filled lines.old)) bytes self.entry.name.now (option_map (λ x. x.now) self.entry.rest) ≡ came_to result (state_of at labels (filled lines.old)) bytes (labels ++ (label_record (state_of at [] []) self.entry.name.now ∷ [])) (filled lines.new) }
        ensures kept { OnErr result (filled lines.new ≡ filled lines.old) }
        ensures spared { Spared lines.old lines.new }
    {
        let Some(text) = self.rest else {
            return Ok(0);
        };
        let datum = read_data(text).ok_or(Refusal::BadData)?;
        place_words(datum.words() as u16, LineKind::Data, at, lines)
    }
}

// Whether a label record is free, of 256 at most.
fn has_free_label(labels: &Table<LabelRecord>) -> bool
    ensures { result ≡ nat_lt (length (filled labels.now)) (min 256 (size labels.now)) }
{
    labels.len() < MOST_LABELS && !labels.is_full()
}

// A label with data has both its records, or neither.
fn place_label(
    label: Label<'_>,
    text: &[u8],
    at: Position,
    labels: &mut Table<LabelRecord>,
    lines: &mut Table<LineRecord>,
) -> Result<usize, Refusal>
    ensures comes { (bytes : ℕ) → place_label (room (size labels.old) (size lines.old)) text.now (state_of at (filled labels.old) (filled lines.old)) bytes label.entry.name.now (option_map (λ x. x.now) label.entry.rest) ≡ came_to result (state_of at (filled labels.old) (filled lines.old)) bytes (filled labels.new) (filled lines.new) }
    ensures kept { Keeps result (filled labels.old) (filled labels.new) (filled lines.old) (filled lines.new) }
    ensures spared { (Spared labels.old labels.new) × (Spared lines.old lines.new) }
{
    if find_label(labels.filled(), text, label.name).is_some() {
        return Err(Refusal::LabelTwice);
    }
    if !has_free_label(labels) {
        return Err(Refusal::NoLabelRecord);
    }
    let memory = label.place_rest(at, lines)?;
    let _ = labels.push(label.record(at));
    Ok(memory)
}

// Stays: two parameters for the tables; tried as one struct, but of memory lent to a struct in a struct the lender learns the length alone.
/// Places one line: how much memory it takes, or why it is refused.
pub fn place_line(
    line: &[u8],
    text: &[u8],
    at: Position,
    labels: &mut Table<LabelRecord>,
    lines: &mut Table<LineRecord>,
) -> Result<usize, Refusal>
    ensures comes { place_line (room (size labels.old) (size lines.old)) text.now (state_of at (filled labels.old) (filled lines.old)) line.now ≡ came_to result (state_of at (filled labels.old) (filled lines.old)) (length line.now) (filled labels.new) (filled lines.new) }
    ensures kept { Keeps result (filled labels.old) (filled labels.new) (filled lines.old) (filled lines.new) }
    ensures spared { (Spared labels.old labels.new) × (Spared lines.old lines.new) }
    ensures bound { IfOk result (λ memory. memory ≤ length line.now + 6) }
{
    match read_statement(line)? {
        Statement::Empty => Ok(0),
        Statement::Label(name, rest) => place_label(Label { name, rest }, text, at, labels, lines),
        Statement::Code(row) => {
            let words = word_count(row) as u16;
            place_words(words, LineKind::Instruction, at, lines)
        }
    }
}
