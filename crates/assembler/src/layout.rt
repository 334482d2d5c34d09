// Placing all lines of a text.
ghost use Rattle.std.specs.Prelude.{◌≡◌, ◌+◌, ◌<◌, ◌≤◌, length};
ghost use Rattle.syntax.specs.Cuts.{lines as text_lines};
ghost use Rattle.assembler.specs.Tables.{filled, size, Spared};
ghost use Rattle.assembler.specs.Placing.{room, start, place, course_of};

use crate::lines::Lines;
use crate::placing::place_line;
use crate::records::{LabelRecord, LineRecord, Position, Stop};
use crate::table::Table;

impl Position {
    // Before the first line.
    const START: Position = Position {
        line: 1,
        place: 0,
        address: 0,
    };

    // Behind a line of so many bytes that takes so much memory.
    fn behind(self, bytes: usize, memory: usize) -> Position
        requires { (self.line < 65535) × ((self.place + (bytes + 1) < 65536) × (self.address + memory < 65536)) }
        ensures line { result.line ≡ self.line + 1 }
        ensures place { result.place ≡ self.place + (bytes + 1) }
        ensures address { result.address ≡ self.address + memory }
    {
        Position {
            line: self.line + 1,
            place: self.place + (bytes as u16 + 1),
            address: self.address + memory as u16,
        }
    }
}

/// Places the lines of a text in order, up to the first that is refused.
pub(crate) fn place_lines(
    text: &[u8],
    labels: &mut Table<LabelRecord>,
    lines: &mut Table<LineRecord>,
) -> Result<Position, Stop>
    requires empty { (labels.old.count ≡ 0) × (lines.old.count ≡ 0) }
    requires short { (length text.now ≤ 32768) × (length (text_lines text.now) ≤ 2048) }
    ensures comes { place (room (size labels.old) (size lines.old)) text.now start (text_lines text.now) ≡ course_of result (filled labels.new) (filled lines.new) }
    ensures spared { (Spared labels.old labels.new) × (Spared lines.old lines.new) }
{
    let mut at = Position::START;
    for line in Lines::of(text) {
        let memory = place_line(line, text, at, labels, lines).map_err(|refusal| Stop {
            at,
            refusal,
        })?;
        at = at.behind(line.len(), memory);
    }
    Ok(at)
}
