// The reading of the assembler's lines: what each does at one stroke, and that its words on the board do the same.
#![tactic(auto)]

ghost use Rattle.reading.specs.KeySums.{KeySums};
ghost use Rattle.reading.specs.Lines.{RowsKeep};
ghost use Rattle.reading.specs.Programs.{ImagesMatch, LinesStand, BoardFollows};
ghost use Rattle.reading.specs.Sums.{Sums};

// Each row that has passed its questions keeps what it owes.
pub fn rows_keep()
    ensures { RowsKeep }
{}

// The program of every accepted text has the bytes of its image.
pub fn images_match()
    ensures { ImagesMatch }
{}

// The instruction lines of that program stand where the line records say.
pub fn lines_stand()
    ensures { LinesStand }
{}

// The promise: the board follows the reading of every accepted text, until the reading is over.
pub fn board_follows_text()
    ensures { BoardFollows }
{
    board::boards_follow();
}

// What the definitions come to on given values: each kind of line, and a small program's page on the board and in the reading.
pub fn sums_stand()
    ensures { Sums }
{}

// The sums that the set is known by.
pub fn key_sums_stand()
    ensures { KeySums }
{}
