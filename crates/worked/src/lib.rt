// The worked machine, with words of two bytes and of four, and its pages: small programs, the calls sent to them, and the answers.
#![tactic(auto)]

ghost use Rattle.std.specs.Prelude.{◌≡◌, [], ◌∷◌, ◌++◌, Some};
ghost use Rattle.machine.specs.Calls.{Run};
ghost use Rattle.machine.specs.Agreement.{Agreement};
ghost use Rattle.worked.specs.Worked.{worked, size_of, Two, Four, RowsKeep};
ghost use Rattle.worked.specs.Page.{FirstPage, OwnLinePage, OffTheLinesPage, FourBytesPage, PagesFollow, runs, reads, shift_and_send, script, own_line_rows, nothing_behind, data_behind, off_the_lines_calls, shift_twice, four_calls, answer_at, words_of, byte_of, number_of, address_of};
ghost use Rattle.worked.specs.WorkedLaws.{worked_laws};

use machine::{Lawful, board_follows_reading};

// The worked machine with words of four bytes where BYTES is 4, and of two bytes otherwise.
#[derive(Drop)]
pub struct WordsOf<const BYTES: usize>;

impl<const BYTES: usize> Lawful for WordsOf<BYTES> {
    ghost machine = { worked (size_of BYTES) };

    ghost keeps = { worked_laws (size_of BYTES) };
}

pub type TwoBytes = WordsOf<2>;

pub type FourBytes = WordsOf<4>;

// Each size has one machine, which the name of its type stands for too.
pub const TwoBytes: TwoBytes = WordsOf;

pub const FourBytes: FourBytes = WordsOf;

// Each kind of line keeps what it owes, at both sizes.
pub fn rows_keep()
    ensures { RowsKeep }
{}

// The agreement, at both sizes: what the theory gives the worked machine.
pub fn boards_follow()
    ensures two { Agreement (worked Two) }
    ensures four { Agreement (worked Four) }
{
    board_follows_reading::<TwoBytes>();
    board_follows_reading::<FourBytes>();
}

// The programs of the pages fulfil what the agreement asks, so it is about them.
pub fn pages_follow()
    ensures { PagesFollow }
{}

// Each page as the definitions compute it.
fn first_page()
    ensures { FirstPage }
{}

fn own_line_page()
    ensures { OwnLinePage }
{}

fn off_the_lines_page()
    ensures { OffTheLinesPage }
{}

fn four_bytes_page()
    ensures { FourBytesPage }
{}

// Stays: a function for each number on the pages, since each has a theorem and an edit of its own.
// The words spent on a line begun, when the first run ends in its middle.
pub fn words_begun() -> u64
    ensures { result ≡ (reads Two shift_and_send (Run 3 ∷ [])).left.u }
{
    first_page();
    let first_line = 2;
    3 - first_line
}

// The words of the run that ends in the middle of a line, refused.
pub fn words_before_the_fault() -> u64
    ensures board { result ≡ words_of (answer_at (runs Two shift_and_send script).answers 2) }
    ensures reading { result ≡ words_of (answer_at (reads Two shift_and_send script).answers 2) }
{
    first_page();
    16
}

// The words of the run after that, which is refused again.
pub fn words_at_the_fault_again() -> u64
    ensures board { result ≡ words_of (answer_at (runs Two shift_and_send script).answers 3) }
    ensures reading { result ≡ words_of (answer_at (reads Two shift_and_send script).answers 3) }
{
    first_page();
    0
}

// The number of that fault.
pub fn fault_number() -> u8
    ensures board { result ≡ number_of (answer_at (runs Two shift_and_send script).answers 2) }
    ensures reading { result ≡ number_of (answer_at (reads Two shift_and_send script).answers 2) }
{
    first_page();
    34
}

// The address that it carries: the last word's of its line.
pub fn fault_address() -> u16
    ensures board { Some result ≡ address_of (answer_at (runs Two shift_and_send script).answers 2) }
    ensures reading { Some result ≡ address_of (answer_at (reads Two shift_and_send script).answers 2) }
{
    first_page();
    18
}

// The words of the run that a give has cured, up to the halt.
pub fn words_up_to_the_halt() -> u64
    ensures board { result ≡ words_of (answer_at (runs Two shift_and_send script).answers 6) }
    ensures reading { result ≡ words_of (answer_at (reads Two shift_and_send script).answers 6) }
{
    first_page();
    let rest_of_the_store = 2;
    rest_of_the_store + 1
}

// The byte that the program sent.
pub fn byte_taken() -> u8
    ensures board { result ≡ byte_of (answer_at (runs Two shift_and_send script).answers 7) }
    ensures reading { result ≡ byte_of (answer_at (reads Two shift_and_send script).answers 7) }
{
    first_page();
    65
}

// The number for a second take, where only one byte was sent.
pub fn number_of_the_second_take() -> u8
    ensures board { result ≡ number_of (answer_at (runs Two shift_and_send script).answers 8) }
    ensures reading { result ≡ number_of (answer_at (reads Two shift_and_send script).answers 8) }
{
    first_page();
    37
}

// The number for a run of the halted board.
pub fn number_after_the_halt() -> u8
    ensures board { result ≡ number_of (answer_at (runs Two shift_and_send script).answers 9) }
    ensures reading { result ≡ number_of (answer_at (reads Two shift_and_send script).answers 9) }
{
    first_page();
    22
}

// The words that the reading spends in the run in which a store into its own line ends it.
pub fn words_read_at_the_end() -> u64
    ensures { result ≡ words_of (answer_at (reads Two own_line_rows (Run 9 ∷ [])).answers 0) }
{
    own_line_page();
    let own_line = 3;
    own_line
}

// The words that the board executes in that run: at least as many.
pub fn words_run_at_the_end() -> u64
    ensures { result ≡ words_of (answer_at (runs Two own_line_rows (Run 9 ∷ [])).answers 0) }
{
    own_line_page();
    4
}

// The number on the board where nothing stands behind the lines.
pub fn number_behind_the_lines() -> u8
    ensures { result ≡ number_of (answer_at (runs Two nothing_behind (off_the_lines_calls ++ (Run 1 ∷ []))).answers 2) }
{
    off_the_lines_page();
    23
}

// The number on the board where data that is no word stands behind the lines.
pub fn number_in_the_data() -> u8
    ensures { result ≡ number_of (answer_at (runs Two data_behind (off_the_lines_calls ++ (Run 1 ∷ []))).answers 2) }
{
    off_the_lines_page();
    24
}

// What 40 becomes when it is shifted by three places and then by none, with words of four bytes.
pub fn forty_shifted() -> u32
    ensures board { result ≡ (runs Four shift_twice four_calls).left.core.regs 1 }
    ensures reading { result ≡ (reads Four shift_twice four_calls).left.core.regs 1 }
{
    four_bytes_page();
    5
}
