// A text to its image.
#![tactic(auto)]

mod assembling;
mod expansion;
mod image;
mod labels;
mod layout;
mod lines;
mod output;
mod placing;
mod records;
mod refusals;
mod spelling;
mod table;
mod uses;

pub use assembling::{Assembled, Refused, addresses_fit, assemble};
pub use expansion::{counts_stand, spell, word_count};
pub use labels::find_label;
pub use lines::{count_lines, next_line};
pub use records::{LabelRecord, LineKind, LineRecord, Position, Refusal, Stop};
pub use spelling::Spelling;
pub use table::{Full, Table};
