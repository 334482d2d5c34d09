// Data behind a label.
ghost use Rattle.std.specs.Prelude.{◌≡◌, ◌+◌, ◌*◌, ◌≤◌, length, IfSome};
ghost use Rattle.std.specs.Option.{option_map};
ghost use Rattle.syntax.specs.Cuts.{pieces};
ghost use Rattle.syntax.specs.Data.{fits, all_fit, string_in, numbers_in, data_in, data_bytes, said_data};
ghost use Rattle.syntax.specs.Numbers.{number};
ghost use Rattle.syntax.specs.declared.cuts.Separator.TheVariants.{Space};

use crate::cuts::{Separator, cut};
use crate::instructions::fits_word;
use crate::numbers::read_number;

/// Data as it stands in the text.
#[derive(Clone, Copy)]
pub enum Data<'a> {
    /// What stands between the quotes.
    Text(&'a [u8]),
    /// Numbers in range, with one space between.
    Numbers(&'a [u8]),
}

fn is_data_number(text: &[u8]) -> bool
    ensures { result ≡ fits (number text.now) }
{
    read_number(text).is_some_and(fits_word)
}

fn all_fit(text: &[u8]) -> bool
    ensures { result ≡ all_fit (pieces Space text.now) }
{
    text.split(|b| Separator::Space.parts(*b))
        .all(is_data_number)
}

fn read_string(text: &[u8]) -> Option<Data<'_>>
    ensures { option_map said_data result ≡ string_in text.now }
{
    match cut(text, Separator::Quote) {
        (inside, Some([])) => Some(Data::Text(inside)),
        _ => None,
    }
}

fn read_numbers(text: &[u8]) -> Option<Data<'_>>
    ensures { option_map said_data result ≡ numbers_in text.now }
{
    all_fit(text).then_some(Data::Numbers(text))
}

/// The data behind a label and its separator, or `None` where it is not well formed or a number is out of range.
pub fn read_data(text: &[u8]) -> Option<Data<'_>>
    ensures value { option_map said_data result ≡ data_in text.now }
    ensures size { IfSome result (λ d. length (data_bytes (said_data d)) ≤ length text.now + 1) }
{
    let (first, rest) = text.split_first()?;
    match char::from(*first) {
        '"' => read_string(rest),
        _ => read_numbers(text),
    }
}

fn count_pieces(text: &[u8]) -> usize
    ensures { result ≡ length (pieces Space text.now) }
{
    text.split(|b| Separator::Space.parts(*b)).count()
}

impl Data<'_> {
    /// How many words it takes.
    pub fn words(self) -> usize
        ensures { 2 * result ≡ length (data_bytes (said_data self.entry)) }
    {
        match self {
            Data::Text(text) => text.len() / 2 + 1,
            Data::Numbers(text) => count_pieces(text),
        }
    }
}
