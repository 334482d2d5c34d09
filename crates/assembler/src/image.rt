// The image's bytes, line by line, where all lines are placed and all names are labels.
ghost use Rattle.std.specs.Prelude.{◌≡◌, ◌+◌, ◌*◌, ◌≤◌, true, ◌++◌, length, Some};
ghost use Rattle.syntax.specs.Rows.{Row, in_range, fits_word, fits_value, said_row, said_value};
ghost use Rattle.syntax.specs.Data.{Datum, numbers, data_bytes, fits, all_fit, said_data, text_bytes, number_bytes, word_of, value_of as number_value};
ghost use Rattle.syntax.specs.Numbers.{number};
ghost use Rattle.syntax.specs.Cuts.{lines, pieces};
ghost use Rattle.syntax.specs.declared.cuts.Separator.TheVariants.{Space};
ghost use Rattle.assembler.specs.Tables.{filled, size, Spared};
ghost use Rattle.assembler.specs.Expansions.{value_of, value_in, words};
ghost use Rattle.assembler.specs.Images.{address_in, word_bytes, data_part, part_bytes, line_bytes, image_of, FitData};

use crate::expansion::spell;
use crate::labels::find_label;
use crate::lines::Lines;
use crate::output::{put_bytes, put_words};
use crate::records::LabelRecord;
use crate::table::Table;
use syntax::{Data, Row, Separator, Statement, Value, cut, read_data, read_number, read_statement};

// A number in range as a word; a negative one counts down from 65,536.
fn word_of(n: i64) -> u16
    requires { fits_word n ≡ true }
    ensures { result ≡ word_of n }
{
    n.rem_euclid(65536) as u16
}

// The address of a name that is a label.
fn address_in(name: &[u8], text: &[u8], labels: &[LabelRecord]) -> u16
    ensures { result ≡ address_in text.now labels.now name.now }
{
    find_label(labels, text, name).map_or(0, |record| record.address)
}

fn value_of(value: Value<'_>, text: &[u8], labels: &[LabelRecord]) -> u16
    requires { fits_value (said_value value) ≡ true }
    ensures { result ≡ value_of (address_in text.now labels.now) (said_value value.entry) }
{
    match value {
        Value::Number(n) => word_of(n),
        Value::Name(name) => address_in(name, text, labels),
    }
}

// The value that a row's words take in.
fn value_in(row: Row<'_>, text: &[u8], labels: &[LabelRecord]) -> u16
    requires { in_range (said_row row) ≡ true }
    ensures { result ≡ value_in (address_in text.now labels.now) (said_row row.entry) }
{
    match row {
        Row::Constant(_, value) | Row::LoadFrom(_, _, value) | Row::StoreTo(_, _, value) => {
            value_of(value, text, labels)
        }
        Row::BranchTo(_, _, name) => address_in(name, text, labels),
        Row::Registers(..) | Row::Immediate(..) | Row::Negation(_) | Row::LongShift(..) => 0,
    }
}

fn put_row(row: Row<'_>, text: &[u8], labels: &[LabelRecord], out: &mut Table<u8>)
    requires range { in_range (said_row row) ≡ true }
    requires room { out.old.count + length (word_bytes (words (value_in (address_in text.now labels.now) (said_row row)) (said_row row))) ≤ size out.old }
    ensures put { filled out.new ≡ filled out.old ++ word_bytes (words (value_in (address_in text.now labels.now) (said_row row.entry)) (said_row row.entry)) }
    ensures spared { Spared out.old out.new }
{
    let words = spell(row, value_in(row, text, labels));
    put_words(words.as_slice(), out);
}

// A string's bytes, a zero byte, and one more where their count is odd.
fn put_text(string: &[u8], out: &mut Table<u8>)
    requires { out.old.count + length (text_bytes string.now) ≤ size out.old }
    ensures put { filled out.new ≡ filled out.old ++ text_bytes string.now }
    ensures spared { Spared out.old out.new }
{
    put_bytes(string, out);
    put_bytes(if string.len() % 2 == 0 { &[0, 0] } else { &[0] }, out);
}

// A number of data as a word.
fn data_word(piece: &[u8]) -> u16
    requires { fits (number piece.now) ≡ true }
    ensures { result ≡ number_value (number piece.now) }
{
    read_number(piece).map_or(0, word_of)
}

fn put_numbers(text: &[u8], out: &mut Table<u8>)
    requires fit { all_fit (pieces Space text.now) ≡ true }
    requires room { out.old.count + length (number_bytes (pieces Space text.now)) ≤ size out.old }
    ensures put { filled out.new ≡ filled out.old ++ number_bytes (pieces Space text.now) }
    ensures spared { Spared out.old out.new }
{
    let mut left = Some(text);
    while let Some(rest) = left {
        let (piece, behind) = cut(rest, Separator::Space);
        put_words(&[data_word(piece)], out);
        left = behind;
    }
}

fn put_data(datum: Data<'_>, out: &mut Table<u8>)
    requires fit { FitData (said_data datum) }
    requires room { out.old.count + length (data_bytes (said_data datum)) ≤ size out.old }
    ensures put { filled out.new ≡ filled out.old ++ data_bytes (said_data datum.entry) }
    ensures spared { Spared out.old out.new }
{
    match datum {
        Data::Text(string) => put_text(string, out),
        Data::Numbers(text) => put_numbers(text, out),
    }
}

// What stands behind a label, where it is data.
fn put_rest(rest: &[u8], out: &mut Table<u8>)
    requires { out.old.count + length (part_bytes (λ _. 0) (data_part (Some rest.now))) ≤ size out.old }
    ensures put { filled out.new ≡ filled out.old ++ part_bytes (λ _. 0) (data_part (Some rest.now)) }
    ensures spared { Spared out.old out.new }
{
    if let Some(datum) = read_data(rest) {
        put_data(datum, out);
    }
}

// Puts the bytes of one line behind what the image holds.
fn put_line(line: &[u8], text: &[u8], labels: &[LabelRecord], out: &mut Table<u8>)
    requires { out.old.count + length (line_bytes (address_in text.now labels.now) line.now) ≤ size out.old }
    ensures put { filled out.new ≡ filled out.old ++ line_bytes (address_in text.now labels.now) line.now }
    ensures spared { Spared out.old out.new }
{
    match read_statement(line) {
        Ok(Statement::Code(row)) => put_row(row, text, labels, out),
        Ok(Statement::Label(_, Some(rest))) => put_rest(rest, out),
        _ => {}
    }
}

/// Puts the image of a text behind what the table holds.
pub(crate) fn put_image(text: &[u8], labels: &[LabelRecord], out: &mut Table<u8>)
    requires { out.old.count + length (image_of (address_in text.now labels.now) (lines text.now)) ≤ size out.old }
    ensures put { filled out.new ≡ filled out.old ++ image_of (address_in text.now labels.now) (lines text.now) }
    ensures spared { Spared out.old out.new }
{
    for line in Lines::of(text) {
        put_line(line, text, labels, out);
    }
}
