// The names that lines use.
ghost use Rattle.std.specs.Prelude.{◌≡◌, ◌<◌, length, IfSome, Ok};
ghost use Rattle.std.specs.List.{position};
ghost use Rattle.std.specs.Option.{option_map};
ghost use Rattle.syntax.specs.Cuts.{lines};
ghost use Rattle.syntax.specs.Rows.{said_row, said_value};
ghost use Rattle.syntax.specs.Statements.{statement_in, statement_of};
ghost use Rattle.assembler.specs.Images.{name_of, used, used_by, is_undefined, first_undefined};

use crate::labels::find_label;
use crate::lines::Lines;
use crate::records::LabelRecord;
use syntax::{Row, Statement, Value, read_statement};

fn name_of(value: Value<'_>) -> Option<&[u8]>
    ensures { option_map (λ x. x.now) result ≡ name_of (said_value value.entry) }
{
    match value {
        Value::Number(_) => None,
        Value::Name(name) => Some(name),
    }
}

fn used_name(row: Row<'_>) -> Option<&[u8]>
    ensures { option_map (λ x. x.now) result ≡ used (said_row row.entry) }
{
    match row {
        Row::Constant(_, value) | Row::LoadFrom(_, _, value) | Row::StoreTo(_, _, value) => name_of(
            value,
        ),
        Row::BranchTo(_, _, name) => Some(name),
        Row::Registers(..) | Row::Immediate(..) | Row::Negation(_) | Row::LongShift(..) => None,
    }
}

fn name_in(statement: Statement<'_>) -> Option<&[u8]>
    ensures { option_map (λ x. x.now) result ≡ used_by (Ok (statement_of statement.entry)) }
{
    match statement {
        Statement::Code(row) => used_name(row),
        Statement::Empty | Statement::Label(..) => None,
    }
}

// A line that does not read uses no name.
fn name_on(line: &[u8]) -> Option<&[u8]>
    ensures { option_map (λ x. x.now) result ≡ used_by (statement_in line.now) }
{
    name_in(read_statement(line).ok()?)
}

// Stays: a text and its labels as two parameters; tried as one struct, but what a closure over it answers leaves a goal.
fn is_undefined(name: Option<&[u8]>, text: &[u8], labels: &[LabelRecord]) -> bool
    ensures { result ≡ is_undefined text.now labels.now (option_map (λ x. x.now) name.entry) }
{
    name.is_some_and(|name| find_label(labels, text, name).is_none())
}

// Where, counted from 0, the first line stands that uses a name that is no label.
fn place_of_undefined(text: &[u8], labels: &[LabelRecord]) -> Option<usize>
    ensures place { result ≡ position (λ l. is_undefined text.now labels.now (used_by (statement_in l))) (lines text.now) }
    ensures bound { IfSome result (λ i. i < length text.now) }
{
    Lines::of(text).position(|line| is_undefined(name_on(line), text, labels))
}

/// The number of the first line that uses a name that is no label.
pub fn first_undefined(text: &[u8], labels: &[LabelRecord]) -> Option<usize>
    ensures { result ≡ first_undefined text.now labels.now (lines text.now) }
{
    let place = place_of_undefined(text, labels)?;
    Some(place + 1)
}
