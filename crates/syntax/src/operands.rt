// Operands.
ghost use Rattle.std.specs.Prelude.{◌≡◌};
ghost use Rattle.std.specs.Option.{option_map};
ghost use Rattle.syntax.specs.Cuts.{pieces};
ghost use Rattle.syntax.specs.declared.cuts.Separator.TheVariants.{Comma};
ghost use Rattle.syntax.specs.Operands.{operand_by, after_none, operands_by, said, said_all};
ghost use Rattle.syntax.specs.Numbers.{held_number};

use crate::cuts::{Separator, cut};
use crate::names::{is_name, read_register};
use crate::numbers::read_number;

/// One operand, as it stands between commas. A register is held by a number, which is read modulo 8.
// Stays: a number and no `Register`, whose type is narrower: who gives operands and rows may give any number.
#[derive(Clone, Copy)]
pub enum Operand<'a> {
    Register(u8),
    Number(i64),
    Name(&'a [u8]),
}

/// No mnemonic takes more than three.
// Stays: rows are chosen by a match on the number of operands; `None` is a line without any, no lack of an answer.
#[derive(Clone, Copy)]
pub enum Operands<'a> {
    None,
    One(Operand<'a>),
    Two(Operand<'a>, Operand<'a>),
    Three(Operand<'a>, Operand<'a>, Operand<'a>),
}

fn read_operand(text: &[u8]) -> Option<Operand<'_>>
    ensures { option_map said result ≡ operand_by held_number text.now }
{
    if let Some(register) = read_register(text) {
        return Some(Operand::Register(register.number()));
    }
    if is_name(text) {
        return Some(Operand::Name(text));
    }
    Some(Operand::Number(read_number(text)?))
}

// Stays: one operand after the other, since operands cannot be collected without memory.
fn read_some(text: &[u8]) -> Option<Operands<'_>>
    ensures { option_map said_all result ≡ after_none held_number (pieces Comma text.now) }
{
    let (part, rest) = cut(text, Separator::Comma);
    let first = read_operand(part)?;
    let Some(rest) = rest else {
        return Some(Operands::One(first));
    };
    let (part, rest) = cut(rest, Separator::Comma);
    let second = read_operand(part)?;
    let Some(rest) = rest else {
        return Some(Operands::Two(first, second));
    };
    let (part, rest) = cut(rest, Separator::Comma);
    let third = read_operand(part)?;
    match rest {
        None => Some(Operands::Three(first, second, third)),
        Some(_) => None,
    }
}

/// The operands behind a mnemonic and its separator, or `None` where they are malformed or more than three.
pub fn read_operands(text: Option<&[u8]>) -> Option<Operands<'_>>
    ensures { option_map said_all result ≡ operands_by held_number (option_map (λ x. x.now) text.entry) }
{
    match text {
        None => Some(Operands::None),
        Some(text) => read_some(text),
    }
}
