// Instructions taken apart, and the questions of their rows.
ghost use Rattle.std.specs.Prelude.{◌≡◌, Some};
ghost use Rattle.syntax.specs.Rows.{fits_byte, fits_word, fits_value, in_range, registers_fit, asked, judged, row_of, said_value, said_row, mapped_ok};
ghost use Rattle.syntax.specs.Operands.{said_all};
ghost use Rattle.word.specs.Registers.{register as numbered};

use crate::mnemonics::Mnemonic;
use crate::operands::Operands;
use crate::rows::{InstructionFault, Row, Value, row_of};
use word::{Extension, Register};

/// An instruction taken apart.
#[derive(Clone, Copy)]
pub struct Instruction<'a> {
    pub mnemonic: Mnemonic,
    pub operands: Operands<'a>,
}

fn fits_byte(extension: Extension, n: i64) -> bool
    ensures { result ≡ fits_byte (Some extension) n }
{
    match extension {
        Extension::ZeroExtended => (0..=255).contains(&n),
        Extension::SignExtended => (-128..=127).contains(&n),
    }
}

pub fn fits_word(n: i64) -> bool
    ensures { result ≡ fits_word n }
{
    (-32768..=65535).contains(&n)
}

fn fits_value(value: Value<'_>) -> bool
    ensures { result ≡ fits_value (said_value value.entry) }
{
    match value {
        Value::Number(n) => fits_word(n),
        Value::Name(_) => true,
    }
}

fn in_range(row: Row<'_>) -> bool
    ensures { result ≡ in_range (said_row row.entry) }
{
    match row {
        Row::Immediate(operation, _, n) => {
            operation
                .mnemonic()
                .immediate
                .is_some_and(|extension| fits_byte(extension, n))
        }
        Row::Constant(_, value) | Row::LoadFrom(_, _, value) | Row::StoreTo(_, _, value) => {
            fits_value(value)
        }
        Row::Registers(..) | Row::Negation(_) | Row::BranchTo(..) | Row::LongShift(..) => true,
    }
}

fn register(number: u8) -> Register
    ensures { result ≡ numbered number }
{
    Register::of_bits(u16::from(number))
}

fn registers_fit(row: Row<'_>) -> bool
    ensures { result ≡ registers_fit (said_row row.entry) }
{
    let zero = register(0);
    match row {
        Row::Registers(operation, a, b, c) => {
            operation.mnemonic().shape.is_some_and(|shape| shape.keeps_zero(
                register(a),
                register(b),
                register(c),
            ))
        }
        Row::Immediate(..) | Row::Constant(..) => true,
        Row::Negation(r)
        | Row::LoadFrom(_, r, _)
        | Row::StoreTo(_, r, _)
        | Row::BranchTo(_, r, _) => register(r) != zero,
        Row::LongShift(_, r, s) => register(r) != register(s),
    }
}

fn asked(row: Row<'_>) -> Result<Row<'_>, InstructionFault>
    ensures { mapped_ok said_row result ≡ asked (said_row row.entry) }
{
    if !in_range(row) {
        return Err(InstructionFault::OutOfRange);
    }
    if !registers_fit(row) {
        return Err(InstructionFault::WrongRegister);
    }
    Ok(row)
}

impl<'a> Instruction<'a> {
    /// Its row, where there is one and its numbers and registers fit.
    pub fn row(self) -> Result<Row<'a>, InstructionFault>
        ensures { mapped_ok said_row result ≡ judged (row_of self.entry.mnemonic (said_all self.entry.operands)) }
    {
        let row = row_of(self.mnemonic, self.operands).ok_or(InstructionFault::NoSuchRow)?;
        asked(row)
    }
}
