// The line of a word's fields. It is whole before a byte of it goes into a lent buffer.
ghost use Rattle.std.specs.Prelude.{◌≡◌, ◌≤◌, ◌++◌, length, codes};
ghost use Rattle.word.specs.Table.{row};
ghost use Rattle.lister.specs.Lines.{immediate_text, register_text, three_registers, register_and_number, operands, line_with, line_of_fields};

use arrayvec::ArrayString;
use itoa::Buffer;
use word::{Extension, Fields, Operation, Register, Shape};

fn register_text(register: Register) -> &'static str
    ensures text { result.now ≡ register_text register }
    ensures len { length result.now ≡ 2 }
{
    // Stays: the eight names as they are; a digit made of the number would have to be shown to be one byte.
    match register.number() {
        0 => "r0",
        1 => "r1",
        2 => "r2",
        3 => "r3",
        4 => "r4",
        5 => "r5",
        6 => "r6",
        _ => "r7",
    }
}

fn immediate_text<'a>(extension: Option<Extension>, n: u8, digits: &'a mut Buffer) -> &'a str
    ensures text { result.now ≡ immediate_text extension n }
    ensures short { length result.now ≤ 4 }
{
    match extension {
        None | Some(Extension::ZeroExtended) => digits.format(n),
        Some(Extension::SignExtended) => digits.format(n.cast_signed()),
    }
}

// A space and three registers.
// Stays: pushed piece by piece, here and below: `write!` would answer a `Result` that is never an `Err`.
fn three_registers(a: Register, b: Register, c: Register) -> ArrayString<9>
    ensures { result.bytes ≡ codes " " ++ three_registers a b c }
{
    let mut text = ArrayString::new();
    text.push_str(" ");
    text.push_str(register_text(a));
    text.push_str(",");
    text.push_str(register_text(b));
    text.push_str(",");
    text.push_str(register_text(c));
    text
}

// The same for a mnemonic that has operands, and nothing for one that has none.
fn registers(operation: Operation, a: Register, b: Register, c: Register) -> ArrayString<9>
    ensures { result.bytes ≡ operands (row operation).shape (three_registers a b c) }
{
    match operation.mnemonic().shape {
        Some(Shape::NoOperands) => ArrayString::new(),
        _ => three_registers(a, b, c),
    }
}

// A space, a register and an immediate.
fn number(operation: Operation, a: Register, n: u8) -> ArrayString<9>
    ensures { result.bytes ≡ codes " " ++ register_and_number (row operation).immediate a n }
{
    let mut digits = Buffer::new();
    let mut text = ArrayString::new();
    text.push_str(" ");
    text.push_str(register_text(a));
    text.push_str(",");
    text.push_str(immediate_text(operation.mnemonic().immediate, n, &mut digits));
    text
}

// A mnemonic has at most four letters, so that a line has at most 15 bytes.
fn line_with(operation: Operation, operands: ArrayString<9>) -> ArrayString<16>
    ensures { result.bytes ≡ line_with (row operation).name operands.bytes }
{
    let mut line = ArrayString::new();
    line.push_str("\t");
    line.push_str(operation.mnemonic().name);
    line.push_str(operands.as_str());
    line.push_str("\n");
    line
}

/// The line with these fields.
pub(crate) fn line_of(fields: Fields) -> ArrayString<16>
    ensures { result.bytes ≡ line_of_fields fields }
{
    match fields {
        Fields::Registers {
            operation,
            rst,
            rsa,
            rsb,
        } => line_with(operation, registers(operation, rst, rsa, rsb)),
        Fields::Immediate {
            operation,
            rst,
            immediate,
        } => line_with(operation, number(operation, rst, immediate)),
    }
}
