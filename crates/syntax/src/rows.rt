// Rows: which lines there are, by mnemonic and operands.
ghost use Rattle.std.specs.Prelude.{◌≡◌};
ghost use Rattle.std.specs.Option.{option_map};
ghost use Rattle.word.specs.Registers.{register as numbered};
ghost use Rattle.syntax.specs.Operands.{said, said_all};
ghost use Rattle.syntax.specs.Rows.{of_none, of_one, of_two_registers, of_number, of_name, of_three, of_two, row_of, number_of, said_row};

use crate::mnemonics::{Mnemonic, Pseudo};
use crate::operands::{Operand, Operands};
use word::{Computation, Condition, Operation, Shape, Width};

/// A shift by as many places as a register says.
#[derive(Clone, Copy, PartialEq, Eq, Debug)]
pub enum LongShift {
    /// lsrm
    Logical,
    /// asrm
    Arithmetic,
    /// lslm
    Leftward,
}

/// A number, or the address of a name.
#[derive(Clone, Copy)]
pub enum Value<'a> {
    Number(i64),
    Name(&'a [u8]),
}

/// A line's row with its operands, registers by their numbers.
#[derive(Clone, Copy)]
pub enum Row<'a> {
    /// One word with Imm 0: Rst, RsA, RsB.
    Registers(Operation, u8, u8, u8),
    /// One word with Imm 1: Rst and the number.
    Immediate(Operation, u8, i64),
    /// neg r
    Negation(u8),
    /// ldi r,c
    Constant(u8, Value<'a>),
    /// ldb, ldw r,c
    LoadFrom(Width, u8, Value<'a>),
    /// stb, stw r,c
    StoreTo(Width, u8, Value<'a>),
    /// bez, bnz r,name
    BranchTo(Condition, u8, &'a [u8]),
    /// lsrm, asrm, lslm r,s
    LongShift(LongShift, u8, u8),
}

/// Why an instruction was refused.
#[derive(Clone, Copy, PartialEq, Eq, Debug)]
pub enum InstructionFault {
    UnknownMnemonic = 9,
    NoSuchRow = 10,
    OutOfRange = 11,
    WrongRegister = 12,
}

impl InstructionFault {
    /// The number by which it is known.
    // Stays: a method here; as a trait's it would take an impl with this same line for each enum that has numbers.
    pub fn number(self) -> u8
        ensures { result ≡ number_of self }
    {
        self as u8
    }
}

fn of_none<'a>(mnemonic: Mnemonic) -> Option<Row<'a>>
    ensures { option_map said_row result ≡ of_none mnemonic }
{
    match mnemonic {
        Mnemonic::OfWord(Operation::Halts) => Some(Row::Registers(Operation::Halts, 0, 0, 0)),
        Mnemonic::OfPseudo(Pseudo::Nop) => Some(Row::Registers(
            Operation::Computes(Computation::And),
            0,
            0,
            0,
        )),
        _ => None,
    }
}

fn of_one<'a>(mnemonic: Mnemonic, r: u8) -> Option<Row<'a>>
    ensures { option_map said_row result ≡ of_one mnemonic (numbered r) }
{
    match mnemonic {
        Mnemonic::OfPseudo(Pseudo::Not) => Some(Row::Immediate(
            Operation::Computes(Computation::Xor),
            r,
            -1,
        )),
        Mnemonic::OfPseudo(Pseudo::Neg) => Some(Row::Negation(r)),
        _ => None,
    }
}

fn leaves_out<'a>(operation: Operation, r: u8, s: u8) -> Option<Row<'a>>
    ensures { option_map said_row result ≡ of_two_registers (Mnemonic.OfWord operation) (numbered r) (numbered s) }
{
    match operation.mnemonic().shape? {
        Shape::LastZero => Some(Row::Registers(operation, r, s, 0)),
        Shape::MiddleZero => Some(Row::Registers(operation, r, 0, s)),
        Shape::FirstZero => Some(Row::Registers(operation, 0, r, s)),
        Shape::ThreeRegisters | Shape::NoOperands => None,
    }
}

fn of_two_registers<'a>(mnemonic: Mnemonic, r: u8, s: u8) -> Option<Row<'a>>
    ensures { option_map said_row result ≡ of_two_registers mnemonic (numbered r) (numbered s) }
{
    match mnemonic {
        Mnemonic::OfWord(operation) => leaves_out(operation, r, s),
        Mnemonic::OfPseudo(Pseudo::Lsl) => Some(Row::Registers(
            Operation::Computes(Computation::Add),
            r,
            s,
            s,
        )),
        Mnemonic::OfPseudo(Pseudo::Lsrm) => Some(Row::LongShift(LongShift::Logical, r, s)),
        Mnemonic::OfPseudo(Pseudo::Asrm) => Some(Row::LongShift(LongShift::Arithmetic, r, s)),
        Mnemonic::OfPseudo(Pseudo::Lslm) => Some(Row::LongShift(LongShift::Leftward, r, s)),
        Mnemonic::OfPseudo(Pseudo::Nop | Pseudo::Not | Pseudo::Neg | Pseudo::Ldi) => None,
    }
}

fn word_of_number<'a>(operation: Operation, r: u8, n: i64) -> Option<Row<'a>>
    ensures { option_map said_row result ≡ of_number (Mnemonic.OfWord operation) (numbered r) n }
{
    match operation {
        Operation::Loads(width) => Some(Row::LoadFrom(width, r, Value::Number(n))),
        Operation::Stores(width) => Some(Row::StoreTo(width, r, Value::Number(n))),
        Operation::Shifts(_) | Operation::Halts => None,
        _ => Some(Row::Immediate(operation, r, n)),
    }
}

// Stays: a mnemonic and its operands one by one, and apart from names: the rows are told apart by these kinds.
fn of_number<'a>(mnemonic: Mnemonic, r: u8, n: i64) -> Option<Row<'a>>
    ensures { option_map said_row result ≡ of_number mnemonic (numbered r) n }
{
    match mnemonic {
        Mnemonic::OfWord(operation) => word_of_number(operation, r, n),
        Mnemonic::OfPseudo(Pseudo::Ldi) => Some(Row::Constant(r, Value::Number(n))),
        Mnemonic::OfPseudo(_) => None,
    }
}

fn of_name<'a>(mnemonic: Mnemonic, r: u8, name: &'a [u8]) -> Option<Row<'a>>
    ensures { option_map said_row result ≡ of_name mnemonic (numbered r) name.now }
{
    match mnemonic {
        Mnemonic::OfWord(Operation::Loads(width)) => Some(Row::LoadFrom(
            width,
            r,
            Value::Name(name),
        )),
        Mnemonic::OfWord(Operation::Stores(width)) => Some(Row::StoreTo(
            width,
            r,
            Value::Name(name),
        )),
        Mnemonic::OfWord(Operation::Branches(condition)) => Some(Row::BranchTo(condition, r, name)),
        Mnemonic::OfPseudo(Pseudo::Ldi) => Some(Row::Constant(r, Value::Name(name))),
        _ => None,
    }
}

fn of_three<'a>(mnemonic: Mnemonic, a: u8, b: u8, c: u8) -> Option<Row<'a>>
    ensures { option_map said_row result ≡ of_three mnemonic (numbered a) (numbered b) (numbered c) }
{
    let Mnemonic::OfWord(operation) = mnemonic else {
        return None;
    };
    match operation.mnemonic().shape? {
        Shape::NoOperands => None,
        _ => Some(Row::Registers(operation, a, b, c)),
    }
}

fn of_two<'a>(mnemonic: Mnemonic, r: u8, second: Operand<'a>) -> Option<Row<'a>>
    ensures { option_map said_row result ≡ of_two mnemonic (numbered r) (said second.entry) }
{
    match second {
        Operand::Register(s) => of_two_registers(mnemonic, r, s),
        Operand::Number(n) => of_number(mnemonic, r, n),
        Operand::Name(name) => of_name(mnemonic, r, name),
    }
}

/// The row of a mnemonic with these operands.
pub fn row_of<'a>(mnemonic: Mnemonic, operands: Operands<'a>) -> Option<Row<'a>>
    ensures { option_map said_row result ≡ row_of mnemonic (said_all operands.entry) }
{
    match operands {
        Operands::None => of_none(mnemonic),
        Operands::One(Operand::Register(r)) => of_one(mnemonic, r),
        Operands::Two(Operand::Register(r), second) => of_two(mnemonic, r, second),
        Operands::Three(Operand::Register(a), Operand::Register(b), Operand::Register(c)) => {
            of_three(mnemonic, a, b, c)
        }
        _ => None,
    }
}
