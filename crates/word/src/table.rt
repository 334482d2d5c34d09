// The one table of mnemonics. Encoding, decoding, listing and assembling read it.
ghost use Rattle.std.specs.Prelude.{◌≡◌, ◌<◌, map, length};
ghost use Rattle.word.specs.Table.{row, row_in, entry_in, entries, is_coded, coded, is_immediately_coded, immediately_coded, is_named, named, NamesStand, CodesStand};

use crate::instructions::{Computation, Condition, Operation, Shift, Width};
use rows::{
    ADD, AND, ASR, BEZ, BNZ, HCF, LDB, LDC, LDR, LDW, LSR, OR, SLT, SLTU, STB, STW, SUB, XOR,
};

/// Which operands stand in the register fields.
#[derive(Clone, Copy, PartialEq, Eq, Debug)]
pub enum Shape {
    /// Rst, RsA and RsB are free.
    ThreeRegisters,
    /// RsB is 0.
    LastZero,
    /// RsA is 0.
    MiddleZero,
    /// Rst is 0.
    FirstZero,
    /// All three are 0.
    NoOperands,
}

/// How the low byte of a word with Imm 1 becomes the value B.
#[derive(Clone, Copy, PartialEq, Eq, Debug)]
pub enum Extension {
    ZeroExtended,
    SignExtended,
}

/// A row of the table.
#[derive(Clone, Copy, PartialEq, Eq, Debug)]
pub struct Mnemonic {
    pub name: &'static str,
    pub opcode: u8,
    pub op2: u8,
    /// `None` where the mnemonic has no form with register fields.
    pub shape: Option<Shape>,
    /// `None` where it has no form with an immediate.
    pub immediate: Option<Extension>,
    pub operation: Operation,
}

// One row a line, so that they read as a table.
#[rattlefmt::skip]
mod rows {
    use super::{Extension, Mnemonic, Shape};
    use crate::instructions::{Computation, Condition, Operation, Shift, Width};

    pub const AND: Mnemonic = Mnemonic { name: "and", opcode: 0, op2: 0, shape: Some(Shape::ThreeRegisters), immediate: Some(Extension::ZeroExtended), operation: Operation::Computes(Computation::And) };
    pub const OR: Mnemonic = Mnemonic { name: "or", opcode: 1, op2: 0, shape: Some(Shape::ThreeRegisters), immediate: Some(Extension::ZeroExtended), operation: Operation::Computes(Computation::Or) };
    pub const XOR: Mnemonic = Mnemonic { name: "xor", opcode: 2, op2: 0, shape: Some(Shape::ThreeRegisters), immediate: Some(Extension::SignExtended), operation: Operation::Computes(Computation::Xor) };
    pub const SLT: Mnemonic = Mnemonic { name: "slt", opcode: 3, op2: 0, shape: Some(Shape::ThreeRegisters), immediate: Some(Extension::SignExtended), operation: Operation::Computes(Computation::Slt) };
    pub const SLTU: Mnemonic = Mnemonic { name: "sltu", opcode: 4, op2: 0, shape: Some(Shape::ThreeRegisters), immediate: Some(Extension::SignExtended), operation: Operation::Computes(Computation::Sltu) };
    pub const ADD: Mnemonic = Mnemonic { name: "add", opcode: 5, op2: 0, shape: Some(Shape::ThreeRegisters), immediate: Some(Extension::SignExtended), operation: Operation::Computes(Computation::Add) };
    pub const SUB: Mnemonic = Mnemonic { name: "sub", opcode: 6, op2: 0, shape: Some(Shape::ThreeRegisters), immediate: Some(Extension::SignExtended), operation: Operation::Computes(Computation::Sub) };
    pub const LSR: Mnemonic = Mnemonic { name: "lsr", opcode: 0, op2: 1, shape: Some(Shape::LastZero), immediate: None, operation: Operation::Shifts(Shift::Lsr) };
    pub const ASR: Mnemonic = Mnemonic { name: "asr", opcode: 1, op2: 1, shape: Some(Shape::LastZero), immediate: None, operation: Operation::Shifts(Shift::Asr) };
    pub const LDB: Mnemonic = Mnemonic { name: "ldb", opcode: 0, op2: 2, shape: Some(Shape::MiddleZero), immediate: None, operation: Operation::Loads(Width::Byte) };
    pub const LDW: Mnemonic = Mnemonic { name: "ldw", opcode: 4, op2: 2, shape: Some(Shape::MiddleZero), immediate: None, operation: Operation::Loads(Width::Word) };
    pub const STB: Mnemonic = Mnemonic { name: "stb", opcode: 1, op2: 2, shape: Some(Shape::FirstZero), immediate: None, operation: Operation::Stores(Width::Byte) };
    pub const STW: Mnemonic = Mnemonic { name: "stw", opcode: 5, op2: 2, shape: Some(Shape::FirstZero), immediate: None, operation: Operation::Stores(Width::Word) };
    pub const BEZ: Mnemonic = Mnemonic { name: "bez", opcode: 10, op2: 3, shape: Some(Shape::FirstZero), immediate: Some(Extension::SignExtended), operation: Operation::Branches(Condition::Zero) };
    pub const BNZ: Mnemonic = Mnemonic { name: "bnz", opcode: 11, op2: 3, shape: Some(Shape::FirstZero), immediate: Some(Extension::SignExtended), operation: Operation::Branches(Condition::NotZero) };
    pub const LDR: Mnemonic = Mnemonic { name: "ldr", opcode: 8, op2: 0, shape: None, immediate: Some(Extension::SignExtended), operation: Operation::LoadsRegister };
    pub const LDC: Mnemonic = Mnemonic { name: "ldc", opcode: 9, op2: 0, shape: None, immediate: Some(Extension::ZeroExtended), operation: Operation::LoadsConstant };
    pub const HCF: Mnemonic = Mnemonic { name: "hcf", opcode: 0, op2: 3, shape: Some(Shape::NoOperands), immediate: None, operation: Operation::Halts };
}

const MNEMONICS: [Mnemonic; 18] = [
    AND, OR, XOR, SLT, SLTU, ADD, SUB, LSR, ASR, LDB, LDW, STB, STW, BEZ, BNZ, LDR, LDC, HCF,
];

/// The whole table.
pub fn mnemonics() -> &'static [Mnemonic]
    ensures rows { map entry_in result.now ≡ entries }
    ensures len { length result.now ≡ 18 }
{
    &MNEMONICS
}

impl Mnemonic {
    // A row has words with Imm 1 only where it says how an immediate is extended.
    fn is_immediately_coded(&self, opcode: u8) -> bool
        ensures { result ≡ is_immediately_coded opcode (row_in self.now) }
    {
        self.opcode == opcode && self.immediate.is_some()
    }
}

impl Operation {
    /// Its row of the table.
    pub fn mnemonic(self) -> Mnemonic
        ensures row { row_in result ≡ row self }
        ensures operation { result.operation ≡ self }
    {
        match self {
            Operation::Computes(Computation::And) => AND,
            Operation::Computes(Computation::Or) => OR,
            Operation::Computes(Computation::Xor) => XOR,
            Operation::Computes(Computation::Slt) => SLT,
            Operation::Computes(Computation::Sltu) => SLTU,
            Operation::Computes(Computation::Add) => ADD,
            Operation::Computes(Computation::Sub) => SUB,
            Operation::Shifts(Shift::Lsr) => LSR,
            Operation::Shifts(Shift::Asr) => ASR,
            Operation::Loads(Width::Byte) => LDB,
            Operation::Loads(Width::Word) => LDW,
            Operation::Stores(Width::Byte) => STB,
            Operation::Stores(Width::Word) => STW,
            Operation::Branches(Condition::Zero) => BEZ,
            Operation::Branches(Condition::NotZero) => BNZ,
            Operation::LoadsRegister => LDR,
            Operation::LoadsConstant => LDC,
            Operation::Halts => HCF,
        }
    }

    // Stays: three chains, here and below: a function over the test would state each test again in its contract.
    /// The operation with this opcode and, in a word whose Imm is 0, this op2.
    pub fn coded(opcode: u8, op2: u8) -> Option<Operation>
        ensures { result ≡ coded opcode op2 }
    {
        mnemonics()
            .iter()
            .find(|m| m.opcode == opcode && m.op2 == op2)
            .map(|m| m.operation)
    }

    /// The operation with this opcode in a word whose Imm is 1.
    pub fn immediately_coded(opcode: u8) -> Option<Operation>
        ensures { result ≡ immediately_coded opcode }
    {
        mnemonics()
            .iter()
            .find(|m| m.is_immediately_coded(opcode))
            .map(|m| m.operation)
    }

    /// The operation with this mnemonic.
    pub fn named(name: &[u8]) -> Option<Operation>
        ensures { result ≡ named name.now }
    {
        mnemonics()
            .iter()
            .find(|m| m.name.as_bytes() == name)
            .map(|m| m.operation)
    }
}

/// Each row of the table is found by its mnemonic, and by its codes.
pub fn table_stands()
    ensures names { NamesStand }
    ensures codes { CodesStand }
{}
