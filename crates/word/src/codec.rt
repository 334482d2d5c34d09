// Words to instructions and back.
ghost use Rattle.std.specs.Prelude.{◌≡◌, ◌+◌, ◌*◌, ◌/◌, ◌%◌, ◌<◌, Some};
ghost use Rattle.word.specs.Registers.{register};
ghost use Rattle.word.specs.Table.{coded, immediately_coded};
ghost use Rattle.word.specs.Words.{register_word, immediate_word, fields, encoded, keeps_zero, with_registers, with_immediate, of_registers, of_immediate, decoded};
ghost use Rattle.word.specs.Laws.{Gives, DecodesBack, EncodesBack};

use crate::instructions::{Fields, Instruction, Operation};
use crate::registers::Register;
use crate::table::Shape;

impl Register {
    /// The register that the lowest three bits name.
    pub fn of_bits(bits: u16) -> Register
        ensures { result ≡ register bits }
    {
        let number = (bits % 8) as u8;
        Register { number }
    }

    pub fn number(self) -> u8
        ensures value { result ≡ self.number }
        ensures small { result < 8 }
        ensures back { register result ≡ self }
    {
        self.number
    }
}

impl Instruction {
    /// Its operands in the order of the word's fields; a field that no operand fills is register 0.
    pub fn fields(self) -> Fields
        ensures { result ≡ fields self }
    {
        let zero = Register::of_bits(0);
        match self {
            Instruction::Compute {
                computation,
                target,
                left,
                right,
            } => Fields::Registers {
                operation: Operation::Computes(computation),
                rst: target,
                rsa: left,
                rsb: right,
            },
            Instruction::ComputeImmediate {
                computation,
                register,
                immediate,
            } => Fields::Immediate {
                operation: Operation::Computes(computation),
                rst: register,
                immediate,
            },
            Instruction::Shift {
                shift,
                target,
                source,
            } => Fields::Registers {
                operation: Operation::Shifts(shift),
                rst: target,
                rsa: source,
                rsb: zero,
            },
            Instruction::Load {
                width,
                target,
                address,
            } => Fields::Registers {
                operation: Operation::Loads(width),
                rst: target,
                rsa: zero,
                rsb: address,
            },
            Instruction::Store {
                width,
                source,
                address,
            } => Fields::Registers {
                operation: Operation::Stores(width),
                rst: zero,
                rsa: source,
                rsb: address,
            },
            Instruction::Branch {
                condition,
                tested,
                target,
            } => Fields::Registers {
                operation: Operation::Branches(condition),
                rst: zero,
                rsa: tested,
                rsb: target,
            },
            Instruction::BranchImmediate {
                condition,
                tested,
                immediate,
            } => Fields::Immediate {
                operation: Operation::Branches(condition),
                rst: tested,
                immediate,
            },
            Instruction::LoadRegister {
                register,
                immediate,
            } => Fields::Immediate {
                operation: Operation::LoadsRegister,
                rst: register,
                immediate,
            },
            Instruction::LoadConstant {
                register,
                immediate,
            } => Fields::Immediate {
                operation: Operation::LoadsConstant,
                rst: register,
                immediate,
            },
            Instruction::Halt => Fields::Registers {
                operation: Operation::Halts,
                rst: zero,
                rsa: zero,
                rsb: zero,
            },
        }
    }
}

// The fields are shifted to their places and joined.
// Stays: three registers by name, here and below: a struct would be filled by name at each call and read by name again.
fn register_word(opcode: u8, rst: Register, rsa: Register, rsb: Register, op2: u8) -> u16
    requires { (opcode < 16) × (op2 < 4) }
    ensures { result ≡ register_word opcode rst rsa rsb op2 }
{
    let rst = u16::from(rst.number());
    let rsa = u16::from(rsa.number());
    let rsb = u16::from(rsb.number());
    u16::from(opcode) << 12 | rst << 8 | rsa << 5 | rsb << 2 | u16::from(op2)
}

fn immediate_word(opcode: u8, rst: Register, immediate: u8) -> u16
    requires { opcode < 16 }
    ensures { result ≡ immediate_word opcode rst immediate }
{
    let rst = u16::from(rst.number());
    u16::from(opcode) << 12 | 1 << 11 | rst << 8 | u16::from(immediate)
}

/// The word of an instruction.
pub fn encode(instruction: Instruction) -> u16
    ensures value { result ≡ encoded instruction }
    ensures back { decoded result ≡ Some instruction }
{
    match instruction.fields() {
        Fields::Registers {
            operation,
            rst,
            rsa,
            rsb,
        } => {
            let row = operation.mnemonic();
            register_word(row.opcode, rst, rsa, rsb, row.op2)
        }
        Fields::Immediate {
            operation,
            rst,
            immediate,
        } => {
            let row = operation.mnemonic();
            immediate_word(row.opcode, rst, immediate)
        }
    }
}

impl Shape {
    /// Whether the register fields that must be 0 are.
    pub fn keeps_zero(self, rst: Register, rsa: Register, rsb: Register) -> bool
        ensures { result ≡ keeps_zero (Some self) rst rsa rsb }
    {
        let zero = Register::of_bits(0);
        match self {
            Shape::ThreeRegisters => true,
            Shape::LastZero => rsb == zero,
            Shape::MiddleZero => rsa == zero,
            Shape::FirstZero => rst == zero,
            Shape::NoOperands => rst == zero && rsa == zero && rsb == zero,
        }
    }
}

impl Operation {
    /// The instruction of this operation with these register fields; `None` where it has no such words.
    pub fn with_registers(self, rst: Register, rsa: Register, rsb: Register) -> Option<Instruction>
        ensures { result ≡ with_registers self rst rsa rsb }
    {
        match self {
            Operation::Computes(computation) => Some(Instruction::Compute {
                computation,
                target: rst,
                left: rsa,
                right: rsb,
            }),
            Operation::Shifts(shift) => Some(Instruction::Shift {
                shift,
                target: rst,
                source: rsa,
            }),
            Operation::Loads(width) => Some(Instruction::Load {
                width,
                target: rst,
                address: rsb,
            }),
            Operation::Stores(width) => Some(Instruction::Store {
                width,
                source: rsa,
                address: rsb,
            }),
            Operation::Branches(condition) => Some(Instruction::Branch {
                condition,
                tested: rsa,
                target: rsb,
            }),
            Operation::LoadsRegister | Operation::LoadsConstant => None,
            Operation::Halts => Some(Instruction::Halt),
        }
    }

    /// The instruction of this operation with this immediate; `None` where it has no such words.
    pub fn with_immediate(self, rst: Register, immediate: u8) -> Option<Instruction>
        ensures { result ≡ with_immediate self rst immediate }
    {
        match self {
            Operation::Computes(computation) => Some(Instruction::ComputeImmediate {
                computation,
                register: rst,
                immediate,
            }),
            Operation::Branches(condition) => Some(Instruction::BranchImmediate {
                condition,
                tested: rst,
                immediate,
            }),
            Operation::LoadsRegister => Some(Instruction::LoadRegister {
                register: rst,
                immediate,
            }),
            Operation::LoadsConstant => Some(Instruction::LoadConstant {
                register: rst,
                immediate,
            }),
            Operation::Shifts(_) | Operation::Loads(_) | Operation::Stores(_) | Operation::Halts =>
                None,
        }
    }
}

fn decode_registers(
    opcode: u8,
    op2: u8,
    rst: Register,
    rsa: Register,
    rsb: Register,
) -> Option<Instruction>
    ensures { result ≡ of_registers (coded opcode op2) rst rsa rsb }
{
    let operation = Operation::coded(opcode, op2)?;
    let shape = operation.mnemonic().shape?;
    if shape.keeps_zero(rst, rsa, rsb) {
        operation.with_registers(rst, rsa, rsb)
    } else {
        None
    }
}

fn decode_immediate(opcode: u8, rst: Register, immediate: u8) -> Option<Instruction>
    ensures { result ≡ of_immediate (immediately_coded opcode) rst immediate }
{
    let operation = Operation::immediately_coded(opcode)?;
    operation.with_immediate(rst, immediate)
}

/// The instruction of a word, or `None` where the word is not valid.
pub fn decode(word: u16) -> Option<Instruction>
    ensures value { result ≡ decoded word }
    ensures forth { Gives word result }
{
    let opcode = (word >> 12) as u8;
    let rst = Register::of_bits(word >> 8);
    if (word >> 11) % 2 == 0 {
        let rsa = Register::of_bits(word >> 5);
        let rsb = Register::of_bits(word >> 2);
        decode_registers(opcode, (word % 4) as u8, rst, rsa, rsb)
    } else {
        decode_immediate(opcode, rst, (word % 256) as u8)
    }
}

/// Decoding an encoded instruction gives it back, and a valid word is the encoding of what it decodes to.
pub fn codec_stands()
    ensures back { DecodesBack }
    ensures forth { EncodesBack }
{}
