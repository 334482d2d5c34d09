// What a word at a fixed address does to the registers, told and not done.
use std::alloc::AllocError;
use word::{Condition, Instruction, Operation, Register, Width, arithmetic};

/// Where the words stand: next addresses and branches wrap from here.
const ADDRESS: u16 = 0xFFF0;

#[derive(Clone, Copy, PartialEq, Eq, Debug)]
pub enum Effect {
    Register {
        target: Register,
        value: u16,
    },
    Load {
        target: Register,
        width: Width,
        address: u16,
    },
    Store {
        width: Width,
        address: u16,
        value: u16,
    },
    Next {
        address: u16,
    },
    Halt,
}

fn value(registers: &[u16; 8], register: Register) -> u16 {
    registers[usize::from(register.number())]
}

fn put(target: Register, value: u16) -> Effect {
    Effect::Register { target, value }
}

fn immediate_value(operation: Operation, immediate: u8) -> u16 {
    arithmetic::extend(operation.mnemonic().immediate, immediate)
}

fn branch(condition: Condition, tested: u16, target: u16) -> Effect {
    if arithmetic::is_taken(condition, tested) {
        Effect::Next { address: target }
    } else {
        Effect::Next {
            address: arithmetic::next_address(ADDRESS),
        }
    }
}

fn store(width: Width, address: u16, value: u16) -> Effect {
    let value = match width {
        Width::Byte => u16::from(arithmetic::low_byte(value)),
        Width::Word => value,
    };
    Effect::Store {
        width,
        address,
        value,
    }
}

fn name(width: Width) -> &'static str {
    match width {
        Width::Byte => "byte",
        Width::Word => "word",
    }
}

/// Adds a word as four hexadecimal digits.
// Stays: digit by digit, and pushed: a `Display` with `{:04x}` takes nearly as long again as all else that is printed here.
pub fn push_word(out: &mut String, word: u16) -> Result<(), AllocError> {
    for place in [12, 8, 4, 0] {
        let digit = char::from_digit(u32::from(word >> place) % 16, 16);
        out.push(digit.unwrap_or('0'))?;
    }
    Ok(())
}

fn push_register(out: &mut String, register: Register) -> Result<(), AllocError> {
    let digit = char::from_digit(u32::from(register.number()), 8);
    out.push('r')?;
    out.push(digit.unwrap_or('0'))
}

// An arrow, how wide the load or store is, and where.
fn push_place(out: &mut String, arrow: &str, width: Width, address: u16) -> Result<(), AllocError> {
    out.push_str(arrow)?;
    out.push_str(name(width))?;
    out.push(' ')?;
    push_word(out, address)
}

impl Effect {
    /// Adds what it says.
    pub fn push_to(self, out: &mut String) -> Result<(), AllocError> {
        match self {
            Effect::Register { target, value } => {
                push_register(out, target)?;
                out.push('=')?;
                push_word(out, value)
            }
            Effect::Load {
                target,
                width,
                address,
            } => {
                push_register(out, target)?;
                push_place(out, "<-", width, address)
            }
            Effect::Store {
                width,
                address,
                value,
            } => {
                push_word(out, value)?;
                push_place(out, "->", width, address)
            }
            Effect::Next { address } => {
                out.push_str("next=")?;
                push_word(out, address)
            }
            Effect::Halt => out.push_str("halt"),
        }
    }
}

pub fn effect_of(instruction: Instruction, r: &[u16; 8]) -> Effect {
    match instruction {
        Instruction::Compute {
            computation,
            target,
            left,
            right,
        } => {
            put(
                target,
                arithmetic::compute(computation, value(r, left), value(r, right)),
            )
        }
        Instruction::ComputeImmediate {
            computation,
            register,
            immediate,
        } => {
            let b = immediate_value(Operation::Computes(computation), immediate);
            put(
                register,
                arithmetic::compute(computation, value(r, register), b),
            )
        }
        Instruction::Shift {
            shift,
            target,
            source,
        } => { put(target, arithmetic::shift_right(shift, value(r, source))) }
        Instruction::Load {
            width,
            target,
            address,
        } => Effect::Load {
            target,
            width,
            address: value(r, address),
        },
        Instruction::Store {
            width,
            source,
            address,
        } => store(width, value(r, address), value(r, source)),
        Instruction::Branch {
            condition,
            tested,
            target,
        } => branch(condition, value(r, tested), value(r, target)),
        Instruction::BranchImmediate {
            condition,
            tested,
            immediate,
        } => {
            let b = immediate_value(Operation::Branches(condition), immediate);
            branch(
                condition,
                value(r, tested),
                arithmetic::branch_target(ADDRESS, b),
            )
        }
        Instruction::LoadRegister {
            register,
            immediate,
        } => {
            let b = immediate_value(Operation::LoadsRegister, immediate);
            put(register, arithmetic::ldr(b))
        }
        Instruction::LoadConstant {
            register,
            immediate,
        } => {
            let b = immediate_value(Operation::LoadsConstant, immediate);
            put(register, arithmetic::ldc(value(r, register), b))
        }
        Instruction::Halt => Effect::Halt,
    }
}
