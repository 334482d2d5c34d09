// Expansions: the words that a row spells.
ghost use Rattle.std.specs.Prelude.{◌≡◌, ◌/◌, ◌%◌, ◌≤◌, [], ◌∷◌, map, length};
ghost use Rattle.word.specs.Registers.{register as numbered};
ghost use Rattle.word.specs.Words.{encoded};
ghost use Rattle.syntax.specs.Rows.{said_row};
ghost use Rattle.assembler.specs.Expansions.{byte_of, list_of, ldi, shift_once, words, word_count, held};
ghost use Rattle.assembler.specs.Laws.{CountsStand};

use crate::spelling::Spelling;
use syntax::{LongShift, Row};
use word::{Computation, Condition, Instruction, Register, Shift, encode};

fn byte_of(n: i64) -> u8
    ensures { result ≡ byte_of n }
{
    n.rem_euclid(256) as u8
}

fn register(number: u8) -> Register
    ensures { result ≡ numbered number }
{
    Register::of_bits(u16::from(number))
}

fn spelled(instructions: &[Instruction]) -> Spelling
    requires { length instructions.now ≤ 3 }
    ensures text { held result ≡ map encoded instructions.now }
    ensures size { result.count ≤ 3 }
{
    let mut spelling = Spelling::new();
    for instruction in instructions {
        spelling.push(encode(*instruction));
    }
    spelling
}

// One instruction, or none.
fn spelled_alone(instruction: Option<Instruction>) -> Spelling
    ensures text { held result ≡ map encoded (list_of instruction) }
    ensures size { result.count ≤ 3 }
{
    spelled(instruction.as_slice())
}

// ldi r,c: the high byte, then the low byte.
fn ldi(register: Register, value: u16) -> (Instruction, Instruction)
    ensures { result.0 ∷ result.1 ∷ [] ≡ ldi register value }
{
    let [high, low] = value.to_be_bytes();
    (
        Instruction::LoadConstant {
            register,
            immediate: high,
        },
        Instruction::LoadConstant {
            register,
            immediate: low,
        },
    )
}

// ldi at,c and one more instruction.
fn through_at(value: u16, last: Instruction) -> Spelling
    ensures text { held result ≡ encoded (Instruction.LoadConstant (numbered 0) (value / 256)) ∷ encoded (Instruction.LoadConstant (numbered 0) (value % 256)) ∷ encoded last ∷ [] }
    ensures size { result.count ≤ 3 }
{
    let (high, low) = ldi(Register::of_bits(0), value);
    spelled(&[high, low, last])
}

fn shift_once(shift: LongShift, r: Register) -> Instruction
    ensures { result ≡ shift_once shift r }
{
    match shift {
        LongShift::Logical => Instruction::Shift {
            shift: Shift::Lsr,
            target: r,
            source: r,
        },
        LongShift::Arithmetic => Instruction::Shift {
            shift: Shift::Asr,
            target: r,
            source: r,
        },
        LongShift::Leftward => Instruction::Compute {
            computation: Computation::Add,
            target: r,
            left: r,
            right: r,
        },
    }
}

fn negation(r: Register) -> Spelling
    ensures text { held result ≡ encoded (Instruction.Compute Computation.Xor (numbered 0) (numbered 0) (numbered 0)) ∷ encoded (Instruction.Compute Computation.Sub r (numbered 0) r) ∷ [] }
    ensures size { result.count ≤ 3 }
{
    let at = Register::of_bits(0);
    let clear = Instruction::Compute {
        computation: Computation::Xor,
        target: at,
        left: at,
        right: at,
    };
    let subtract = Instruction::Compute {
        computation: Computation::Sub,
        target: r,
        left: at,
        right: r,
    };
    spelled(&[clear, subtract])
}

fn long_shift(shift: LongShift, r: Register, s: Register) -> Spelling
    ensures text { held result ≡ encoded (shift_once shift r) ∷ encoded (Instruction.ComputeImmediate Computation.Sub s 1) ∷ encoded (Instruction.BranchImmediate Condition.NotZero s 250) ∷ [] }
    ensures size { result.count ≤ 3 }
{
    let count_down = Instruction::ComputeImmediate {
        computation: Computation::Sub,
        register: s,
        immediate: 1,
    };
    let back = Instruction::BranchImmediate {
        condition: Condition::NotZero,
        tested: s,
        immediate: 250,
    };
    spelled(&[shift_once(shift, r), count_down, back])
}

/// The words of a row, given the value that it takes in.
pub fn spell(row: Row<'_>, value: u16) -> Spelling
    ensures text { held result ≡ words value (said_row row.entry) }
    ensures size { result.count ≤ 3 }
{
    let at = register(0);
    match row {
        Row::Registers(operation, a, b, c) => spelled_alone(operation.with_registers(
            register(a),
            register(b),
            register(c),
        )),
        Row::Immediate(operation, r, n) => {
            spelled_alone(operation.with_immediate(register(r), byte_of(n)))
        },
        Row::Negation(r) => negation(register(r)),
        Row::Constant(r, _) => {
            let (high, low) = ldi(register(r), value);
            spelled(&[high, low])
        }
        Row::LoadFrom(width, r, _) => through_at(
            value,
            Instruction::Load {
                width,
                target: register(r),
                address: at,
            },
        ),
        Row::StoreTo(width, r, _) => through_at(
            value,
            Instruction::Store {
                width,
                source: register(r),
                address: at,
            },
        ),
        Row::BranchTo(condition, r, _) => through_at(
            value,
            Instruction::Branch {
                condition,
                tested: register(r),
                target: at,
            },
        ),
        Row::LongShift(shift, r, s) => long_shift(shift, register(r), register(s)),
    }
}

/// How many words a row spells.
pub fn word_count(row: Row<'_>) -> usize
    ensures { result ≡ word_count (said_row row.entry) }
{
    match row {
        Row::Registers(..) | Row::Immediate(..) => 1,
        Row::Negation(_) | Row::Constant(..) => 2,
        Row::LoadFrom(..) | Row::StoreTo(..) | Row::BranchTo(..) | Row::LongShift(..) => 3,
    }
}

/// A row that has passed its questions spells as many words as are counted for it.
pub fn counts_stand()
    ensures { CountsStand }
{}
