// What a valid word says, as types: what cannot be written here has no word.
use crate::registers::Register;

/// What a computing word works out of its values A and B.
#[derive(Clone, Copy, PartialEq, Eq, Debug)]
pub enum Computation {
    And,
    Or,
    Xor,
    /// 1 where A is below B as signed numbers, else 0.
    Slt,
    /// 1 where A is below B as unsigned numbers, else 0.
    Sltu,
    Add,
    Sub,
}

/// A shift right by one place.
#[derive(Clone, Copy, PartialEq, Eq, Debug)]
pub enum Shift {
    /// A zero comes in at bit 15.
    Lsr,
    /// Bit 15 stays as it is.
    Asr,
}

/// How much a load or a store moves.
#[derive(Clone, Copy, PartialEq, Eq, Debug)]
pub enum Width {
    Byte,
    Word,
}

/// When a branch is taken.
#[derive(Clone, Copy, PartialEq, Eq, Debug)]
pub enum Condition {
    Zero,
    NotZero,
}

/// What a mnemonic stands for.
#[derive(Clone, Copy, PartialEq, Eq, Debug)]
pub enum Operation {
    Computes(Computation),
    Shifts(Shift),
    Loads(Width),
    Stores(Width),
    Branches(Condition),
    /// ldr: the immediate, sign-extended.
    LoadsRegister,
    /// ldc: the register moved up a byte, with the immediate below it.
    LoadsConstant,
    /// hcf.
    Halts,
}

/// The instruction of a valid word. An immediate is the word's low byte as it stands there.
#[derive(Clone, Copy, PartialEq, Eq, Debug)]
pub enum Instruction {
    Compute {
        computation: Computation,
        target: Register,
        left: Register,
        right: Register,
    },
    ComputeImmediate {
        computation: Computation,
        register: Register,
        immediate: u8,
    },
    Shift {
        shift: Shift,
        target: Register,
        source: Register,
    },
    Load {
        width: Width,
        target: Register,
        address: Register,
    },
    Store {
        width: Width,
        source: Register,
        address: Register,
    },
    Branch {
        condition: Condition,
        tested: Register,
        target: Register,
    },
    BranchImmediate {
        condition: Condition,
        tested: Register,
        immediate: u8,
    },
    LoadRegister {
        register: Register,
        immediate: u8,
    },
    LoadConstant {
        register: Register,
        immediate: u8,
    },
    Halt,
}

/// An instruction's operands in the order of the word's fields.
#[derive(Clone, Copy, PartialEq, Eq, Debug)]
pub enum Fields {
    /// Imm is 0: Rst, RsA and RsB.
    Registers {
        operation: Operation,
        rst: Register,
        rsa: Register,
        rsb: Register,
    },
    /// Imm is 1: Rst and the low byte.
    Immediate {
        operation: Operation,
        rst: Register,
        immediate: u8,
    },
}
