// What words work out of values, one function for each.
ghost use Rattle.std.specs.Prelude.{◌≡◌};
ghost use Rattle.word.specs.Arithmetic.{zero_extend, sign_extend, extend, and, or, xor, slt, sltu, add, sub, compute, ldr, ldc, lsr, asr, shift_right, low_byte, is_taken, next_address, branch_target};

use crate::instructions::{Computation, Condition, Shift};
use crate::table::Extension;

/// A byte with zeros above it.
pub fn zero_extend(byte: u8) -> u16
    ensures { result ≡ zero_extend byte }
{
    u16::from(byte)
}

/// A byte with its bit 7 repeated above it.
pub fn sign_extend(byte: u8) -> u16
    ensures { result ≡ sign_extend byte }
{
    i16::from(byte.cast_signed()).cast_unsigned()
}

/// The value of an immediate; 0 where there is none.
pub fn extend(extension: Option<Extension>, byte: u8) -> u16
    ensures { result ≡ extend extension byte }
{
    match extension {
        None => 0,
        Some(Extension::ZeroExtended) => zero_extend(byte),
        Some(Extension::SignExtended) => sign_extend(byte),
    }
}

pub fn and(a: u16, b: u16) -> u16
    ensures { result ≡ and a b }
{
    a & b
}

pub fn or(a: u16, b: u16) -> u16
    ensures { result ≡ or a b }
{
    a | b
}

pub fn xor(a: u16, b: u16) -> u16
    ensures { result ≡ xor a b }
{
    a ^ b
}

/// 1 where a is below b as signed numbers, else 0.
pub fn slt(a: u16, b: u16) -> u16
    ensures { result ≡ slt a b }
{
    u16::from(a.cast_signed() < b.cast_signed())
}

/// 1 where a is below b as unsigned numbers, else 0.
pub fn sltu(a: u16, b: u16) -> u16
    ensures { result ≡ sltu a b }
{
    u16::from(a < b)
}

pub fn add(a: u16, b: u16) -> u16
    ensures { result ≡ add a b }
{
    a.wrapping_add(b)
}

pub fn sub(a: u16, b: u16) -> u16
    ensures { result ≡ sub a b }
{
    a.wrapping_sub(b)
}

/// The value that a computing word works out of a and b.
pub fn compute(computation: Computation, a: u16, b: u16) -> u16
    ensures { result ≡ compute computation a b }
{
    match computation {
        Computation::And => and(a, b),
        Computation::Or => or(a, b),
        Computation::Xor => xor(a, b),
        Computation::Slt => slt(a, b),
        Computation::Sltu => sltu(a, b),
        Computation::Add => add(a, b),
        Computation::Sub => sub(a, b),
    }
}

/// What ldr puts into its register: its extended immediate.
pub fn ldr(immediate: u16) -> u16
    ensures { result ≡ ldr immediate }
{
    immediate
}

/// What ldc puts into its register: a moved up a byte, with b added below it.
pub fn ldc(a: u16, b: u16) -> u16
    ensures { result ≡ ldc a b }
{
    a.wrapping_mul(256).wrapping_add(b)
}

/// Half of a; a zero comes in at bit 15.
pub fn lsr(a: u16) -> u16
    ensures { result ≡ lsr a }
{
    a >> 1
}

/// Half of a, with bit 15 kept.
pub fn asr(a: u16) -> u16
    ensures { result ≡ asr a }
{
    (a.cast_signed() >> 1).cast_unsigned()
}

pub fn shift_right(shift: Shift, a: u16) -> u16
    ensures { result ≡ shift_right shift a }
{
    match shift {
        Shift::Lsr => lsr(a),
        Shift::Asr => asr(a),
    }
}

/// What stb stores of a value.
pub fn low_byte(a: u16) -> u8
    ensures { result ≡ low_byte a }
{
    (a % 256) as u8
}

/// Whether a branch goes, by the value that it tests.
pub fn is_taken(condition: Condition, a: u16) -> bool
    ensures { result ≡ is_taken condition a }
{
    match condition {
        Condition::Zero => a == 0,
        Condition::NotZero => a != 0,
    }
}

/// The address of the word behind the one at `address`.
pub fn next_address(address: u16) -> u16
    ensures { result ≡ next_address address }
{
    address.wrapping_add(2)
}

/// Where a branch at `address` goes by the distance b: it counts from the word behind it.
pub fn branch_target(address: u16, b: u16) -> u16
    ensures { result ≡ branch_target address b }
{
    next_address(address).wrapping_add(b)
}
