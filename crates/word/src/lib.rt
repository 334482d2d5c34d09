// The word rules of the Viking processor: which words are valid, what each says, and its arithmetic.
#![tactic(auto)]

pub mod arithmetic;
mod codec;
mod instructions;
mod registers;
mod table;

pub use codec::{codec_stands, decode, encode};
pub use instructions::{Computation, Condition, Fields, Instruction, Operation, Shift, Width};
pub use registers::Register;
pub use table::{Extension, Mnemonic, Shape, mnemonics, table_stands};

#[cfg(test)]
mod tests {
    use super::*;

    fn r(number: u16) -> Register {
        Register::of_bits(number)
    }

    #[test]
    fn words_of_instructions(rt: HostRuntime) {
        let add = Instruction::Compute {
            computation: Computation::Add,
            target: r(3),
            left: r(1),
            right: r(2),
        };
        assert_eq!(rt; encode(add), 0x5328);
        let xor = Instruction::ComputeImmediate {
            computation: Computation::Xor,
            register: r(5),
            immediate: 0xFF,
        };
        assert_eq!(rt; encode(xor), 0x2DFF);
        let bez = Instruction::BranchImmediate {
            condition: Condition::Zero,
            tested: r(4),
            immediate: 28,
        };
        assert_eq!(rt; encode(bez), 0xAC1C);
        assert_eq!(rt; encode(Instruction::Halt), 0x0003);
    }

    #[test]
    fn words_that_are_not_valid(rt: HostRuntime) {
        assert!(rt; decode(0x0007).is_none());
        assert!(rt; decode(0x7800).is_none());
        assert!(rt; decode(0x0003).is_some());
    }

    #[test]
    fn signed_and_unsigned(rt: HostRuntime) {
        assert_eq!(rt; arithmetic::slt(0x8000, 0x7FFF), 1);
        assert_eq!(rt; arithmetic::sltu(0x8000, 0x7FFF), 0);
        assert_eq!(rt; arithmetic::ldc(arithmetic::ldc(7, 0x86), 0x9F), 0x869F);
        assert_eq!(rt; arithmetic::asr(0x8001), 0xC000);
        assert_eq!(rt; arithmetic::branch_target(0xFFFE, 0xFFFA), 0xFFFA);
    }
}
