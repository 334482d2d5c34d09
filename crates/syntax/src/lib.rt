// What the lines of a text say, one by one.
#![tactic(auto)]

mod cuts;
mod data;
mod instructions;
mod mnemonics;
mod names;
mod numbers;
mod operands;
mod rows;
mod statements;

pub use cuts::{Separator, cut};
pub use data::{Data, read_data};
pub use instructions::Instruction;
pub use mnemonics::{Mnemonic, Pseudo, read_mnemonic};
pub use names::{is_name, read_register};
pub use numbers::read_number;
pub use operands::{Operand, Operands, read_operands};
pub use rows::{InstructionFault, LongShift, Row, Value, row_of};
pub use statements::{Line, LineFault, Statement, read_line, read_statement};
