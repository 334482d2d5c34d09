// Lines: what each says, and the questions that a line answers by itself.
ghost use Rattle.std.specs.Prelude.{◌≡◌, ◌≤◌, length, IfOk};
ghost use Rattle.std.specs.List.{list_all};
ghost use Rattle.syntax.specs.Numbers.{held_number};
ghost use Rattle.syntax.specs.Bounds.{Short};
ghost use Rattle.syntax.specs.Rows.{mapped_ok};
ghost use Rattle.syntax.specs.Statements.{is_plain, is_clean, number_of, label_in, instruction_by, beginning, kind_by, line_by, said, statement_by, statement_in, line_of, statement_of};
ghost use Rattle.syntax.specs.declared.statements.LineFault.TheVariants.{BadInstruction};

use crate::cuts::{Separator, cut};
use crate::instructions::Instruction;
use crate::mnemonics::read_mnemonic;
use crate::names::is_name;
use crate::operands::read_operands;
use crate::rows::{InstructionFault, Row};

/// What a line begins with.
// Stays: an enum that is matched once, since the definition names the four beginnings by it.
#[derive(Clone, Copy, PartialEq, Eq, Debug)]
pub enum Beginning {
    Semicolon,
    Tab,
    Space,
    Other,
}

/// A line taken apart.
#[derive(Clone, Copy)]
pub enum Line<'a> {
    Empty,
    Comment,
    /// A name, and what stands behind its separator where there is one.
    Label(&'a [u8], Option<&'a [u8]>),
    Instruction(Instruction<'a>),
}

/// What a line says.
// Stays: each case is a thing that a line may say, as in `Line`; `Empty` is no lack of an answer.
#[derive(Clone, Copy)]
pub enum Statement<'a> {
    Empty,
    Label(&'a [u8], Option<&'a [u8]>),
    Code(Row<'a>),
}

/// Why a line was refused by itself.
#[derive(Clone, Copy, PartialEq, Eq, Debug)]
pub enum LineFault {
    BadCharacters,
    Indented,
    BadLabel,
    BadInstruction(InstructionFault),
}

impl From<InstructionFault> for LineFault {
    ghost from_gives = { λ e r. r ≡ BadInstruction e };

    fn from(fault: InstructionFault) -> LineFault {
        LineFault::BadInstruction(fault)
    }
}

impl LineFault {
    /// The number by which it is known.
    pub fn number(self) -> u8
        ensures { result ≡ number_of self }
    {
        // Stays: one case holds an instruction's fault, and an enum with a field has no number to cast.
        match self {
            LineFault::BadCharacters => 3,
            LineFault::Indented => 4,
            LineFault::BadLabel => 5,
            LineFault::BadInstruction(fault) => fault.number(),
        }
    }
}

fn is_plain(c: char) -> bool
    ensures { result ≡ is_plain c }
{
    matches!(c, '\t' | ' '..='~')
}

// Stays: a line beside `all_go_on` of the names; a function over both tests would be that line again.
fn all_plain(line: &[u8]) -> bool
    ensures { result ≡ list_all is_plain line.now }
{
    line.iter().all(|b| is_plain(char::from(*b)))
}

fn is_clean(line: &[u8]) -> bool
    ensures { result ≡ is_clean line.now }
{
    line.len() <= 120 && all_plain(line)
}

fn read_label(line: &[u8]) -> Result<Line<'_>, LineFault>
    ensures { mapped_ok line_of result ≡ label_in line.now }
{
    let (name, rest) = cut(line, Separator::Blank);
    if is_name(name) {
        Ok(Line::Label(name, rest))
    } else {
        Err(LineFault::BadLabel)
    }
}

fn read_instruction(text: &[u8]) -> Result<Line<'_>, LineFault>
    ensures { mapped_ok line_of result ≡ instruction_by held_number text.now }
{
    let (word, rest) = cut(text, Separator::Blank);
    let mnemonic = read_mnemonic(word).ok_or(InstructionFault::UnknownMnemonic)?;
    let operands = read_operands(rest).ok_or(InstructionFault::NoSuchRow)?;
    Ok(Line::Instruction(Instruction { mnemonic, operands }))
}

fn beginning_of(c: char) -> Beginning
    ensures { result ≡ beginning c }
{
    match c {
        ';' => Beginning::Semicolon,
        '\t' => Beginning::Tab,
        ' ' => Beginning::Space,
        _ => Beginning::Other,
    }
}

fn read_kind(line: &[u8]) -> Result<Line<'_>, LineFault>
    ensures { mapped_ok line_of result ≡ kind_by held_number line.now }
{
    let Some((first, rest)) = line.split_first() else {
        return Ok(Line::Empty);
    };
    match beginning_of(char::from(*first)) {
        Beginning::Semicolon => Ok(Line::Comment),
        Beginning::Tab => read_instruction(rest),
        Beginning::Space => Err(LineFault::Indented),
        Beginning::Other => read_label(line),
    }
}

/// A line taken apart, with numbers held no further than the bound.
pub fn read_line(line: &[u8]) -> Result<Line<'_>, LineFault>
    ensures { mapped_ok line_of result ≡ line_by held_number line.now }
{
    if !is_clean(line) {
        return Err(LineFault::BadCharacters);
    }
    read_kind(line)
}

fn say(line: Line<'_>) -> Result<Statement<'_>, LineFault>
    ensures { mapped_ok statement_of result ≡ said (line_of line.entry) }
{
    match line {
        Line::Empty | Line::Comment => Ok(Statement::Empty),
        Line::Label(name, rest) => Ok(Statement::Label(name, rest)),
        Line::Instruction(instruction) => Ok(Statement::Code(instruction.row()?)),
    }
}

/// What a line says, or the first of its own questions that it fails.
pub fn read_statement(line: &[u8]) -> Result<Statement<'_>, LineFault>
    ensures value { mapped_ok statement_of result ≡ statement_in line.now }
    ensures size { IfOk result (λ s. (length line.now ≤ 120) × Short (length line.now) (statement_of s)) }
{
    say(read_line(line)?)
}
