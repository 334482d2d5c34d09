// What the assembler writes into the lent tables, and why it refuses.
use syntax::LineFault;

/// Where a label's name stands in the text, and its address.
#[derive(Clone, Copy, PartialEq, Eq, Debug)]
pub struct LabelRecord {
    /// The offset of the name's first byte, from 0.
    pub place: u16,
    pub length: u8,
    pub address: u16,
}

#[derive(Clone, Copy, PartialEq, Eq, Debug)]
pub enum LineKind {
    Instruction,
    Data,
}

/// A line that has words: its number from 1, its address, how many words it spells, and what they are.
#[derive(Clone, Copy, PartialEq, Eq, Debug)]
pub struct LineRecord {
    pub line: u16,
    pub address: u16,
    pub words: u16,
    pub kind: LineKind,
}

/// Why a text is refused.
#[derive(Clone, Copy, PartialEq, Eq, Debug)]
pub enum Refusal {
    TextTooLong,
    TooManyLines,
    InLine(LineFault),
    LabelTwice,
    NoLabelRecord,
    BadData,
    NoLineRecord,
    NameUndefined,
    ImageTooLong,
}

/// How far placing has come: the next line's number, the bytes read, the next address.
#[derive(Clone, Copy, PartialEq, Eq, Debug)]
pub struct Position {
    pub line: u16,
    pub place: u16,
    pub address: u16,
}

/// The line at which placing stopped stands here, and is refused.
#[derive(Clone, Copy, PartialEq, Eq, Debug)]
pub struct Stop {
    pub at: Position,
    pub refusal: Refusal,
}
