// Mnemonics: those of words stand in the table of `word`, those that are short for words stand here.
ghost use Rattle.std.specs.Prelude.{◌≡◌, map};
ghost use Rattle.syntax.specs.Mnemonics.{entries, entry_in, is_text, first, pseudo_named, mnemonic_in};

use word::Operation;

/// A mnemonic that is short for words.
#[derive(Clone, Copy, PartialEq, Eq, Debug)]
pub enum Pseudo {
    Nop,
    Lsl,
    Not,
    Neg,
    Ldi,
    /// Many places right, zeros coming in.
    Lsrm,
    /// Many places right, the sign kept.
    Asrm,
    /// Many places left.
    Lslm,
}

#[derive(Clone, Copy, PartialEq, Eq, Debug)]
pub enum Mnemonic {
    OfWord(Operation),
    OfPseudo(Pseudo),
}

#[derive(Clone, Copy)]
pub struct PseudoName {
    text: &'static str,
    pseudo: Pseudo,
}

// One row a line, so that it reads as a table.
#[rattlefmt::skip]
const PSEUDOS: [PseudoName; 8] = [
    PseudoName { text: "nop", pseudo: Pseudo::Nop },
    PseudoName { text: "lsl", pseudo: Pseudo::Lsl },
    PseudoName { text: "not", pseudo: Pseudo::Not },
    PseudoName { text: "neg", pseudo: Pseudo::Neg },
    PseudoName { text: "ldi", pseudo: Pseudo::Ldi },
    PseudoName { text: "lsrm", pseudo: Pseudo::Lsrm },
    PseudoName { text: "asrm", pseudo: Pseudo::Asrm },
    PseudoName { text: "lslm", pseudo: Pseudo::Lslm },
];

fn pseudo_named(text: &[u8]) -> Option<Pseudo>
    ensures { result ≡ pseudo_named text.now }
{
    PSEUDOS
        .iter()
        .find(|p| p.text.as_bytes() == text)
        .map(|p| p.pseudo)
}

/// The mnemonic with this text.
pub fn read_mnemonic(text: &[u8]) -> Option<Mnemonic>
    ensures { result ≡ mnemonic_in text.now }
{
    Operation::named(text)
        .map(Mnemonic::OfWord)
        .or_else(|| pseudo_named(text).map(Mnemonic::OfPseudo))
}
