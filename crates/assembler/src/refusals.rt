// The numbers of refusals.
ghost use Rattle.std.specs.Prelude.{◌≡◌};
ghost use Rattle.assembler.specs.Placing.{number_of};
ghost use Rattle.assembler.specs.declared.records.Refusal.TheVariants.{InLine};

use crate::records::Refusal;
use syntax::LineFault;

impl From<LineFault> for Refusal {
    ghost from_gives = { λ e r. r ≡ InLine e };

    fn from(fault: LineFault) -> Refusal {
        Self::InLine(fault)
    }
}

impl Refusal {
    /// The number by which it is known.
    // Stays: a match and no discriminants, since one case holds a line's own refusal with its number.
    pub fn number(self) -> u8
        ensures { result ≡ number_of self }
    {
        match self {
            Refusal::TextTooLong => 1,
            Refusal::TooManyLines => 2,
            Refusal::InLine(fault) => fault.number(),
            Refusal::LabelTwice => 6,
            Refusal::NoLabelRecord => 7,
            Refusal::BadData => 8,
            Refusal::NoLineRecord => 13,
            Refusal::NameUndefined => 14,
            Refusal::ImageTooLong => 15,
        }
    }
}
