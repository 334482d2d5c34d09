// Bytes cut at a separator.
ghost use Rattle.std.specs.Prelude.{◌≡◌, ◌<◌, ◌∷◌, length, IfSome};
ghost use Rattle.std.specs.List.{position};
ghost use Rattle.std.specs.Option.{option_map};
ghost use Rattle.syntax.specs.Characters.{parts};
ghost use Rattle.syntax.specs.Cuts.{before, behind, pieces, pieces_of};

/// What parts the pieces of a text.
#[derive(Clone, Copy, PartialEq, Eq, Debug)]
pub enum Separator {
    /// Ends a line.
    LineFeed,
    /// A space or a tab: ends a line's first word.
    Blank,
    /// Parts the numbers of data.
    Space,
    /// Parts operands.
    Comma,
    /// Ends a string.
    Quote,
}

impl Separator {
    pub(crate) fn parts(self, byte: u8) -> bool
        ensures { result ≡ parts self byte }
    {
        matches!(
            (self, char::from(byte)),
            (Separator::LineFeed, '\n')
                | (Separator::Blank, ' ' | '\t')
                | (Separator::Space, ' ')
                | (Separator::Comma, ',')
                | (Separator::Quote, '"')
        )
    }
}

fn first_place(text: &[u8], separator: Separator) -> Option<usize>
    ensures { result ≡ position (parts separator) text.now }
{
    text.iter().position(|b| separator.parts(*b))
}

/// What stands before the first separator, and what stands behind it where there is one.
pub fn cut(text: &[u8], separator: Separator) -> (&[u8], Option<&[u8]>)
    ensures before { result.0.now ≡ before separator text.now }
    ensures behind { option_map (λ x. x.now) result.1 ≡ behind separator text.now }
    ensures pieces { pieces separator text.now ≡ result.0.now ∷ pieces_of separator (option_map (λ x. x.now) result.1) }
    ensures shorter { IfSome result.1 (λ b. length b.now < length text.now) }
{
    match first_place(text, separator) {
        Some(i) => (&text[..i], Some(&text[i + 1..])),
        None => (text, None),
    }
}
