// The lines of a text, one after the other.
ghost use Rattle.std.specs.Prelude.{◌≡◌, ◌+◌, ◌<◌, ◌≤◌, [], ◌∷◌, length, unwrap_or};
ghost use Rattle.std.specs.Iterator.{YieldsFirstRef, item_count};
ghost use Rattle.syntax.specs.declared.cuts.Separator.TheVariants.{LineFeed};
ghost use Rattle.syntax.specs.Cuts.{lines, before, behind};

use syntax::{Separator, cut};

/// The first line of a text that is not empty, and what stands behind it.
pub fn next_line(text: &[u8]) -> (&[u8], &[u8])
    ensures line { result.0.now ≡ before LineFeed text.now }
    ensures rest { result.1.now ≡ unwrap_or (behind LineFeed text.now) [] }
    ensures first { 0 < length text.now → lines text.now ≡ result.0.now ∷ lines result.1.now }
    ensures shorter { 0 < length text.now → length result.1.now < length text.now }
    ensures parts { length result.0.now + length result.1.now ≤ length text.now }
    ensures parted { 0 < length result.1.now → length result.0.now + (length result.1.now + 1) ≤ length text.now }
{
    let (line, behind) = cut(text, Separator::LineFeed);
    (line, behind.unwrap_or_default())
}

// The lines of what is left of a text, first to last.
#[derive(Drop)]
pub(crate) struct Lines<'a> {
    rest: &'a [u8],
}

impl<'a> Iterator for Lines<'a> {
    type Item = &'a [u8];

    ghost next_gives = { YieldsFirstRef (λ s. lines s.rest.now) };

    ghost remaining = { item_count (λ s. lines s.rest.now) };

    fn next(&mut self) -> Option<&'a [u8]> {
        if self.rest.is_empty() {
            return None;
        }
        let (line, rest) = next_line(self.rest);
        self.rest = rest;
        Some(line)
    }
}

impl<'a> Lines<'a> {
    pub(crate) fn of(text: &'a [u8]) -> Lines<'a>
        ensures { result.rest.now ≡ text.now }
    {
        Lines { rest: text }
    }
}

/// How many lines a text has.
pub fn count_lines(text: &[u8]) -> usize
    ensures { result ≡ length (lines text.now) }
{
    Lines::of(text).count()
}
