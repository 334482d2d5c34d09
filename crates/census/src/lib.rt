// How many words are valid. A crate of its own, since the count is proved by looking at every word.
#![tactic(auto)]

ghost use Rattle.std.specs.Prelude.{◌≡◌};
ghost use Rattle.census.specs.Count.{valid_words};

/// How many of the 65,536 words are valid.
pub fn valid_words() -> u16
    ensures { result ≡ valid_words }
{
    26_625
}
