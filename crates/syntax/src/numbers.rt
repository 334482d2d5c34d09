// Numbers.
ghost use Rattle.std.specs.Prelude.{◌≡◌, ◌≤◌};
ghost use Rattle.syntax.specs.Numbers.{digits_after, digits, after_zero, magnitude, capped, held_number};

/// How far numbers are told apart: beyond every range that a line may ask for.
const BOUND: u64 = 100_000_000_000;

fn digits_after(base: u32, text: &[u8]) -> Option<u64>
    requires { (2 ≤ base) × (base ≤ 16) }
    ensures { result ≡ capped (digits_after base 0 text.now) }
{
    let mut n = 0;
    for b in text {
        let d = char::from(*b).to_digit(base)?;
        n = (n * u64::from(base) + u64::from(d)).min(BOUND);
    }
    Some(n)
}

fn some_digits(base: u32, text: &[u8]) -> Option<u64>
    requires { (2 ≤ base) × (base ≤ 16) }
    ensures { result ≡ capped (digits base text.now) }
{
    if text.is_empty() {
        return None;
    }
    digits_after(base, text)
}

fn after_zero(text: &[u8]) -> Option<u64>
    ensures { result ≡ capped (after_zero text.now) }
{
    let Some((letter, rest)) = text.split_first() else {
        return Some(0);
    };
    match char::from(*letter) {
        'x' | 'X' => some_digits(16, rest),
        'o' | 'O' => some_digits(8, rest),
        'b' | 'B' => some_digits(2, rest),
        _ => None,
    }
}

fn read_magnitude(text: &[u8]) -> Option<u64>
    ensures { result ≡ capped (magnitude text.now) }
{
    let (first, rest) = text.split_first()?;
    match char::from(*first) {
        '0' => after_zero(rest),
        _ => some_digits(10, text),
    }
}

/// The number that these bytes write, or `None` where they write none. A number beyond the bound is answered as the
/// bound.
pub fn read_number(text: &[u8]) -> Option<i64>
    ensures { result ≡ held_number text.now }
{
    let (first, rest) = text.split_first()?;
    match char::from(*first) {
        '-' => Some(-(read_magnitude(rest)? as i64)),
        _ => Some(read_magnitude(text)? as i64),
    }
}
