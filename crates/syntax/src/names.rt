// Registers and names.
ghost use Rattle.std.specs.Prelude.{◌≡◌, ◌<◌, IfSome};
ghost use Rattle.std.specs.List.{list_all};
ghost use Rattle.syntax.specs.Names.{register_number, register_in, begins, goes_on, has_name_form, is_name};

use word::Register;

fn register_number(first: char, second: char) -> Option<u32>
    ensures number { result ≡ register_number first second }
    ensures small { IfSome result (λ n. n < 8) }
{
    match (first, second) {
        ('r', _) => second.to_digit(8),
        ('a', 't') => Some(0),
        ('s', 'r') => Some(5),
        ('l', 'r') => Some(6),
        ('s', 'p') => Some(7),
        _ => None,
    }
}

/// The register that these bytes name.
pub fn read_register(text: &[u8]) -> Option<Register>
    ensures { result ≡ register_in text.now }
{
    let [first, second] = text else {
        return None;
    };
    let number = register_number(char::from(*first), char::from(*second))?;
    Some(Register::of_bits(number as u16))
}

fn may_begin(c: char) -> bool
    ensures { result ≡ begins c }
{
    matches!(c, 'a'..='z' | 'A'..='Z' | '_')
}

fn may_go_on(c: char) -> bool
    ensures { result ≡ goes_on c }
{
    may_begin(c) || c.is_ascii_digit()
}

fn all_go_on(text: &[u8]) -> bool
    ensures { result ≡ list_all goes_on text.now }
{
    text.iter().all(|b| may_go_on(char::from(*b)))
}

fn has_name_form(text: &[u8]) -> bool
    ensures { result ≡ has_name_form text.now }
{
    text.split_first().is_some_and(|(first, rest)| {
        may_begin(char::from(*first)) && all_go_on(rest) && rest.len() <= 31
    })
}

/// Whether these bytes are a name.
pub fn is_name(text: &[u8]) -> bool
    ensures { result ≡ is_name text.now }
{
    has_name_form(text) && read_register(text).is_none()
}
