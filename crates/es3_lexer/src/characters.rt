//! The classes of characters (ES3 7.2, 7.3, 7.6, 7.8).

ghost use Rattle.std.specs.Prelude.{◌≡◌, ◌<◌, true, nat_eq};
ghost use Rattle.std.specs.Char.{digit_value};
ghost use Rattle.es3_tokens.specs.Characters as class;

/// White space (ES3 7.2).
pub fn is_white(c: char) -> bool
    ensures { result ≡ class.is_white c }
{
    matches!(c, '\u{9}' | '\u{B}' | '\u{C}' | ' ' | '\u{A0}')
}

/// A line terminator (ES3 7.3).
pub fn is_line(c: char) -> bool
    ensures { result ≡ class.is_line c }
{
    matches!(c, '\n' | '\r' | '\u{2028}' | '\u{2029}')
}

/// What begins a name (ES3 7.6).
pub fn is_letter(c: char) -> bool
    ensures { result ≡ class.is_letter c }
{
    matches!(c, 'a'..='z' | 'A'..='Z' | '_' | '$')
}

/// A decimal digit (ES3 7.8.3).
pub fn is_digit(c: char) -> bool
    ensures { result ≡ class.is_digit c }
{
    c.is_ascii_digit()
}

/// A hexadecimal digit (ES3 7.8.3).
pub fn is_hex(c: char) -> bool
    ensures { result ≡ class.is_hex c }
{
    matches!(c, '0'..='9' | 'a'..='f' | 'A'..='F')
}

/// What a name goes on with (ES3 7.6).
pub fn is_part(c: char) -> bool
    ensures { result ≡ class.is_part c }
{
    is_letter(c) || is_digit(c)
}

/// What a text stands in (ES3 7.8.4).
pub fn is_quote(c: char) -> bool
    ensures { result ≡ class.is_quote c }
{
    c == '"' || c == '\''
}

/// Whether the characters begin with this one.
pub fn begins_with(s: &[char], c: char) -> bool
    ensures { result ≡ class.begins (λ d. nat_eq d c) s.now }
{
    match s {
        [first, ..] => *first == c,
        [] => false,
    }
}

/// Whether the characters begin with a decimal digit.
pub fn begins_with_digit(s: &[char]) -> bool
    ensures { result ≡ class.begins class.is_digit s.now }
{
    match s {
        [first, ..] => is_digit(*first),
        [] => false,
    }
}

/// What a hexadecimal digit stands for.
pub fn digit(c: char) -> u64
    requires { class.is_hex c ≡ true }
    ensures value { result ≡ digit_value c }
    ensures small { result < 16 }
{
    c.to_digit(16).map_or(0, u64::from)
}
