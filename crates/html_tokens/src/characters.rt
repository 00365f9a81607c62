//! The classes of characters.

ghost use Rattle.std.specs.Prelude.{◌≡◌, ◌≤◌, length};
ghost use Rattle.std.specs.List.{prefix_len};
ghost use Rattle.html_grammar.specs.Characters as class;

/// White space.
pub fn is_space(c: char) -> bool
    ensures { result ≡ class.is_space c }
{
    matches!(c, '\t' | '\n' | '\u{C}' | '\r' | ' ')
}

/// A letter of ASCII.
pub fn is_letter(c: char) -> bool
    ensures { result ≡ class.is_letter c }
{
    matches!(c, 'a'..='z' | 'A'..='Z')
}

/// A decimal digit.
pub fn is_digit(c: char) -> bool
    ensures { result ≡ class.is_digit c }
{
    matches!(c, '0'..='9')
}

/// A hexadecimal digit.
pub fn is_hex(c: char) -> bool
    ensures { result ≡ class.is_hex c }
{
    matches!(c, '0'..='9' | 'a'..='f' | 'A'..='F')
}

/// What a name goes on with.
pub fn is_word(c: char) -> bool
    ensures { result ≡ class.is_word c }
{
    is_letter(c) || is_digit(c)
}

/// What the name of an attribute is made of.
pub fn is_attr(c: char) -> bool
    ensures { result ≡ class.is_attr c }
{
    is_word(c) || c == '-' || c == '_' || c == ':'
}

/// A letter as a small one, and any other character as it is.
pub fn lower(c: char) -> char
    ensures { result ≡ class.lower c }
{
    c.to_ascii_lowercase()
}

/// Whether the characters begin with this one.
pub fn begins_with(s: &[char], c: char) -> bool
    ensures { result ≡ class.begins (class.is c) s.now }
{
    match s {
        [first, ..] => *first == c,
        [] => false,
    }
}

/// How many characters at the front are parts of a name.
pub fn word_len(s: &[char]) -> usize
    ensures is { result ≡ prefix_len class.is_word s.now }
    ensures within { result ≤ length s.now }
{
    s.iter().take_while(|c| is_word(**c)).count()
}

/// How many characters at the front are decimal digits.
pub fn digit_len(s: &[char]) -> usize
    ensures is { result ≡ prefix_len class.is_digit s.now }
    ensures within { result ≤ length s.now }
{
    s.iter().take_while(|c| is_digit(**c)).count()
}

/// How many characters at the front are hexadecimal digits.
pub fn hex_len(s: &[char]) -> usize
    ensures is { result ≡ prefix_len class.is_hex s.now }
    ensures within { result ≤ length s.now }
{
    s.iter().take_while(|c| is_hex(**c)).count()
}

/// Whether what follows a `<` makes it markup.
fn begins_mark(s: &[char]) -> bool
    ensures { result ≡ class.begins class.is_mark s.now }
{
    match s {
        [c, ..] => is_letter(*c) || *c == '/' || *c == '!',
        [] => false,
    }
}

/// Whether markup begins here: a `<` and a letter, `/` or `!`.
pub fn begins_markup(s: &[char]) -> bool
    ensures { result ≡ class.begins_markup s.now }
{
    match s {
        [c, rest @ ..] => *c == '<' && begins_mark(rest),
        [] => false,
    }
}

/// Whether white space or a `>` stands here.
pub fn ends_bare(s: &[char]) -> bool
    ensures { result ≡ class.begins class.is_bare_end s.now }
{
    match s {
        [c, ..] => is_space(*c) || *c == '>',
        [] => false,
    }
}
