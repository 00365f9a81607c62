//! How the names of a manifest are spelled: of cells and modules, and of what a module imports by a grant.
#![tactic(auto)]

ghost use Rattle.std.specs.Prelude.{◌≡◌, ◌||◌, nat_eq};
ghost use Rattle.std.specs.List.{list_all, list_any};
ghost use Rattle.caja_units.specs.Units.{same_units, is_hidden as is_hidden_word};
ghost use Rattle.es3_tree.specs.Token.{words};
ghost use Rattle.es3_tokens.specs.Characters as characters;
ghost use Rattle.es3_tokens.specs.Tokens as tokens;
ghost use Rattle.manifest_names.specs.Names as spec;

/// The reserved words (ES3 7.5.2, 7.5.3, 7.8.1, 7.8.2).
const WORDS: [&str; 59] = [
    "break",
    "case",
    "catch",
    "continue",
    "default",
    "delete",
    "do",
    "else",
    "finally",
    "for",
    "function",
    "if",
    "in",
    "instanceof",
    "new",
    "return",
    "switch",
    "this",
    "throw",
    "try",
    "typeof",
    "var",
    "void",
    "while",
    "with",
    "abstract",
    "boolean",
    "byte",
    "char",
    "class",
    "const",
    "debugger",
    "double",
    "enum",
    "export",
    "extends",
    "final",
    "float",
    "goto",
    "implements",
    "import",
    "int",
    "interface",
    "long",
    "native",
    "package",
    "private",
    "protected",
    "public",
    "short",
    "static",
    "super",
    "synchronized",
    "throws",
    "transient",
    "volatile",
    "null",
    "true",
    "false",
];

/// The names that no grant may have: those that every module has without declaring them, and two that ES3 gives a meaning.
const TAKEN_NAMES: [&str; 13] = [
    "undefined",
    "cajita",
    "Math",
    "Error",
    "TypeError",
    "RangeError",
    "Number",
    "String",
    "Boolean",
    "say",
    "later",
    "eval",
    "arguments",
];

/// The two underscores that end a hidden name.
const HIDDEN_END: [u8; 2] = [b'_'; 2];

/// The most letters and digits of the name of a cell or a module.
const LONGEST: usize = 32;

/// Whether the text is one of these.
pub fn is_one_of(text: &str, words: &[&str]) -> bool
    ensures { result ≡ list_any (λ word. same_units text.now word.now) words.now }
{
    words.iter().any(|word| text == *word)
}

fn is_small(byte: u8) -> bool
    ensures { result ≡ spec.is_small byte }
{
    b'a' <= byte && byte <= b'z'
}

fn is_digit(byte: u8) -> bool
    ensures { result ≡ characters.is_digit byte }
{
    b'0' <= byte && byte <= b'9'
}

fn is_letter(byte: u8) -> bool
    ensures { result ≡ characters.is_letter byte }
{
    is_small(byte) || (b'A' <= byte && byte <= b'Z') || byte == b'_' || byte == b'$'
}

fn are_small(bytes: &[u8]) -> bool
    ensures { result ≡ list_all (λ c. spec.is_small c || characters.is_digit c) bytes.now }
{
    bytes.iter().all(|byte| is_small(*byte) || is_digit(*byte))
}

fn are_parts(bytes: &[u8]) -> bool
    ensures { result ≡ list_all characters.is_part bytes.now }
{
    bytes.iter().all(|byte| is_letter(*byte) || is_digit(*byte))
}

/// Whether a cell or a module may have the name: a small letter, then up to 31 small letters and digits.
pub fn is_name(text: &str) -> bool
    ensures { result ≡ spec.is_name text.now }
{
    match text.as_bytes() {
        [first, rest @ ..] => is_small(*first) && rest.len() < LONGEST && are_small(rest),
        [] => false,
    }
}

/// Whether the text is a name of ES3 (7.6), or a reserved word.
fn is_identifier(text: &str) -> bool
    ensures { result ≡ tokens.is_name text.now }
{
    match text.as_bytes() {
        [first, rest @ ..] => is_letter(*first) && are_parts(rest),
        [] => false,
    }
}

fn is_reserved(text: &str) -> bool
    ensures { result ≡ tokens.is_one_of text.now words }
{
    is_one_of(text, &WORDS)
}

fn is_taken(text: &str) -> bool
    ensures { result ≡ tokens.is_one_of text.now spec.taken_names }
{
    is_one_of(text, &TAKEN_NAMES)
}

fn is_hidden(text: &str) -> bool
    ensures { result ≡ is_hidden_word text.now }
{
    text.as_bytes().ends_with(&HIDDEN_END)
}

fn begins_with_dollar(text: &str) -> bool
    ensures { result ≡ characters.begins (λ c. nat_eq c 36) text.now }
{
    match text.as_bytes() {
        [first, ..] => *first == b'$',
        [] => false,
    }
}

/// Whether a module may import a grant by the name: a name of ES3 that isn't reserved, hidden or taken, and doesn't begin with `$`.
pub fn is_grant_name(text: &str) -> bool
    ensures { result ≡ spec.is_grant_name text.now }
{
    if !is_identifier(text) || is_reserved(text) {
        return false;
    }
    if is_hidden(text) || begins_with_dollar(text) {
        return false;
    }
    !is_taken(text)
}
