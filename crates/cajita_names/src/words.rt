//! Words that mean something of their own.

ghost use Rattle.std.specs.Prelude.{◌≡◌, [], ◌∷◌, codes};
ghost use Rattle.std.specs.List.{list_any};
ghost use Rattle.caja_units.specs.Units.{same_units};
ghost use Rattle.cajita_names.specs.Rules.{fixed_names, is_among as is_among_them};
ghost use Rattle.cajita_names.specs.Scope.{is_arguments as is_arguments_word, is_eval as is_eval_word};

use caja_units::Units;

/// The names that every module has without declaring them.
const FIXED_NAMES: [&str; 11] = [
    "undefined",
    "cajita",
    "Math",
    "Error",
    "TypeError",
    "RangeError",
    "Number",
    "String",
    "Boolean",
    "say",
    "later",
];

// Whether the units of the text are these bytes.
fn spells(text: &Units, word: &str) -> bool
    ensures { result ≡ same_units text.now word.now }
{
    let word = word.as_bytes();
    if text.len() != word.len() {
        return false;
    }
    for (i, byte) in word.iter().enumerate() {
        if text.at(i) != Some(u16::from(*byte)) {
            return false;
        }
    }
    true
}

// Whether the text is one of these words.
fn is_word_of(words: &[&str], text: &Units) -> bool
    ensures { result ≡ list_any (λ word. same_units text.now word.now) words.now }
{
    words.iter().any(|word| spells(text, word))
}

/// Whether the text is one of these.
pub(crate) fn is_among(texts: &[Units], text: &Units) -> bool
    ensures { result ≡ is_among_them texts.now text.now }
{
    texts.iter().any(|other| text.same(other))
}

/// Whether the text is `arguments` (ES3 10.1.8).
pub fn is_arguments(text: &Units) -> bool
    ensures { result ≡ is_arguments_word text.now }
{
    spells(text, "arguments")
}

/// Whether the text is `eval` (ES3 15.1.2.1).
pub fn is_eval(text: &Units) -> bool
    ensures { result ≡ is_eval_word text.now }
{
    spells(text, "eval")
}

/// Whether the text is a key that no record may have.
pub fn is_reserved_key(key: &Units) -> bool
    ensures { result ≡ is_among_them (codes "toString" ∷ codes "valueOf" ∷ []) key.now }
{
    spells(key, "toString") || spells(key, "valueOf")
}

/// Whether every module has the name without declaring it.
pub(crate) fn is_fixed_name(name: &Units) -> bool
    ensures { result ≡ is_among_them fixed_names name.now }
{
    is_word_of(&FIXED_NAMES, name)
}
