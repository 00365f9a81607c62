//! What the value of an attribute is made of.

ghost use Rattle.std.specs.Prelude.{◌≡◌, true};
ghost use Rattle.std.specs.List.{list_all};
ghost use Rattle.html_grammar.specs.Characters as class;
ghost use Rattle.html_kept.specs.Table as t;
ghost use Rattle.html_cajoler.specs.Views.{is_of};

use caja_units::Units;
use html_tokens::unit;

/// A class of units.
#[derive(Debug, Clone, Copy)]
pub enum Class {
    /// What stands in a word behind its first letter.
    Word,
    /// A letter or `-`.
    Language,
    Digit,
}

fn is_letter(unit: u16) -> bool
    ensures { result ≡ class.is_letter unit }
{
    matches!(unit, 97..=122 | 65..=90)
}

fn is_digit(unit: u16) -> bool
    ensures { result ≡ class.is_digit unit }
{
    matches!(unit, 48..=57)
}

/// A letter, a digit, `-` or `_`.
fn is_word_part(unit: u16) -> bool
    ensures { result ≡ t.is_word_part unit }
{
    is_letter(unit) || is_digit(unit) || unit == 45 || unit == 95
}

fn is_language_part(unit: u16) -> bool
    ensures { result ≡ t.is_language_part unit }
{
    is_letter(unit) || unit == 45
}

/// Whether a unit is of a class.
fn is_class(class: Class, unit: u16) -> bool
    ensures { result ≡ is_of class unit }
{
    match class {
        Class::Word => is_word_part(unit),
        Class::Language => is_language_part(unit),
        Class::Digit => is_digit(unit),
    }
}

/// Whether all units are of a class.
fn all_are(class: Class, text: &Units) -> bool
    ensures { result ≡ list_all (is_of class) text.now }
{
    for i in 0..text.len() {
        if !is_class(class, unit(text, i)) {
            return false;
        }
    }
    true
}

/// Whether a text begins with a letter.
fn begins_letter(text: &Units) -> bool
    ensures { result ≡ class.begins class.is_letter text.now }
{
    if text.len() == 0 {
        return false;
    }
    is_letter(unit(text, 0))
}

/// Whether a text is a letter, then letters, digits, `-` and `_`.
pub fn is_word(text: &Units) -> bool
    ensures { result ≡ t.is_word text.now }
{
    begins_letter(text) && all_are(Class::Word, text)
}

/// Whether a text is such words, with one space between them.
pub fn are_words(text: &Units) -> bool
    ensures { result ≡ t.are_words true text.now }
{
    let mut begins = true;
    for i in 0..text.len() {
        let unit = unit(text, i);
        if begins {
            if !is_letter(unit) {
                return false;
            }
            begins = false;
        } else if unit == 32 {
            begins = true;
        } else if !is_word_part(unit) {
            return false;
        }
    }
    !begins
}

/// Whether a text is of letters and `-`, with one at least.
pub fn is_language(text: &Units) -> bool
    ensures { result ≡ t.is_language text.now }
{
    text.len() > 0 && all_are(Class::Language, text)
}

/// Whether a text is one to four digits.
pub fn is_size(text: &Units) -> bool
    ensures { result ≡ t.is_size text.now }
{
    text.len() > 0 && text.len() <= 4 && all_are(Class::Digit, text)
}
