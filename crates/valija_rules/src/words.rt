//! Names that lowered programs have of their own.

ghost use Rattle.std.specs.Prelude.{◌≡◌, drop, codes};
ghost use Rattle.std.specs.List.{list_all};
ghost use Rattle.caja_units.specs.Units.{same_units};
ghost use Rattle.es3_tokens.specs.Characters.{is_digit as is_digit_unit};
ghost use Rattle.valija_rules.specs.Words.{is_numbered as is_numbered_word, is_taken as is_taken_word};

use caja_units::Units;

// Whether a unit is a decimal digit.
fn is_digit(unit: u16) -> bool
    ensures { result ≡ is_digit_unit unit }
{
    matches!(unit, 0x30..=0x39)
}

// Whether there are digits alone from the third unit on.
fn ends_in_digits(name: &Units) -> bool
    ensures { result ≡ list_all is_digit_unit (drop 2 name.now) }
{
    for i in 2..name.len() {
        let Some(unit) = name.at(i) else {
            return false;
        };
        if !is_digit(unit) {
            return false;
        }
    }
    true
}

// Whether the name is `$v`, or `$v` with digits behind it.
#[tactic(auto, using(crate::proofs::ShortNames::numbered_by))]
fn is_numbered(name: &Units) -> bool
    ensures { result ≡ is_numbered_word name.now }
{
    name.at(0) == Some(0x24) && name.at(1) == Some(0x76) && ends_in_digits(name)
}

// Whether the name is `$dis`.
#[tactic(auto, using(crate::proofs::ShortNames::receiver_by))]
fn is_receiver(name: &Units) -> bool
    ensures { result ≡ same_units name.now (codes "$dis") }
{
    name.len() == 4
        && name.at(0) == Some(0x24)
        && name.at(1) == Some(0x64)
        && name.at(2) == Some(0x69)
        && name.at(3) == Some(0x73)
}

/// Whether the name is `$v`, `$dis`, or `$v` with digits behind it.
pub(crate) fn is_taken(name: &Units) -> bool
    ensures { result ≡ is_taken_word name.now }
{
    is_numbered(name) || is_receiver(name)
}
