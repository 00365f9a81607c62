//! The options that were matched, and the number among them.

ghost use Rattle.std.specs.Prelude.{◌≡◌, Bool, Some, codes, option_map};
ghost use Rattle.std.specs.Char.{is_ascii_digit};
ghost use Rattle.std.specs.List.{list_all};
ghost use Rattle.clap.specs.Words.{first_value, found_of, one_text};
ghost use Rattle.clap.specs.Values.{bool_text};
ghost use Rattle.command_words.specs.Words.{most_events, number_of, options, within};
ghost use Rattle.command_words.specs.Matched.{steps_in};

use crate::Options;
use clap::ArgMatches;

/// The steps where the words give none.
const DEFAULT_STEPS: u32 = 1_000_000;

/// The most steps that the words may give.
const MOST_STEPS: u32 = 10_000_000;

/// The most events that the words may give.
const MOST_EVENTS: u32 = 2_000;

/// The most digits of a number.
const MOST_DIGITS: usize = 8;

/// The options of what was matched.
pub fn options_in(matches: &ArgMatches) -> Option<Options>
    ensures { (touch : Bool) → one_text (found_of matches.now) (codes "touch") ≡ Some (bool_text touch)
        → result ≡ option_map (λ n. options n touch) (steps_in (first_value (found_of matches.now) (codes "steps"))) }
{
    let steps = match matches.get_str("steps") {
        Some(text) => number_of(MOST_STEPS, text)?,
        None => DEFAULT_STEPS,
    };
    let touch = matches.get_flag("touch");
    Some(Options { steps, touch })
}

/// The number of events that a text says.
pub fn events_in(text: &str) -> Option<u32>
    ensures { result ≡ number_of most_events text.now }
{
    number_of(MOST_EVENTS, text)
}

/// A number, where it is from 1 to the most.
fn within(most: u32, number: u32) -> Option<u32>
    ensures { result ≡ within most number }
{
    if 1 <= number && number <= most {
        Some(number)
    } else {
        None
    }
}

/// Whether a text has decimal digits alone.
fn are_digits(text: &str) -> bool
    ensures { result ≡ list_all is_ascii_digit text.now }
{
    for byte in text.as_bytes() {
        if !byte.is_ascii_digit() {
            return false;
        }
    }
    true
}

/// The number from 1 to the most that a text says, in one to eight decimal digits.
fn number_of(most: u32, text: &str) -> Option<u32>
    ensures { result ≡ number_of most text.now }
{
    if text.len() > MOST_DIGITS {
        return None;
    }
    if !are_digits(text) {
        return None;
    }
    match text.parse::<u32>() {
        Ok(number) => within(most, number),
        Err(_error) => None,
    }
}
