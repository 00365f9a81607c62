//! Words as `clap` reads them.

ghost use Rattle.std.specs.Prelude.{◌≡◌, map, string_bytes, IfOk, true};
ghost use Rattle.std.specs.List.{list_any};
ghost use Rattle.clap.specs.Words.{app_of, is_simple_and_free};
ghost use Rattle.command_words.specs.Matched.{IsMatched, is_dashes};

use caja_units::Memory;
use clap::error::ErrorKind;
use clap::{ArgMatches, Command};

/// What `clap` matches; none where it refuses a word, or one is `--`, which `clap` takes where no word follows.
pub fn matched<'a>(
    command: Command<'a>,
    words: &'a [String],
) -> Result<Option<ArgMatches<'a>>, Memory>
    ensures { is_simple_and_free (app_of command.entry) ≡ true
        → IfOk result (λ r. IsMatched (app_of command.entry) (map string_bytes words.now) r) }
{
    if have_dashes(words) {
        return Ok(None);
    }
    match command.try_get_matches_from(words) {
        Ok(matches) => Ok(Some(matches)),
        Err(error) => {
            if error.kind() == ErrorKind::OutOfMemory {
                Err(Memory)
            } else {
                Ok(None)
            }
        }
    }
}

/// Whether a word is `--`.
fn have_dashes(words: &[String]) -> bool
    ensures { result ≡ list_any (λ w. is_dashes (string_bytes w)) words.now }
{
    for word in words {
        if word.as_str() == "--" {
            return true;
        }
    }
    false
}
