//! Words that are commands, and words that are none.

use caja_units::Memory;
use command_words::{Command, Options, command_of};
use std::alloc::{AllocError, Global};
use std::test::Fail;

/// The words of a row, which bars part.
fn words(alloc: Global, row: &str) -> Result<Vec<String>, Memory> {
    let mut words = Vec::new(alloc);
    for word in row.split('|') {
        words.push(String::from_str(alloc, word)?)?;
    }
    Ok(words)
}

/// A command and its options, as a row tells them.
fn with_options(alloc: Global, name: &str, options: Options) -> Result<String, AllocError> {
    let Options { steps, touch } = options;
    if touch {
        format!(in alloc; "{name} {steps} touch")
    } else {
        format!(in alloc; "{name} {steps}")
    }
}

/// What words are, as a row tells it.
fn told(alloc: Global, command: Option<Command>) -> Result<String, AllocError> {
    match command {
        Some(Command::Solo(options)) => with_options(alloc, "solo", options),
        Some(Command::Run(options)) => with_options(alloc, "run", options),
        Some(Command::Page(options)) => with_options(alloc, "page", options),
        Some(Command::Gen(events, options)) => {
            let name = format!(in alloc; "gen {events}")?;
            with_options(alloc, &name, options)
        }
        Some(Command::Cajole) => String::from_str(alloc, "cajole"),
        Some(Command::Format) => String::from_str(alloc, "format"),
        None => String::from_str(alloc, "usage"),
    }
}

/// Words, and what they are.
static ROWS: [(&str, &str); 121] = [
    // Each command by itself.
    ("solo", "solo 1000000"),
    ("run", "run 1000000"),
    ("page", "page 1000000"),
    ("cajole", "cajole"),
    ("format", "format"),
    // The options, in both forms and each order.
    ("solo|--steps|5", "solo 5"),
    ("run|--steps=5", "run 5"),
    ("page|--touch", "page 1000000 touch"),
    ("solo|--touch|--steps|5", "solo 5 touch"),
    ("run|--steps|5|--touch", "run 5 touch"),
    ("page|--touch|--steps=5", "page 5 touch"),
    ("page|--steps=5|--touch", "page 5 touch"),
    // The number: from 1 to 10,000,000, in one to eight digits.
    ("solo|--steps|1", "solo 1"),
    ("solo|--steps|10000000", "solo 10000000"),
    ("solo|--steps=10000000", "solo 10000000"),
    ("solo|--steps|007", "solo 7"),
    ("solo|--steps|00000001", "solo 1"),
    ("solo|--steps|0", "usage"),
    ("solo|--steps=0", "usage"),
    ("solo|--steps|00000000", "usage"),
    ("solo|--steps|10000001", "usage"),
    ("solo|--steps|99999999", "usage"),
    ("solo|--steps|000000001", "usage"),
    ("solo|--steps|4294967297", "usage"),
    ("solo|--steps|+5", "usage"),
    ("solo|--steps|-5", "usage"),
    ("solo|--steps=-5", "usage"),
    ("solo|--steps|1_000", "usage"),
    ("solo|--steps|0x10", "usage"),
    ("solo|--steps|5 ", "usage"),
    ("solo|--steps|٣", "usage"),
    ("solo|--steps|", "usage"),
    ("solo|--steps=", "usage"),
    ("solo|--steps==5", "usage"),
    ("solo|--steps=5=6", "usage"),
    ("solo|--steps|-", "usage"),
    ("solo|--steps|--", "usage"),
    // An option without its number.
    ("solo|--steps", "usage"),
    ("solo|--steps|--touch", "usage"),
    ("solo|--touch|--steps", "usage"),
    ("solo|--steps|--steps|5", "usage"),
    ("solo|--steps|=5", "usage"),
    // An option twice.
    ("solo|--steps|5|--steps|5", "usage"),
    ("solo|--steps=5|--steps=5", "usage"),
    ("solo|--steps|5|--steps=6", "usage"),
    ("solo|--steps=5|--touch|--steps|6", "usage"),
    ("page|--touch|--touch", "usage"),
    ("page|--touch|--steps|5|--touch", "usage"),
    // A flag with a value, beginnings of options, other spellings.
    ("page|--touch=1", "usage"),
    ("page|--touch=", "usage"),
    ("page|--touch=true", "usage"),
    ("solo|--step|5", "usage"),
    ("solo|--step=5", "usage"),
    ("page|--touc", "usage"),
    ("solo|--Steps|5", "usage"),
    ("solo|-steps|5", "usage"),
    ("page|-t", "usage"),
    ("solo|steps|5", "usage"),
    // Other words.
    ("solo|--", "usage"),
    ("page|--touch|--", "usage"),
    ("page|--|--touch", "usage"),
    ("solo|-h", "usage"),
    ("solo|--help", "usage"),
    ("solo|--version", "usage"),
    ("solo|-V", "usage"),
    ("solo|help", "usage"),
    ("solo|5", "usage"),
    ("solo|", "usage"),
    ("--steps|5|solo", "usage"),
    // The commands without options.
    ("format|--steps|5", "usage"),
    ("cajole|--touch", "usage"),
    ("format|--", "usage"),
    ("cajole|", "usage"),
    ("Solo", "usage"),
    // `gen`: one number from 1 to 2,000, before, between or behind the options.
    ("gen|5", "gen 5 1000000"),
    ("gen|1", "gen 1 1000000"),
    ("gen|2000", "gen 2000 1000000"),
    ("gen|00000007", "gen 7 1000000"),
    ("gen|5|--touch", "gen 5 1000000 touch"),
    ("gen|5|--steps|7", "gen 5 7"),
    ("gen|--steps|7|5", "gen 5 7"),
    ("gen|--steps=7|5", "gen 5 7"),
    ("gen|--touch|5|--steps|7", "gen 5 7 touch"),
    ("gen|--steps|7|5|--touch", "gen 5 7 touch"),
    ("gen|--steps|5|--touch|5", "gen 5 5 touch"),
    // No number, another number, two numbers.
    ("gen", "usage"),
    ("gen|--touch", "usage"),
    ("gen|--steps|5", "usage"),
    ("gen|--steps=5", "usage"),
    ("gen|0", "usage"),
    ("gen|2001", "usage"),
    ("gen|99999999", "usage"),
    ("gen|000000005", "usage"),
    ("gen|+5", "usage"),
    ("gen|-5", "usage"),
    ("gen|5x", "usage"),
    ("gen|٣", "usage"),
    ("gen|", "usage"),
    ("gen|5|6", "usage"),
    ("gen|5|5", "usage"),
    ("gen|5|--touch|6", "usage"),
    ("gen|5|--steps|7|6", "usage"),
    ("gen|--steps|7|5|6", "usage"),
    // The other words as behind the other commands.
    ("gen||5", "usage"),
    ("gen|5|", "usage"),
    ("gen|--|5", "usage"),
    ("gen|5|--", "usage"),
    ("gen|5|--steps", "usage"),
    ("gen|5|--steps|0", "usage"),
    ("gen|5|--steps|--touch", "usage"),
    ("gen|--steps|--steps|5", "usage"),
    ("gen|5|--touch|--touch", "usage"),
    ("gen|--steps|7|5|--steps|7", "usage"),
    ("gen|--touch=5", "usage"),
    ("gen|5|page", "usage"),
    ("gen|page", "usage"),
    ("gen|5|-t", "usage"),
    ("gen|5|--help", "usage"),
    ("Gen|5", "usage"),
    ("5|gen", "usage"),
    ("page|5", "usage"),
];

#[test]
fn words_are_the_command_of_their_row(rt: HostRuntime) -> Result<(), Fail> {
    let alloc = rt.alloc();
    for (row, wanted) in ROWS.iter() {
        let words = words(alloc, row)?;
        let found = told(alloc, command_of(alloc, &words)?)?;
        assert!(rt; found.as_str() == *wanted, "{row}: {found}");
    }
    Ok(())
}

#[test]
fn no_words_are_no_command(rt: HostRuntime) -> Result<(), Fail> {
    let words = Vec::new(rt.alloc());
    assert!(rt; command_of(rt.alloc(), &words)?.is_none());
    Ok(())
}
