//! The words of the command line: which command they are, and with which options.
#![tactic(auto)]

ghost use Rattle.std.specs.Prelude.{◌≡◌, ◌<◌, ◌≤◌, ℕ, List, Some, length, map, string_bytes, IfOk};
ghost use Rattle.command_words.specs.declared.Command.TheVariants.{Gen};
ghost use Rattle.command_words.specs.declared.Options.{Options as TheOptions};
ghost use Rattle.command_words.specs.Words.{alone, command_of, gen_at, gen_of, generated, longest_input, options_of};

mod number_words;
mod numbers;
mod reading;

use caja_units::Memory;
use clap::{Arg, ArgAction};
use number_words::number_at;
use numbers::{events_in, options_in};
use reading::matched;
use std::alloc::Global;

/// What the words behind a command that runs something say.
#[derive(Clone, Copy)]
pub struct Options {
    /// The most steps of the run: from 1 to 10,000,000.
    pub steps: u32,
    /// Whether objects are touched.
    pub touch: bool,
}

/// A command of the program.
#[derive(Clone, Copy)]
pub enum Command {
    /// Cajoles and runs a module.
    Solo(Options),
    /// Cajoles a module.
    Cajole,
    /// Prints a source of ECMAScript 3.
    Format,
    /// Runs texts of ECMAScript 3 as they stand.
    Run(Options),
    /// Cajoles and runs a page.
    Page(Options),
    /// Makes a page with so many events, from 1 to 2,000, and cajoles and runs it.
    Gen(u32, Options),
}

impl Command {
    /// The longest input of the command, in bytes: 64 MiB of `run`, and 4 MiB of the others.
    pub fn longest_input(self) -> usize
        ensures { result ≡ longest_input self }
    {
        match self {
            Command::Run(_) => 67_108_864,
            Command::Solo(_)
            | Command::Cajole
            | Command::Format
            | Command::Page(_)
            | Command::Gen(_, _) => 4_194_304,
        }
    }
}

/// The command that the words behind the program's name are; none where they are none.
///
/// # Errors
///
/// Want of memory.
pub fn command_of(alloc: Global, words: &[String]) -> Result<Option<Command>, Memory>
    ensures { IfOk result (λ r. r ≡ command_of (map string_bytes words.now)) }
{
    match words {
        [] => Ok(None),
        [word, rest @ ..] => match word.as_str() {
            "solo" => Ok(options_of(alloc, rest)?.map(Command::Solo)),
            "cajole" => alone(alloc, Command::Cajole, rest),
            "format" => alone(alloc, Command::Format, rest),
            "run" => Ok(options_of(alloc, rest)?.map(Command::Run)),
            "page" => Ok(options_of(alloc, rest)?.map(Command::Page)),
            "gen" => gen_of(alloc, rest),
            _ => Ok(None),
        },
    }
}

/// A page is made with one event at least, and 2,000 at most.
pub fn a_page_is_made_with_few_events()
    ensures some { (words : List (List ℕ)) (n : ℕ) (o : TheOptions) → command_of words ≡ Some (Gen n o) → 1 ≤ n }
    ensures few { (words : List (List ℕ)) (n : ℕ) (o : TheOptions) → command_of words ≡ Some (Gen n o) → n ≤ 2000 }
{}

/// The command that the words behind `gen` are: a number of events among them, and the other words are options; none where they are none.
fn gen_of(alloc: Global, words: &[String]) -> Result<Option<Command>, Memory>
    ensures { IfOk result (λ r. r ≡ gen_of (map string_bytes words.now)) }
{
    match number_at(words) {
        Some(index) => gen_at(alloc, index, words),
        None => Ok(None),
    }
}

/// The command whose number of events is the word at the index, and whose options are the other words.
fn gen_at(alloc: Global, index: usize, words: &[String]) -> Result<Option<Command>, Memory>
    requires { index < length words.now }
    ensures { IfOk result (λ r. r ≡ gen_at index (map string_bytes words.now)) }
{
    let mut others = words.to_vec(alloc)?;
    let number = others.remove(index);
    let options = options_of(alloc, &others)?;
    Ok(generated(events_in(&number), options))
}

/// The command that makes a page with so many events, where there is a number and there are options.
fn generated(events: Option<u32>, options: Option<Options>) -> Option<Command>
    ensures { result ≡ generated events options }
{
    Some(Command::Gen(events?, options?))
}

/// The options that the words behind a command are; none where they are none.
fn options_of(alloc: Global, words: &[String]) -> Result<Option<Options>, Memory>
    ensures { IfOk result (λ r. r ≡ options_of (map string_bytes words.now)) }
{
    let steps = Arg::new(alloc, "steps").long("steps");
    let touch = Arg::new(alloc, "touch")
        .long("touch")
        .action(ArgAction::SetTrue);
    let command = clap::Command::new(alloc, "caja")
        .no_binary_name(true)
        .disable_help_flag(true)
        .arg(steps)?
        .arg(touch)?;
    match matched(command, words)? {
        Some(matches) => Ok(options_in(&matches)),
        None => Ok(None),
    }
}

/// A command that takes no further word.
fn alone(alloc: Global, command: Command, words: &[String]) -> Result<Option<Command>, Memory>
    ensures { IfOk result (λ r. r ≡ alone command (map string_bytes words.now)) }
{
    let plain = clap::Command::new(alloc, "caja")
        .no_binary_name(true)
        .disable_help_flag(true);
    match matched(plain, words)? {
        Some(_matches) => Ok(Some(command)),
        None => Ok(None),
    }
}
