//! The top call of Caja: words, an input, an output and a status.
#![tactic(auto)]

ghost use Rattle.std.specs.Prelude.{◌≡◌, ◌≢◌, ◌≤◌, [], map, string_bytes, false, IfOk, IsTrue, ℕ, List};
ghost use Rattle.caja_io.specs.Count.{Rose};
ghost use Rattle.caja_io.specs.Source.{TakesUpTo};
ghost use Rattle.caja_io.specs.Sink.{Appends, AppendsPart};
ghost use Rattle.html_grammar.specs.Trees.{none};
ghost use Rattle.page_cajole.specs.Formatted.{IsFormatted};
ghost use Rattle.page_documents.specs.Documents.{IsDocument};
ghost use Rattle.url_rule.specs.Table.{Row, rows_of};
ghost use Rattle.page_cajole.specs.declared.dialects.Dialect.TheVariants.{Cajita};
ghost use Rattle.page_meaning.specs.Sources.{IsSource};
ghost use Rattle.page_meaning.specs.Meant.{IsMeant};
ghost use Rattle.caja_cli.specs.Output.{reads, reads_input, command_output, most_read, lone_page, too_long as too_long_line};
ghost use Rattle.command_words.specs.declared.Command.TheVariants.{Gen};
ghost use Rattle.command_words.specs.declared.Options.{Options as TheOptions};
ghost use Rattle.caja_gen.specs.Generated.{generated};
ghost use Rattle.caja_cli.specs.Answered.{IsAnswer, Wrote, WrotePart};
ghost use Rattle.caja_cli.specs.Promised.{IsManifest, IsOfTexts, AreIsolated};

mod cajoling;
mod ending;
mod formatting;
mod forms;
mod page_commands;
mod parts;
mod refusal;
mod status;

use caja_io::{InputFault, OutputFault, Sink, Source, read_all, write_all};
use caja_units::Memory;
use command_words::{Command, command_of};
use host_services::{Picks, Services};
pub use status::Status;
use std::alloc::Global;
use url_rule::{Asks, UriRule};

/// Reads the words and then the whole input, does what the words say, and gives all that is written to the sink at once.
///
/// The words are those behind the program's name. With `page` the input is the manifest of a page of modules, and the output is the cajoled text of each, the groups, the log of the page, its
/// document and how it ended; `solo` is that of a page of one module, whose source is the input, without groups and document. With `cajole` the output is the cajoled text alone, and a line end. With
/// `format` the input is a source of ECMAScript 3, and the output its printed text and a line end. With `run` it is the manifest of a page of texts of ECMAScript 3 that run as they stand. With
/// `gen` nothing is read: a page is made and run, and the output is one line that sums it up. Where the words are no command, nothing is read, and the line `usage` is written.
///
/// The rule is asked for each URL that a page, its sheets or its modules name. No module is granted a service yet.
#[tactic(auto, using(crate::proofs::Promised::is_manifest, crate::proofs::Promised::is_of_texts, page_meaning::proofs::Sources::is_source, page_cajole::proofs::Formats::is_formatted))]
pub fn caja<S: Source, K: Sink, F: Asks, P: Picks>(
    words: &[String],
    source: &mut S,
    sink: &mut K,
    rule: &UriRule<F>,
    _services: &Services<P>,
    alloc: Global,
) -> Status
    // The whole output was written, and the status is the defined one.
    ensures answer { IsAnswer result
        → Wrote (rows_of rule.now.table.items) (map string_bytes words.now) result (S.left source.old) (S.left source.new) (K.written sink.old) (K.written sink.new) }

    // The headline. Of each page whose manifest is read, and of the page of one module: every module becomes the text that its source and the names of its grants alone decide; where its document
    // and all modules are accepted, the log is what the interpreter's meaning gives for these texts and what the direct meaning gives for the sources, over all loads and events, and so are the
    // nodes of the document's roots; it ends for the causes for which it does; and each touch lies in its module's reach.
    ensures page { (input : List ℕ) → IsManifest (rows_of rule.now.table.items) input }
    ensures solo { (source : List ℕ) → IsMeant (lone_page (rows_of rule.now.table.items) source) }
    ensures lone { (source : List ℕ) → IsDocument (lone_page (rows_of rule.now.table.items) source) none }
    ensures generated { (n : ℕ) → 1 ≤ n → n ≤ 2000 → IsMeant (generated (rows_of rule.now.table.items) n) }

    // Each page that agrees with it on a group of its modules, and whose modules are accepted too, gives that group the same lines, the same texts, and the same nodes and printed text of each of
    // its roots, whatever else there is on either page.
    ensures isolated { (input : List ℕ) → AreIsolated (rows_of rule.now.table.items) input }

    // What becomes of a source by itself, and of the sources of a page of texts.
    ensures cajole { (source : List ℕ) → IsSource Cajita [] source }
    ensures run { (input : List ℕ) → IsOfTexts (rows_of rule.now.table.items) input }

    // What is formatted is the one program that the input spells, and the text is read as it again; each refusal comes just where it is so.
    ensures formatted { (input : List ℕ) → IsFormatted input }

    // Each of the other four, and its cause.
    ensures read_fault { result ≡ Status.ReadFault
        → IsTrue (reads_input (map string_bytes words.now)) × Rose (S.faults source.old) (S.faults source.new) × (sink.new ≡ sink.old) }
    ensures write_fault { result ≡ Status.WriteFault
        → Rose (K.faults sink.old) (K.faults sink.new) × WrotePart (rows_of rule.now.table.items) (map string_bytes words.now) (S.left source.old) (K.written sink.old) (K.written sink.new) }
    ensures no_room { result ≡ Status.NoRoom
        → Rose (K.empty_writes sink.old) (K.empty_writes sink.new) × WrotePart (rows_of rule.now.table.items) (map string_bytes words.now) (S.left source.old) (K.written sink.old) (K.written sink.new) }
    ensures memory { result ≡ Status.Memory → sink.new ≡ sink.old }

    // With any answer: what was read is the first of what was left, and nothing is read where the words are no command that reads.
    ensures takes { TakesUpTo (most_read (map string_bytes words.now)) (S.left source.old) (S.left source.new) }
    ensures unread { reads_input (map string_bytes words.now) ≡ false → source.new ≡ source.old }
    ensures faults_never_fall { S.faults source.old ≤ S.faults source.new }
{
    let command = match command_of(alloc, words) {
        Err(Memory) => return Status::Memory,
        Ok(None) => return finish(sink, b"usage\n", Status::Usage),
        Ok(Some(command)) => command,
    };
    if !reads(command) {
        return match perform(alloc, rule, command, &[]) {
            Err(_memory) => Status::Memory,
            Ok((text, status)) => finish(sink, &text, status),
        };
    }
    match read_all(alloc, source, command.longest_input()) {
        Err(InputFault::Failed) => Status::ReadFault,
        Err(InputFault::Memory) => Status::Memory,
        Err(InputFault::TooLong) => finish(sink, too_long(command), Status::Refused),
        Ok(input) => match perform(alloc, rule, command, &input) {
            Err(_memory) => Status::Memory,
            Ok((text, status)) => finish(sink, &text, status),
        },
    }
}

/// Whether the command reads an input.
fn reads(command: Command) -> bool
    ensures { result ≡ reads command }
{
    !matches!(command, Command::Gen(_, _))
}

/// The line for an input that is too long: of a page, or of the one module.
fn too_long(command: Command) -> &'static [u8]
    ensures { result.now ≡ too_long_line command }
{
    match command {
        Command::Page(_) | Command::Run(_) => b"refused - input 1 0\n",
        Command::Solo(_) | Command::Cajole | Command::Format | Command::Gen(_, _) => {
            b"refused main input 1 0\n"
        }
    }
}

/// What a command makes of an input that isn't too long, and the status.
fn perform<F: Asks>(
    alloc: Global,
    rule: &UriRule<F>,
    command: Command,
    input: &[u8],
) -> Result<(Vec<u8>, Status), Memory>
    requires some { (n : ℕ) (o : TheOptions) → command ≡ Gen n o → 1 ≤ n }
    requires few { (n : ℕ) (o : TheOptions) → command ≡ Gen n o → n ≤ 2000 }
    ensures text { IfOk result (λ r. r.0.items ≡ (command_output (rows_of rule.now.table.items) command input.now).0) }
    ensures status { IfOk result (λ r. r.1 ≡ (command_output (rows_of rule.now.table.items) command input.now).1) }
    ensures answer { IfOk result (λ r. IsAnswer r.1) }
{
    match command {
        Command::Solo(options) => page_commands::solo(alloc, rule, input, options),
        Command::Cajole => cajoling::cajole_source(alloc, input),
        Command::Format => formatting::format_source(alloc, input),
        Command::Run(options) => page_commands::run(alloc, rule, input, options),
        Command::Page(options) => page_commands::page(alloc, rule, input, options),
        Command::Gen(count, options) => page_commands::generated(alloc, rule, count, options),
    }
}

/// Writes the whole output, and answers its status or the fault of the write.
fn finish<K: Sink>(sink: &mut K, output: &[u8], status: Status) -> Status
    requires { IsAnswer status }
    ensures answer { IsAnswer result
        → Appends (K.written sink.old) (K.written sink.new) output.now × (result ≡ status) }
    ensures write_fault { result ≡ Status.WriteFault
        → Rose (K.faults sink.old) (K.faults sink.new) × AppendsPart (K.written sink.old) (K.written sink.new) output.now }
    ensures no_room { result ≡ Status.NoRoom
        → Rose (K.empty_writes sink.old) (K.empty_writes sink.new) × AppendsPart (K.written sink.old) (K.written sink.new) output.now }
    ensures no_read_fault { result ≢ Status.ReadFault }
    ensures no_memory { result ≢ Status.Memory }
{
    match write_all(sink, output) {
        Ok(()) => status,
        Err(OutputFault::Failed) => Status::WriteFault,
        Err(OutputFault::NoRoom) => Status::NoRoom,
    }
}
