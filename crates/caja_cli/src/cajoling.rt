// The command `cajole`: one module without grants as its cajoled text.

ghost use Rattle.std.specs.Prelude.{◌≡◌, [], IfOk};
ghost use Rattle.page_cajole.specs.declared.dialects.Dialect.TheVariants.{Cajita};
ghost use Rattle.page_cajole.specs.Cajoled.{outcome};
ghost use Rattle.caja_cli.specs.Output.{source_output, cajoled_line};

use crate::formatting::line_of;
use crate::page_commands::MAIN;
use crate::refusal::refused;
use crate::status::Status;
use caja_units::Memory;
use page_cajole::{Answer, Dialect, cajole};
use std::alloc::Global;

/// What is written for an input, and the status.
pub fn cajole_source(alloc: Global, input: &[u8]) -> Result<(Vec<u8>, Status), Memory>
    ensures text { IfOk result (λ r. r.0.items ≡ (source_output cajoled_line (outcome Cajita [] input.now)).0) }
    ensures status { IfOk result (λ r. r.1 ≡ (source_output cajoled_line (outcome Cajita [] input.now)).1) }
{
    match cajole(alloc, Dialect::Cajita, input, &[])? {
        Answer::Uncut(number, place) => refused(alloc, MAIN, "lex", number, place),
        Answer::Unread(number, place) => refused(alloc, MAIN, "read", number, place),
        Answer::Broken(number, place) => refused(alloc, MAIN, "rule", number, place),
        Answer::Module(main) => line_of(main.text),
    }
}
