//! From a source of Cajita or Valija to the cajoled program that stands for it, and its text, or from a source to its own printed text, or to its own program, which runs
//! as it stands; or to the stage that refuses it. From a page to what runs for its modules.
#![tactic(auto)]

ghost use Rattle.std.specs.Prelude.{◌≡◌, ◌≤◌, ℕ, false, List, Ok, IfOk, length};
ghost use Rattle.es3_tree.specs.Tree as t;
ghost use Rattle.es3_tree.specs.View.{program as program_view};
ghost use Rattle.cajita_tree.specs.View.{module_view};
ghost use Rattle.cajita_rewrite.specs.Rewrite.{program_of};
ghost use Rattle.es3_printed.specs.Back.{IsReadBack};
ghost use Rattle.es3_printed.specs.Tokens.{printed};
ghost use Rattle.page_manifest.specs.Page.{Language, as_it_stands, es3};
ghost use Rattle.page_cajole.specs.Cajoled as source_becomes;
ghost use Rattle.page_cajole.specs.Cajoled.{outcome};
ghost use Rattle.page_cajole.specs.Answers.{Answers};
ghost use Rattle.page_cajole.specs.Formatted.{IsFormatted};
ghost use Rattle.page_cajole.specs.Source.{text_limits};
ghost use Rattle.page_cajole.specs.Pages.{Runnable, source_outcome};
ghost use Rattle.page_cajole.specs.Text as text_becomes;
ghost use Rattle.page_cajole.specs.Text.{text_outcome};

mod dialects;
mod formatting;
mod pages;
mod source;
mod text;

use caja_units::{Memory, Units};
use cajita_rewrite::rewrite;
use cajita_tree::Module;
pub use dialects::Dialect;
use dialects::judge;
use es3_printer::print_program;
use es3_tree::Program;
pub use formatting::{FormatAnswer, format};
pub use pages::{
    CajoleError, Stage, a_page_is_what_its_modules_are, cajole_all,
    no_jump_of_what_runs_is_misplaced,
};
use source::{SOURCE_LIMITS, SourceRead, read_source};
use std::alloc::Global;
pub use text::{TextAnswer, read_text};

/// What runs for a module: its program and the text of that. Where the module is cajoled, the program stands for it, and the text is in bytes of ASCII.
#[derive(Drop)]
pub struct CajoledModule {
    pub text: Vec<u8>,
    pub program: Program,
}

/// What becomes of a source.
#[derive(Drop)]
pub enum Answer {
    /// It is cajoled.
    Module(CajoledModule),
    /// It isn't cut into tokens: the number of the refusal, and the byte of the source where it is, from 0.
    Uncut(u8, u32),
    /// Its tokens spell no program: 1 where none goes on with a token, and the byte of that token; 2 where all that go on nest too deep,
    /// and the byte 0.
    Unread(u8, u32),
    /// A rule refuses it: the number of the rule, and the byte of the source where the first fault is.
    Broken(u8, u32),
}

/// The program that stands for the module, and its text.
fn cajoled(alloc: Global, resolved: &Module) -> Result<CajoledModule, Memory>
    ensures program { IfOk result (λ m. program_view m.program ≡ program_of (module_view resolved.now)) }
    ensures text { IfOk result (λ m. m.text.items ≡ printed (program_view m.program)) }
{
    let program = rewrite(alloc, resolved)?;
    let text = print_program(alloc, &program)?;
    Ok(CajoledModule { text, program })
}

/// The cajoled module of a source of this dialect that is granted these names, or what refuses it: cutting it into tokens, reading these, or a rule, in this order.
///
/// # Errors
///
/// `Memory` where memory is wanting.
pub fn cajole(
    alloc: Global,
    dialect: Dialect,
    source: &[u8],
    granted: &[Units],
) -> Result<Answer, Memory>
    ensures { IfOk result (λ a. Answers a (outcome dialect granted.now source.now)) }
{
    match read_source(alloc, source, SOURCE_LIMITS)? {
        SourceRead::Spelled(program) => judge(alloc, dialect, &program, granted),
        SourceRead::Uncut(number, at) => Ok(Answer::Uncut(number, at)),
        SourceRead::Unread(number, at) => Ok(Answer::Unread(number, at)),
    }
}

/// What `format` promises of each source: its text is that of the one program that the source spells, that text is read as the same
/// program again, apart from places, and it may stand in a page; and a source is refused just where it spells no program within the limits.
pub fn formatting_keeps_the_program()
    ensures { (source : List ℕ) → IsFormatted source }
{}

/// The text of a cajoled source is read back as the very program that it is of, in whatever dialect it is and whatever names were granted.
#[tactic(auto, using(crate::proofs::Back::cajoled_back))]
pub fn a_cajoled_text_is_read_back()
    ensures { (dialect : Dialect) (granted : List (List ℕ)) (source : List ℕ) (p : t.Tree t.program) → outcome dialect granted source ≡ source_becomes.cajoled p → IsReadBack p }
{}

/// The text of a cajoled source runs as it stands, in whatever dialect the source is and whatever names were granted, where it isn't longer than such a text may be: as the
/// very program that it is of; and as a module of a page of texts, with that text and that program.
#[tactic(auto, using(crate::proofs::Runs::cajoled_runs, crate::proofs::Runs::cajoled_runs_again))]
pub fn a_cajoled_text_runs()
    ensures program { (dialect : Dialect) (granted : List (List ℕ)) (source : List ℕ) (p : t.Tree t.program) → outcome dialect granted source ≡ source_becomes.cajoled p
        → length (printed p) ≤ text_limits.longest → text_outcome (printed p) ≡ text_becomes.runs p }
    ensures module { (l : Language) (granted names : List (List ℕ)) (source : List ℕ) (r : Runnable) → as_it_stands l ≡ false → source_outcome l granted source ≡ Ok r
        → length r.text ≤ text_limits.longest → source_outcome es3 names r.text ≡ Ok r }
{}
