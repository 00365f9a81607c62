//! What becomes of the modules of a page.

ghost use Rattle.std.specs.Prelude.{◌<◌, ◌≡◌, ◌^◌, All, List, None, Ok, IfOk, length, map};
ghost use Rattle.es3_tree.specs.PlacedView.{program as placed_program};
ghost use Rattle.es3_labels.specs.Misplaced.{first_of};
ghost use Rattle.page_manifest.specs.Page.{es3, Page as Manifested};
ghost use Rattle.page_manifest.specs.View.{grants as grants_told, page as page_of, module_spec as module_of};
ghost use Rattle.page_cajole.specs.Pages.{granted_names, cajoled_outcome, module_outcome, numbered, page_outcome, source_outcome, IsCajoledPage};
ghost use Rattle.page_cajole.specs.Pages.{at_stage};
ghost use Rattle.page_cajole.specs.Dialects.{rule_stage};
ghost use Rattle.page_cajole.specs.PageAnswers.{Tells, refusal_of, runnable};
ghost use Rattle.page_cajole.specs.declared.CajoledModule.{CajoledModule};

use crate::text::{TextAnswer, read_text};
use crate::{Answer, CajoledModule, Dialect, cajole};
use caja_units::{Memory, Units};
use page_manifest::{Grant, Lang, ModuleSpec, Page};
use std::alloc::{AllocError, AllocFailed, Global};
use thiserror::Error;

/// What refuses a source: its stage, the number of the refusal there, and the byte of the source where it is, from 0.
#[derive(Clone, Copy, Debug, PartialEq, Eq)]
pub enum Stage {
    /// It isn't cut into tokens.
    Lex(u8, u32),
    /// Its tokens spell no program.
    Read(u8, u32),
    /// A jump of its program has no target, or a label is misplaced. There is one such refusal.
    Label(u32),
    /// It breaks a rule of Cajita.
    Rule(u8, u32),
    /// It breaks a rule of Valija.
    Valija(u8, u32),
}

/// Why a page isn't cajoled.
#[derive(Debug, Drop, Error)]
pub enum CajoleError {
    /// The first of its modules that is refused, by its number from 0, and what refuses it.
    #[error("module {0} is refused: {1:?}")]
    Module(u32, Stage),
    /// Memory is wanting.
    #[error("out of memory")]
    Memory,
}

impl From<Memory> for CajoleError {
    ghost use Rattle.std.specs.Prelude.{◌≡◌};
    ghost use Rattle.page_cajole.specs.declared.pages.CajoleError.TheVariants.{Memory};

    ghost from_gives = { λ _ e. e ≡ Memory };

    fn from(_error: Memory) -> CajoleError {
        CajoleError::Memory
    }
}

impl From<AllocError> for CajoleError {
    ghost use Rattle.std.specs.Prelude.{◌≡◌};
    ghost use Rattle.page_cajole.specs.declared.pages.CajoleError.TheVariants.{Memory};

    ghost from_gives = { λ _ e. e ≡ Memory };

    fn from(_error: AllocError) -> CajoleError {
        CajoleError::Memory
    }
}

impl<T: Drop> From<AllocFailed<T>> for CajoleError {
    ghost use Rattle.std.specs.Prelude.{◌≡◌};
    ghost use Rattle.page_cajole.specs.declared.pages.CajoleError.TheVariants.{Memory};

    ghost from_gives = { λ _ e. e ≡ Memory };

    fn from(_error: AllocFailed<T>) -> CajoleError {
        CajoleError::Memory
    }
}

/// The names under which a module is granted what it is.
fn granted(alloc: Global, grants: &[(Units, Grant)]) -> Result<Vec<Units>, Memory>
    ensures { IfOk result (λ names. names.items ≡ map (λ g. g.0) (grants_told grants.now)) }
{
    let mut names = Vec::new(alloc);
    for (name, _grant) in grants {
        names.push(name.copy(alloc)?)?;
    }
    Ok(names)
}

/// What refuses a source of this dialect that breaks a rule.
fn broken(dialect: Dialect, number: u8, place: u32) -> Stage
    ensures { refusal_of result ≡ at_stage (rule_stage dialect) number place }
{
    match dialect {
        Dialect::Cajita => Stage::Rule(number, place),
        Dialect::Valija => Stage::Valija(number, place),
    }
}

/// What runs for the module at this place, whose source is of this dialect.
fn cajoled(
    alloc: Global,
    dialect: Dialect,
    owner: &ModuleSpec,
    at: u32,
) -> Result<CajoledModule, CajoleError>
    ensures { Tells runnable result (numbered at (cajoled_outcome dialect (granted_names (module_of owner.now)) (module_of owner.now).source)) }
{
    let names = granted(alloc, &owner.grants)?;
    match cajole(alloc, dialect, &owner.source, &names)? {
        Answer::Module(cajoled) => Ok(cajoled),
        Answer::Uncut(number, place) => Err(CajoleError::Module(at, Stage::Lex(number, place))),
        Answer::Unread(number, place) => Err(CajoleError::Module(at, Stage::Read(number, place))),
        Answer::Broken(number, place) => {
            Err(CajoleError::Module(at, broken(dialect, number, place)))
        }
    }
}

/// What runs for the module at this place, whose source runs as it stands.
fn as_it_stands(alloc: Global, owner: &ModuleSpec, at: u32) -> Result<CajoledModule, CajoleError>
    ensures { Tells runnable result (numbered at (source_outcome es3 (granted_names (module_of owner.now)) (module_of owner.now).source)) }
{
    match read_text(alloc, &owner.source)? {
        TextAnswer::Program(program) => {
            let text = Vec::from_slice(alloc, &owner.source)?;
            Ok(CajoledModule { text, program })
        }
        TextAnswer::Uncut(number, place) => Err(CajoleError::Module(at, Stage::Lex(number, place))),
        TextAnswer::Unread(number, place) => {
            Err(CajoleError::Module(at, Stage::Read(number, place)))
        }
        TextAnswer::Misplaced(place) => Err(CajoleError::Module(at, Stage::Label(place))),
    }
}

/// What runs for the module at this place.
fn runs(alloc: Global, owner: &ModuleSpec, at: u32) -> Result<CajoledModule, CajoleError>
    ensures { Tells runnable result (numbered at (module_outcome (module_of owner.now))) }
{
    match owner.lang {
        Lang::Cajita => cajoled(alloc, Dialect::Cajita, owner, at),
        Lang::Valija => cajoled(alloc, Dialect::Valija, owner, at),
        Lang::Es3 => as_it_stands(alloc, owner, at),
    }
}

/// What runs for each module of a page, in the order in which they are loaded: the program that stands for a source of Cajita or Valija, with its printed text; or the
/// program of a text that runs as it stands, with that text.
///
/// # Errors
///
/// `Module` with the first module that a stage refuses, and `Memory` only where memory is wanting.
pub fn cajole_all(alloc: Global, page: &Page) -> Result<Vec<CajoledModule>, CajoleError>
    requires few { length (page_of page.now).modules < 2 ^ 32 }
    ensures { Tells (λ list. map runnable list.items) result (page_outcome (page_of page.now)) }
{
    let mut modules = Vec::new(alloc);
    for (i, owner) in page.modules.iter().enumerate() {
        modules.push(runs(alloc, owner, i as u32)?)?;
    }
    Ok(modules)
}

/// What `cajole_all` promises of each page: what runs for it is what runs for each of its modules, by that module's own language, source and granted names alone; and
/// it is refused just where a module is, with the first one that is; and each jump of what runs has its target.
pub fn a_page_is_what_its_modules_are()
    ensures { (p : Manifested) → IsCajoledPage p }
{}

/// So `labels` of es3_labels answers `None` on the program of each module that `cajole_all` gives for a page.
#[tactic(auto, using(crate::proofs::Runs::none_found))]
pub fn no_jump_of_what_runs_is_misplaced()
    ensures { (p : Manifested) (list : List CajoledModule) → page_outcome p ≡ Ok (map runnable list)
        → All (λ m. first_of (placed_program m.program) ≡ None) list }
{}
