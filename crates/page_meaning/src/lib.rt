//! What the page of rewritten modules shows is what their sources mean.
//!
//! The definitions stand in specs/: what a page comes to by either meaning over the trees of its document and what that shows (PageRuns.antt), that the one shows what the other means
//! (Means.antt), why it ends so (Causes.antt), that what is touched lies in reach (Reach.antt), what becomes of each source (Sources.antt, Texts.antt), and all of that of a page
//! (Meant.antt). There is no code. The functions here have no body: their contracts are the laws.
#![tactic(auto)]

ghost use Rattle.std.specs.Prelude.{ℕ, List};
ghost use Rattle.page_manifest.specs.Page.{Page};
ghost use Rattle.page_cajole.specs.declared.dialects.Dialect.{Dialect};
ghost use Rattle.page_meaning.specs.Sources.{IsSource};
ghost use Rattle.page_meaning.specs.Texts.{IsText};
ghost use Rattle.page_meaning.specs.Meant.{IsPage, IsMeant};

/// A page of modules in Cajita is meant: its sources are what they are just where that is so; where it has a document, what it grants and asks for there is the node with the id that it names; and where
/// all are accepted besides, the page of the programs that stand for them shows what they mean, its document has the same nodes in the end, and it ends for the causes for which they do and touches
/// what lies in reach alone.
pub fn an_accepted_page_is_meant()
    ensures { (p : Page) → IsPage p → IsMeant p }
{}

/// What becomes of a source that is granted names.
#[tactic(auto, using(crate::proofs::Sources::is_source))]
pub fn a_source_is_cajoled_or_refused()
    ensures { (dialect : Dialect) (granted : List (List ℕ)) (source : List ℕ) → IsSource dialect granted source }
{}

/// What becomes of a text that runs as it stands.
#[tactic(auto, using(crate::proofs::Texts::is_text))]
pub fn a_text_runs_or_is_refused()
    ensures { (source : List ℕ) → IsText source }
{}
