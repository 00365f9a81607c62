//! The stores in which a page and a text begin name live objects alone, and so does all that a module or a text comes to in them. There is no code: the functions
//! here have no bodies, and each one's contract is a law.
#![tactic(auto)]

ghost use Rattle.std.specs.Prelude.{ℕ, Bool};
ghost use Rattle.html_kept.specs.Table.{Answers};
ghost use Rattle.doc_nodes.specs.Rows.{Doc};
ghost use Rattle.es3_tree.specs.Tree as t;
ghost use Rattle.es3_live.specs.Live.{AreClosed};
ghost use Rattle.es3_kept.specs.Kept.{KeptRun};
ghost use Rattle.heap_rows.specs.Opening.{opened_for_one};
ghost use Rattle.page_natives.specs.Natives.{kept_fits};
ghost use Rattle.module_loader.specs.Page.{module_run};
ghost use Rattle.module_loader.specs.Turns.{page_objects};
ghost use Rattle.global_names.specs.Opening.{with_global_names};
ghost use Rattle.live_openings.specs.Texts.{text_run};

/// The store in which a page begins, with any modules, cells and document, names live objects alone.
#[tactic(auto, using(crate::proofs::Nodes::page_closed))]
pub fn a_page_begins_closed()
    ensures { (modules cells : ℕ) (d : Doc) → AreClosed (page_objects modules cells d) }
{}

/// So does the store in which a page of texts begins, with the global names.
#[tactic(auto, using(crate::proofs::Text::text_closed))]
pub fn a_page_of_texts_begins_closed()
    ensures { (modules cells : ℕ) (d : Doc) → AreClosed (with_global_names (page_objects modules cells d)) }
{}

/// A module, alone on its page: however its run comes to an end, with any number of steps, its store names live objects alone, and so does how it ended; no object is
/// gone or of another class; and what the natives keep fits the objects still.
#[tactic(auto, using(crate::proofs::Runs::module_kept))]
pub fn a_module_keeps_objects_live()
    ensures { (p : t.Tree t.program) (by n : ℕ) → KeptRun kept_fits opened_for_one (module_run p by n) }
{}

/// A text that runs as it stands, the first in its page: the same.
#[tactic(auto, using(crate::proofs::Runs::text_run_kept))]
pub fn a_text_keeps_objects_live()
    ensures { (modules cells : ℕ) (d : Doc) (touching : Bool) (a : Answers) (p : t.Tree t.program) (by n : ℕ)
        → KeptRun kept_fits (with_global_names (page_objects modules cells d)) (text_run modules cells d touching a p by n) }
{}
