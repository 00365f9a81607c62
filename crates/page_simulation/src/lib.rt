//! The page of rewritten modules does in the interpreter what the page of their sources does directly.
//!
//! The definitions stand in specs/ and the laws in proofs/; there is no code. The function here has no body: its contract is the law.
//!
//! Between two deeds both sides are related as between two turns (crate `cajita_simulation`), the results of loads correspond, and what a page begins with stands in its place
//! (proofs/Between.antt). Each deed of the one side and the same deed of the other begin there and end there (proofs/Loads.antt, Calls.antt, Ticks.antt, Happens.antt), so that the
//! law of pages whose deeds go in pairs (crate `pages`) gives that of whole pages.
#![tactic(auto)]

ghost use Rattle.std.specs.Prelude.{◌⊎◌, ◌≤◌, ℕ, Bool, List};
ghost use Rattle.html_kept.specs.Table.{Answers};
ghost use Rattle.doc_nodes.specs.Rows.{Doc};
ghost use Rattle.doc_laws.specs.Reached.{Reached};
ghost use Rattle.doc_views.specs.Clear.{IsClear};
ghost use Rattle.doc_views.specs.Came.{IsRuled};
ghost use Rattle.rows.specs.Nodes.{Rules};
ghost use Rattle.cajita_page.specs.DirectPage.{Deed};
ghost use Rattle.cajita_simulation.specs.Related.{IsBare};
ghost use Rattle.page_simulation.specs.Pages.{DeedsFit};
ghost use Rattle.page_simulation.specs.Correct.{PageCorrect};

/// A page of programs that stand for accepted modules does what the page of the modules does directly, over all loads and events, those of the nodes of its document too, under
/// the rules by which the document is changed: it ends alike, with the same nodes in each root, after at most 64 times as many steps; it ends only where the sources end; cut off
/// anywhere, it has told nothing but the sources' beginning, touches among it where they are asked for; and it never ends by a conversion that would run code.
#[tactic(auto, using(crate::proofs::Theorem::correct))]
pub fn a_page_does_what_its_sources_do()
    ensures { (rules : Rules) (modules cells : ℕ) → modules ≤ 64 → (doc : Doc) (a : Answers) → Reached doc → IsClear doc → IsBare doc ⊎ IsRuled a rules → (touching : Bool) (ds : List Deed) → DeedsFit modules cells doc 0 ds
        → PageCorrect rules modules cells doc a touching ds }
{}
