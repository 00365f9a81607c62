//! Pages that agree on a group of modules give that group the same lines, and leave its roots with the same nodes.
//!
//! When two pages agree on a group is specs/Agree.antt, which lines of a log are a group's specs/Lines.antt, and what is promised of an accepted page specs/Isolated.antt; specs/Worked.antt has pages
//! to be looked at. The proof: a root has the number of its id (proofs/Roots.antt); nothing of a group is granted to others, and nothing of others to it (proofs/Groups.antt); so the deeds of two pages
//! that agree on it go in pairs, once the cells and roots of the second one have the numbers of the first one's (proofs/Agrees.antt), where each event is done on the same node of a root of the group, or
//! on nodes of others' roots (proofs/Targets.antt); and both tell the same of the group, and leave its roots with the same nodes (crate page_isolation). What is told speaks of no cell and no root but the
//! group's (proofs/Own.antt), and reads the same under the names of either page (proofs/Shown.antt, Direct.antt). What an accepted page writes is what its sources tell (proofs/Told.antt, Isolated.antt).
//! There is no code. The functions here have no bodies: their contracts are the laws.
#![tactic(auto)]

ghost use Rattle.std.specs.Prelude.{◌≡◌, ℕ, List, [], ◌∷◌, Contains};
ghost use Rattle.html_grammar.specs.Trees.{many, Tree};
ghost use Rattle.page_deeds.specs.Deeds.{of_tick, of_click};
ghost use Rattle.page_deeds.specs.Shown.{by_nothing};
ghost use Rattle.event_script.specs.Events.{Asked};
ghost use Rattle.rows.specs.Document.{Change};
ghost use Rattle.heap_rows.specs.Doing.{said, changed_node, ended};
ghost use Rattle.page_manifest.specs.Page.{cajita, es3, Module, Page};
ghost use Rattle.page_manifest.specs.Valid.{IsValid};
ghost use Rattle.reach_report.specs.Pages.{page_groups};
ghost use Rattle.page_meaning.specs.Meant.{IsPage};
ghost use Rattle.page_documents.specs.Documents.{page_doc, IsDocument};
ghost use Rattle.page_agreement.specs.Agree.{IsRootOf, root_nodes, AgreeOn};
ghost use Rattle.page_agreement.specs.Lines.{told_of};
ghost use Rattle.page_agreement.specs.Isolated.{IsIsolated};
ghost use Rattle.page_agreement.specs.Worked.{first_module, second_module, two_modules, one_board, one_desk, desk_and_board, only_the_cell, only_the_result, the_first, the_second};
ghost use Rattle.page_agreement.specs.Worked.{list_alone, menu_and_list, list_with_b, one_root, two_roots, shared_root};

/// An accepted page gives a group the lines that each accepted page gives it which agrees with it on the group, where both do all their deeds, each with any number of steps, and leaves the roots of
/// the group with the same nodes; and what runs for the group's modules is the same.
pub fn pages_that_agree_give_a_group_the_same_lines()
    ensures { (p : Page) → IsPage p → IsIsolated p }
{}

/// Of one document a root has the same nodes in each page that grants it, whatever other roots that page grants: so pages with the same document agree on a group where its modules do, the names of all
/// modules, and the events.
pub fn the_same_document_begins_alike()
    ensures { (p q : Page) (ts : Tree many) → IsDocument p ts → IsDocument q ts → (g : List ℕ) (id : List ℕ) → IsRootOf p g id → IsRootOf q g id → root_nodes p (page_doc p ts) id ≡ root_nodes q (page_doc q ts) id }
{}

/// A page agrees with itself on each of its groups, and if one agrees with another, that one does with it.
pub fn agreement_is_mutual()
    ensures itself { (p : Page) (ts : Tree many) → IsValid p → (g : List ℕ) → Contains (page_groups p) g → AgreeOn p ts p ts g }
    ensures back { (p : Page) (ts : Tree many) (q : Page) (us : Tree many) (g : List ℕ) → AgreeOn p ts q us g → AgreeOn q us p ts g }
{}

/// Of a group's lines each is of one of its modules or roots, and none is lost.
pub fn a_group_has_the_lines_of_its_modules_and_roots()
    ensures modules { (p : Page) (k : ℕ) (us vs : List ℕ) → told_of p the_first (said 0 us ∷ said 1 vs ∷ ended (of_tick k 0) by_nothing ∷ []) ≡ said 0 us ∷ ended (of_tick k 0) by_nothing ∷ [] }
    ensures changes { (source other : List ℕ) (es : List Asked) (n : ℕ) (c : Change) → told_of (two_roots source other es) the_second (changed_node 0 n c ∷ changed_node 1 n c ∷ []) ≡ changed_node 1 n c ∷ [] }
    ensures clicks { (source other id : List ℕ) (es : List Asked) (k : ℕ) → told_of (two_roots source other es) the_second (ended (of_click k id 1) by_nothing ∷ ended (of_click k id 0) by_nothing ∷ []) ≡ ended (of_click k id 1) by_nothing ∷ [] }
{}

/// Pages agree on a module which is granted the cell `board` in both, whatever number the cell has, whatever stands in their documents, and whatever language, source and cells the other module has.
pub fn pages_with_other_modules_and_cells_agree()
    ensures { (ts us : Tree many) (source other another : List ℕ) (es : List Asked)
        → AgreeOn (two_modules one_board (first_module source 0) (second_module cajita other []) es) ts (two_modules desk_and_board (first_module source 1) (second_module es3 another (only_the_cell 0)) es) us the_first }
{}

/// Pages don't agree on a module whose cell has another name, though its number is the same; nor where there is one event more.
pub fn pages_with_another_cell_or_event_do_not_agree()
    ensures cell { (ts us : Tree many) (source : List ℕ) (m n : Module) (es : List Asked) → AgreeOn (two_modules one_board (first_module source 0) m es) ts (two_modules one_desk (first_module source 0) n es) us the_first → ⊥ }
    ensures event { (ts us : Tree many) (cells others : List (List ℕ)) (m n k l : Module) (e : Asked) (es : List Asked) (g : List ℕ) → AgreeOn (two_modules cells m n es) ts (two_modules others k l (e ∷ es)) us g → ⊥ }
{}

/// Pages agree on a module with the root `list`, though in the one it is the only root and in the other the second, behind one of another module, and there is more in the document.
pub fn pages_with_another_root_agree()
    ensures { (source another other : List ℕ) (es : List Asked) → AgreeOn (one_root source other es) list_alone (two_roots another other es) menu_and_list the_second }
{}

/// They don't where one node more stands in the root at the beginning.
pub fn pages_that_begin_with_other_nodes_do_not_agree()
    ensures { (source other : List ℕ) (es : List Asked) → AgreeOn (one_root source other es) list_alone (one_root source other es) list_with_b the_second → ⊥ }
{}

/// A page in which another module is granted the module's cell, its root, or its result, agrees with no page on that module alone.
pub fn a_page_that_shares_agrees_with_none()
    ensures cell { (p : Page) (ts us : Tree many) (source other : List ℕ) (es : List Asked) → AgreeOn p ts (two_modules one_board (first_module source 0) (second_module cajita other (only_the_cell 0)) es) us the_first → ⊥ }
    ensures root { (p : Page) (ts us : Tree many) (source other : List ℕ) (es : List Asked) → AgreeOn p ts (shared_root source other es) us the_first → ⊥ }
    ensures result { (p : Page) (ts us : Tree many) (source other : List ℕ) (es : List Asked) → AgreeOn p ts (two_modules one_board (first_module source 0) (second_module cajita other only_the_result) es) us the_first → ⊥ }
{}
