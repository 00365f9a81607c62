//! Isolation of pages: two pages of Cajita modules that agree on a group of modules give that group the same items, in the direct meaning.
//!
//! When two pages agree on a group is specs/Agree.antt, what is promised of them specs/Promises.antt; specs/Worked.antt has pages to be looked at. The proofs go
//! from the laws of turns (crate cajita_laws) to deeds (proofs/Deeds.antt) and from those to pages (proofs/Isolates.antt). There is no code. The functions here
//! have no bodies: their contracts are the laws.
#![tactic(auto)]

ghost use Rattle.std.specs.Prelude.{◌≡◌, ℕ, List, [], ◌∷◌};
ghost use Rattle.page_deeds.specs.Deeds.{to_call};
ghost use Rattle.cajita_tree.specs.Tree as c;
ghost use Rattle.cajita_page.specs.DirectPage.{Deed};
ghost use Rattle.page_isolation.specs.Agree.{Agrees};
ghost use Rattle.page_isolation.specs.Promises.{PagesIsolate, PagesKeepApart};
ghost use Rattle.page_isolation.specs.Worked.{the_first, a_cell_alone, a_result_alone, two_modules};

/// Two pages that agree on a group of modules give it the same items, where both come to their end, whatever number of steps each has: what the group's modules
/// touch, say, make and get, what they are granted and what they pass, and how each of their turns ends. The group's part of the world is the same then, and
/// so are the results of its modules.
pub fn pages_that_agree_give_a_group_the_same_items()
    ensures items { PagesIsolate }
    ensures worlds { PagesKeepApart }
{}

/// Pages agree on a module and its cell whatever the other module is: in the one page it has a cell of its own, in the other one nothing, and another key of it
/// is called.
pub fn pages_with_other_modules_agree()
    ensures { (p q s : c.Tree c.program) (key other : List ℕ) → Agrees the_first (two_modules p q (a_cell_alone 1) key) (two_modules p s [] other) }
{}

/// A page in which the other module is granted that cell, or the result of that module, agrees with no page.
pub fn a_page_that_shares_agrees_with_none()
    ensures cell { (p q : c.Tree c.program) (key : List ℕ) (ds : List Deed) → Agrees the_first (two_modules p q (a_cell_alone 0) key) ds → ⊥ }
    ensures result { (p q : c.Tree c.program) (key : List ℕ) (ds : List Deed) → Agrees the_first (two_modules p q (a_result_alone 0) key) ds → ⊥ }
{}

/// Pages that agree on a module call the same key of it.
pub fn pages_that_agree_call_the_same_keys()
    ensures { (k l : List ℕ) → Agrees the_first (to_call 0 0 k [] ∷ []) (to_call 0 0 l [] ∷ []) → k ≡ l }
{}
