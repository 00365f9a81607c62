//! The groups of a page's modules: which of them may touch the same things.
//!
//! Two modules are together where a cell or a root of the document is granted to both, or the result of one is granted to the other, and then so are those that are
//! together with either.
//! The definitions stand in specs/: what is linked, and the least partition that follows from it (specs/Links.antt); how its classes are listed
//! (specs/Groups.antt), for a page as its manifest tells of it (specs/Pages.antt).
//!
//! The functions without a body are laws: their contracts say what holds of these definitions.
#![tactic(auto)]

ghost use Rattle.std.specs.Prelude.{◌≡◌, ◌↔◌, ◌<◌, ℕ, List, [], ◌∷◌, map, length, slice_index, All};
ghost use Rattle.std.specs.List.Sorted.{IsStrictlyIncreasing};
ghost use Rattle.reach_report.specs.declared.Node.{Node};
ghost use Rattle.reach_report.specs.declared.Node.TheVariants.{Module};
ghost use Rattle.reach_report.specs.Links.{Links, Linked, representative, page_links};
ghost use Rattle.reach_report.specs.Groups.{groups, StandTogether, StandsInOne};
ghost use Rattle.reach_report.specs.Worked as worked;

mod list;
mod pages;

pub use list::groups;
pub use pages::{page_groups, page_links};

/// What may be together on a page: a module, a cell or a granted root of its document, each by its number from 0.
#[derive(Debug, Clone, Copy, PartialEq, Eq)]
pub enum Node {
    Module(u32),
    Cell(u32),
    Root(u32),
}

/// Two modules, cells or roots have one representative exactly where the least partition has them together.
#[tactic(auto, using(crate::proofs::Classes::groups_are_classes))]
pub fn representatives_tell_the_classes()
    ensures { (ls : Links) (a b : Node) → (representative ls a ≡ representative ls b) ↔ Linked ls a b }
{}

/// What is listed is the partition: two modules stand in one of the groups exactly where they are together.
#[tactic(auto, using(crate::proofs::Laws::the_partition_is_listed))]
pub fn the_groups_are_the_partition()
    ensures { (ls : Links) (m k n : ℕ) → m < n → k < n → StandTogether (groups ls n) m k ↔ Linked ls (Module m) (Module k) }
{}

/// Each module stands in exactly one group, and nothing else stands in any.
#[tactic(auto, using(crate::proofs::Laws::each_stands_in_one, crate::proofs::Laws::modules_alone))]
pub fn each_module_stands_in_one_group()
    ensures each_in_one { (ls : Links) (m n : ℕ) → m < n → StandsInOne (groups ls n) m }
    ensures modules_alone { (ls : Links) (n : ℕ) → All (All (λ m. m < n)) (groups ls n) }
{}

/// The modules of each group ascend; there is no group without modules; and the first modules of the groups ascend.
#[tactic(auto, using(crate::proofs::Laws::each_ascends, crate::proofs::Laws::none_is_empty, crate::proofs::Laws::first_ones_ascend))]
pub fn groups_are_listed_in_order()
    ensures each_ascends { (ls : Links) (n : ℕ) → All IsStrictlyIncreasing (groups ls n) }
    ensures none_is_empty { (ls : Links) (n : ℕ) → All (λ g. 0 < length g) (groups ls n) }
    ensures firsts_ascend { (ls : Links) (n : ℕ) → IsStrictlyIncreasing (map (λ g. slice_index g 0) (groups ls n)) }
{}

/// Where nobody is granted anything, each module is by itself.
pub fn modules_without_grants_are_apart()
    ensures { groups (page_links worked.nobody_is_granted_anything) 3 ≡ (0 ∷ []) ∷ (1 ∷ []) ∷ (2 ∷ []) ∷ [] }
{}

/// Two modules that are granted one cell are a group.
pub fn a_shared_cell_joins()
    ensures { groups (page_links worked.a_shared_cell) 2 ≡ (0 ∷ 1 ∷ []) ∷ [] }
{}

/// Two modules that are granted one root are a group, and one with another root is by itself.
pub fn a_shared_root_joins()
    ensures { groups (page_links worked.a_shared_root) 3 ≡ (0 ∷ 2 ∷ []) ∷ (1 ∷ []) ∷ [] }
{}

/// A module whose result is lent is in one group with who has it, and a third module is by itself.
pub fn a_lent_result_joins()
    ensures { groups (page_links worked.a_lent_counter) 3 ≡ (0 ∷ 1 ∷ []) ∷ (2 ∷ []) ∷ [] }
{}

/// Where each module has the result of the one before it, all are a group.
pub fn a_chain_of_results_joins_all()
    ensures { groups (page_links worked.a_chain_of_results) 4 ≡ (0 ∷ 1 ∷ 2 ∷ 3 ∷ []) ∷ [] }
{}

/// A module that is granted two cells joins those that have either, and leaves alone one that has a third cell.
pub fn a_module_joins_its_cells()
    ensures { groups (page_links worked.two_cells_that_a_module_joins) 4 ≡ (0 ∷ 2 ∷ 3 ∷ []) ∷ (1 ∷ []) ∷ [] }
{}
