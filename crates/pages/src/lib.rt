//! Pages: what deeds come to that are done one after another, over any language and whatever a deed is.
//!
//! The definitions stand in specs/. A page (specs/Pages.antt) is done by an `Evaluator`, which says how a deed begins, which turns it has, and what is kept of
//! the end of each. Two pages whose deeds go in pairs (specs/Pairs.antt) are simulated, by the three sentences of crate `matching`, from any counts of steps:
//! each pair owes that its turns are simulated one after another, from wherever both sides go on. What each deed of a page keeps (specs/Keeping.antt), the page
//! keeps, wherever it is cut.
//!
//! There is no code. The functions here have no body: their contracts are laws. Those that go over records of properties are of every type that has such a
//! record.
#![tactic(auto)]

ghost use Rattle.std.specs.Prelude.{◌≡◌, ℕ, ◌+◌, ◌≤◌, List, [], ◌∷◌, ◌++◌};
ghost use Rattle.plans.specs.Plans.{over, count_of, kept_of};
ghost use Rattle.matching.specs.Sentences.{IsFinished, SimulatedTo};
ghost use Rattle.pages.specs.Pages.{Evaluator, chain, deed, page, store_of, with_more};
ghost use Rattle.pages.specs.Pairs.{PageSides, DeedsPair, done};
ghost use Rattle.pages.specs.Keeping.{Wherever, Keeping, DeedsKeep};

/// A page without deeds is where it was, with all its steps.
pub fn a_page_of_no_deeds_does_nothing<D, R, T, E, X, I, S>()
    ensures { (L : Evaluator D R T E X I S) (n : ℕ) (r : R) (x : X) (z : S) → page L [] n r x z ≡ over r x z n }
{}

/// A page of one deed is that deed.
#[tactic(auto, using(crate::proofs::Steady::page_one))]
pub fn a_page_of_one_deed_is_that_deed<D, R, T, E, X, I, S>()
    ensures { (L : Evaluator D R T E X I S) (d : D) (n : ℕ) (r : R) (x : X) (z : S) → page L (d ∷ []) n r x z ≡ deed L d n r x z }
{}

/// A page of some deeds and then of others is the page of the ones, and then that of the others with the steps that are left.
#[tactic(auto, using(crate::proofs::Steady::page_append))]
pub fn deeds_are_done_one_after_another<D, R, T, E, X, I, S>()
    ensures { (L : Evaluator D R T E X I S) (ds es : List D) (n : ℕ) (r : R) (x : X) (z : S)
        → page L (ds ++ es) n r x z ≡ chain (page L ds n r x z) (λ r1 x1 z1 m. page L es m r1 x1 z1) }
{}

/// Where a page was not cut, it comes to the same with more steps, and has them left.
#[tactic(auto, using(crate::proofs::Steady::page_more))]
pub fn more_steps_change_no_end<D, R, T, E, X, I, S>()
    ensures { (L : Evaluator D R T E X I S) (ds : List D) (n j : ℕ) (r : R) (x : X) (z : S)
        → IsFinished (page L ds n r x z) → page L ds (n + j) r x z ≡ with_more j (page L ds n r x z) }
{}

/// No steps are won: what a page leaves is no more than it had.
#[tactic(auto, using(crate::proofs::Steady::page_spent))]
pub fn a_page_spends_steps<D, R, T, E, X, I, S>()
    ensures { (L : Evaluator D R T E X I S) (ds : List D) (n : ℕ) (r : R) (x : X) (z : S) → count_of (page L ds n r x z) ≤ n }
{}

/// A type that stands for two evaluators side by side. Each `PageSides` may be that of such a type, so that a law of every such type is one of every `PageSides`.
pub trait PageBesidePage<D, R, T, E, X, I, S, D1, R1, T1, E1, X1, I1, S1> {
    ghost pages: { PageSides D R T E X I S D1 R1 T1 E1 X1 I1 S1 };
}

/// The law of a page: two pages whose deeds go in pairs are simulated, from wherever both go on after i other deeds, after t steps of the left side and s of the
/// right one.
pub fn pages_in_pairs_are_simulated<
    D,
    R,
    T,
    E,
    X,
    I,
    S,
    D1,
    R1,
    T1,
    E1,
    X1,
    I1,
    S1,
    P: PageBesidePage<D, R, T, E, X, I, S, D1, R1, T1, E1, X1, I1, S1>,
>()
    ensures { (i : ℕ) (ds : List D) (ds1 : List D1) → DeedsPair P.pages i ds ds1 → (r : R) (x : X) (z : S) (t : ℕ) (r1 : R1) (x1 : X1) (z1 : S1) (s : ℕ) → P.pages.After i r x z t r1 x1 z1 s
        → SimulatedTo P.pages.sides (P.pages.After (done i ds)) t s (λ n. page P.pages.left ds n r x z) (λ m. page P.pages.right ds1 m r1 x1 z1) }
{}

/// Nothing that was kept when a page began is lost, wherever it is cut: of the left side.
pub fn what_is_kept_grows<
    D,
    R,
    T,
    E,
    X,
    I,
    S,
    D1,
    R1,
    T1,
    E1,
    X1,
    I1,
    S1,
    P: PageBesidePage<D, R, T, E, X, I, S, D1, R1, T1, E1, X1, I1, S1>,
>()
    ensures { (ds : List D) (n : ℕ) (r : R) (x : X) (z : S) → P.pages.sides.Longer z (kept_of (page P.pages.left ds n r x z)) }
{}

/// A type that stands for an evaluator with what its deeds keep.
pub trait KeepingPage<D, R, T, E, X, I, S> {
    ghost keeping: { Keeping D R T E X I S };
}

/// What each deed keeps, the page keeps, wherever it is cut; and what of it holds in the midst of deeds, holds however the page is left.
pub fn a_page_keeps_what_its_deeds_keep<D, R, T, E, X, I, S, K: KeepingPage<D, R, T, E, X, I, S>>()
    ensures at_its_end { (ds : List D) → DeedsKeep K.keeping ds → (n : ℕ) (r : R) (x : X) (z : S) → K.keeping.Holds r x z
        → Wherever K.keeping.Holds K.keeping.Cut (page K.keeping.evaluator ds n r x z) }
    ensures wherever_it_is_left { (ds : List D) → DeedsKeep K.keeping ds → (n : ℕ) (r : R) (x : X) (z : S) → K.keeping.Holds r x z
        → K.keeping.Cut (store_of (page K.keeping.evaluator ds n r x z)) (kept_of (page K.keeping.evaluator ds n r x z)) }
{}
