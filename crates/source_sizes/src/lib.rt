//! How many temporaries a source can ask for: no more than three for each of its bytes.
//!
//! A rewritten module has temporaries for its steps, its assignments and its `for .. in` loops (ES3 11.3.1, 11.4.4, 11.13, 12.6.4). Each of these has a
//! token of its own in the source, and each token a byte. specs/Sizes.antt counts them in a tree with places; the proofs go by the derivations of the
//! grammar (proofs/Spelled.antt), by the forms of a tree (proofs/Counted.antt) and by the characters of a source (proofs/Cut.antt). There is no code. The
//! functions here have no bodies: their contracts are the laws.
#![tactic(auto)]

ghost use Rattle.std.specs.Prelude.{ℕ, ◌≡◌, ◌<◌, ◌≤◌, ◌+◌, ◌*◌, List, Some, Ok, length};
ghost use Rattle.es3_tree.specs.Tree as t;
ghost use Rattle.es3_tree.specs.Placed.{Placed};
ghost use Rattle.es3_tokens.specs.Tokens as tokens;
ghost use Rattle.es3_tokens.specs.Cut.{cut};
ghost use Rattle.es3_grammar.specs.Spots.{Spot};
ghost use Rattle.es3_grammar.specs.Grammar.{Bars, free, Spells, spells};
ghost use Rattle.cajita_tree.specs.Tree as c;
ghost use Rattle.cajita_rewrite.specs.Rewrite.{temps};
ghost use Rattle.scope_rules.specs.Resolve.{of_sort, resolved, module_of};
ghost use Rattle.source_sizes.specs.Sizes.{statements, writes, inner_writes, temps_of, temps_everywhere};

/// Each step, assignment and `for .. in` loop of a part has a token of its own among those that spell the part.
#[tactic(auto, using(crate::proofs::Spelled::writes_have_tokens))]
pub fn each_write_has_a_token()
    ensures { (s : t.Sort) (b : Bars) (l : ℕ) (x : Placed s) (u : List Spot) → Spells s b l x u → writes s x ≤ length u }
{}

/// So have those of the functions in the part, and of functions in these.
#[tactic(auto, using(crate::proofs::Spelled::all_writes_have_tokens))]
pub fn each_write_in_a_function_has_a_token()
    ensures { (s : t.Sort) (b : Bars) (l : ℕ) (x : Placed s) (u : List Spot) → Spells s b l x u → writes s x + inner_writes s x ≤ length u }
{}

/// A source that is cut keeps the limit, and has no more tokens than bytes.
#[tactic(auto, using(crate::proofs::Cut::source_fits, crate::proofs::Cut::tokens_fit))]
pub fn each_token_has_a_byte()
    ensures limit { (n : ℕ) (source : List ℕ) (ts : List tokens.Placed) → cut n source ≡ Ok ts → length source ≤ n }
    ensures tokens { (n : ℕ) (source : List ℕ) (ts : List tokens.Placed) → cut n source ≡ Ok ts → length ts ≤ length source }
{}

/// A resolved part takes at most three temporaries for each write in it.
#[tactic(auto, using(crate::proofs::Sizes::few_temporaries))]
pub fn each_write_takes_three_temporaries_at_most()
    ensures { (s : t.Sort) (x : Placed s) (y : c.Tree (of_sort s)) → resolved s x ≡ Some y → temps (of_sort s) y ≤ 3 * writes s x }
{}

/// Tokens that spell a module spell one with at most three temporaries for each of them, and a source for each of its bytes; with fewer than 2 to the 32 where it keeps the limit of
/// 512 KiB for what is cajoled. So it is where those of all functions of the module are counted together with its own.
#[tactic(auto, using(crate::proofs::Sizes::three_a_token, crate::proofs::Sizes::three_a_byte, crate::proofs::Sizes::below_the_limit, crate::proofs::Sizes::three_a_byte_everywhere, crate::proofs::Sizes::below_the_limit_everywhere))]
pub fn a_source_takes_few_temporaries()
    ensures by_tokens { (u : List Spot) (p : Placed t.program) (grants : List (List ℕ)) (m : c.Tree c.program) →
        Spells t.program free 0 p u → module_of grants (statements p) ≡ Some m → temps_everywhere m ≤ 3 * length u }
    ensures by_length { (n : ℕ) (source : List ℕ) (p : Placed t.program) (ts : List tokens.Placed) (grants : List (List ℕ)) (m : c.Tree c.program) →
        cut n source ≡ Ok ts → spells p ts → module_of grants (statements p) ≡ Some m → temps_of m ≤ 3 * length source }
    ensures bounded { (source : List ℕ) (p : Placed t.program) (ts : List tokens.Placed) (grants : List (List ℕ)) (m : c.Tree c.program) →
        cut 524288 source ≡ Ok ts → spells p ts → module_of grants (statements p) ≡ Some m → temps_of m < 4294967296 }
    ensures everywhere { (n : ℕ) (source : List ℕ) (p : Placed t.program) (ts : List tokens.Placed) (grants : List (List ℕ)) (m : c.Tree c.program) →
        cut n source ≡ Ok ts → spells p ts → module_of grants (statements p) ≡ Some m → temps_everywhere m ≤ 3 * length source }
    ensures bounded_everywhere { (source : List ℕ) (p : Placed t.program) (ts : List tokens.Placed) (grants : List (List ℕ)) (m : c.Tree c.program) →
        cut 524288 source ≡ Ok ts → spells p ts → module_of grants (statements p) ≡ Some m → temps_everywhere m < 4294967296 }
{}
