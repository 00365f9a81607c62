//! What texts of all of ECMAScript 3 mean: the definitions stand in specs/. There is no code but the names of touches.
//!
//! The functions here have no body: each one's contract is a worked row, over any natives, store and steps.
#![tactic(auto)]

ghost use Rattle.std.specs.Prelude.{◌≡◌, ℕ, suc, List, [], ◌∷◌, Some, None};
ghost use Rattle.plans.specs.Plans.{over, out};
ghost use Rattle.es3_tree.specs.Tree as t;
ghost use Rattle.es3_objects.specs.declared.value.Value.TheVariants.{Null};
ghost use Rattle.es3_language.specs.Natives.{Table};
ghost use Rattle.es3_language.specs.Store.{Store, caught, with_scope};
ghost use Rattle.es3_language.specs.Meaning.{run_program, normal, threw};

pub mod rows;

/// How a text touches an object with a name.
#[derive(Clone, Copy, Debug, PartialEq, Eq)]
pub enum Touch {
    Get,
    Set,
    Delete,
    Has,
    Keys,
    Call,
    New,
}

/// A program without elements ends without a value, and takes no step.
pub fn an_empty_program_ends<S>()
    ensures { (T : Table S) (by : ℕ) (s : Store) (z : S) (n : ℕ) → run_program T (t.script t.no_stmts) by s z n ≡ over (normal None) s z n }
{}

/// `;` takes a step.
pub fn an_empty_statement_takes_a_step<S>()
    ensures none { (T : Table S) (by : ℕ) (s : Store) (z : S) → run_program T (t.script (t.more_stmts t.empty t.no_stmts)) by s z 0 ≡ out s z 0 }
    ensures one { (T : Table S) (by : ℕ) (s : Store) (z : S) (n : ℕ) → run_program T (t.script (t.more_stmts t.empty t.no_stmts)) by s z (suc n) ≡ over (normal None) s z n }
{}

/// `null; ;` has no value: a program keeps none from one element to the next. `{ null; ; }` has that of `null`.
pub fn a_block_keeps_a_value<S>()
    ensures program { (T : Table S) (by : ℕ) (s : Store) (z : S) (n : ℕ)
        → run_program T (t.script (t.more_stmts (t.expression t.null) (t.more_stmts t.empty t.no_stmts))) by s z (suc (suc (suc n))) ≡ over (normal None) s z n }
    ensures block { (T : Table S) (by : ℕ) (s : Store) (z : S) (n : ℕ)
        → run_program T (t.script (t.more_stmts (t.block (t.more_stmts (t.expression t.null) (t.more_stmts t.empty t.no_stmts))) t.no_stmts)) by s z (suc (suc (suc (suc n)))) ≡ over (normal (Some Null)) s z n }
{}

/// `for (;;) break;` ends, after a step for the loop and one for its body.
pub fn a_break_ends_its_loop<S>()
    ensures { (T : Table S) (by : ℕ) (s : Store) (z : S) (n : ℕ)
        → run_program T (t.script (t.more_stmts (t.for_loop t.no_first t.no_expr t.no_expr (t.break None)) t.no_stmts)) by s z (suc (suc n)) ≡ over (normal None) s z n }
{}

/// `do continue; while (null);` ends: the turn goes on to the test.
pub fn a_continue_goes_on_to_the_test<S>()
    ensures { (T : Table S) (by : ℕ) (s : Store) (z : S) (n : ℕ)
        → run_program T (t.script (t.more_stmts (t.do_loop (t.continue None) t.null) t.no_stmts)) by s z (suc (suc (suc n))) ≡ over (normal None) s z n }
{}

/// `l: { break l; }` ends.
pub fn a_break_ends_the_statement_of_its_label<S>()
    ensures { (T : Table S) (by : ℕ) (s : Store) (z : S) (n : ℕ)
        → run_program T (t.script (t.more_stmts (t.label (108 ∷ []) (t.block (t.more_stmts (t.break (Some (108 ∷ []))) t.no_stmts))) t.no_stmts)) by s z (suc (suc (suc n))) ≡ over (normal None) s z n }
{}

/// `try { throw null; } catch (e) { }` ends, and its name stands for what was thrown in a scope of its own.
pub fn what_is_thrown_is_caught<S>()
    ensures { (T : Table S) (e : List ℕ) (by : ℕ) (s : Store) (z : S) (n : ℕ)
        → run_program T (t.script (t.more_stmts (t.try (t.more_stmts (t.throw t.null) t.no_stmts) (t.some_handler e t.no_stmts) t.no_block) t.no_stmts)) by s z (suc (suc (suc n)))
        ≡ over (normal None) (with_scope caught ((e, Null) ∷ []) s) z n }
{}

/// `try { throw null; } finally { }` throws.
pub fn what_is_thrown_passes_a_finally<S>()
    ensures { (T : Table S) (by : ℕ) (s : Store) (z : S) (n : ℕ)
        → run_program T (t.script (t.more_stmts (t.try (t.more_stmts (t.throw t.null) t.no_stmts) t.no_handler (t.some_block t.no_stmts)) t.no_stmts)) by s z (suc (suc (suc n)))
        ≡ over (threw Null) s z n }
{}

/// `switch (null) { case null: break; default: null; }` ends behind its first clause.
pub fn a_break_ends_its_switch<S>()
    ensures { (T : Table S) (by : ℕ) (s : Store) (z : S) (n : ℕ)
        → run_program T (t.script (t.more_stmts (t.switch t.null (t.more_cases (t.some_expr t.null) (t.more_stmts (t.break None) t.no_stmts) (t.more_cases t.no_expr (t.more_stmts (t.expression t.null) t.no_stmts) t.no_cases))) t.no_stmts)) by s z (suc (suc (suc (suc n))))
        ≡ over (normal None) s z n }
{}
