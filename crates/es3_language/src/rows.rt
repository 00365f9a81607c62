//! Worked rows: the values of small programs that run by themselves. The functions have no body: each one's contract is its row.

ghost use Rattle.std.specs.Prelude.{◌≡◌, pos, true, false, [], ◌∷◌, Some, None, codes};
ghost use Rattle.es3_tree.specs.Tree as t;
ghost use Rattle.es3_tree.specs.declared.BinOp.TheVariants as bin;
ghost use Rattle.es3_tree.specs.declared.UnOp.TheVariants as un;
ghost use Rattle.es3_objects.specs.declared.value.Value.TheVariants.{Undefined, Null, Bool, Num, Text};
ghost use Rattle.es3_language.specs.Rows.{value_of, body_of, returned};

/// `(function (a) { return a; })(true);` is true.
pub fn a_call_returns_its_argument()
    ensures { value_of (t.expression (t.call (t.function (t.fun None (codes "a" ∷ []) (body_of ((returned (t.name (codes "a"))) ∷ [])))) (t.more_exprs (t.bool true) t.no_exprs))) ≡ Some (Bool true) }
{}

/// `typeof x;` is `undefined` where no scope has the name.
pub fn typeof_asks_for_no_name()
    ensures { value_of (t.expression (t.unary un.Typeof (t.name (codes "x")))) ≡ Some (Text (codes "undefined")) }
{}

/// `(function f() { f = null; return typeof f; })();` is `function`.
pub fn an_own_name_is_not_written()
    ensures { value_of (t.expression (t.call (t.function (t.fun (Some (codes "f")) [] (body_of ((t.expression (t.assign None (t.name (codes "f")) t.null)) ∷ (returned (t.unary un.Typeof (t.name (codes "f")))) ∷ [])))) t.no_exprs)) ≡ Some (Text (codes "function")) }
{}

/// `(function (a, a) { return a; })(null, true);` is true.
pub fn the_last_of_two_parameters_counts()
    ensures { value_of (t.expression (t.call (t.function (t.fun None (codes "a" ∷ codes "a" ∷ []) (body_of ((returned (t.name (codes "a"))) ∷ [])))) (t.more_exprs t.null (t.more_exprs (t.bool true) t.no_exprs)))) ≡ Some (Bool true) }
{}

/// `(function (a, b) { a = 3; return arguments[0]; })(1, 2);` is 3: an item has the value of its parameter.
pub fn an_item_has_the_value_of_its_parameter()
    ensures { value_of (t.expression (t.call (t.function (t.fun None (codes "a" ∷ codes "b" ∷ []) (body_of ((t.expression (t.assign None (t.name (codes "a")) (t.num (pos 3)))) ∷ (returned (t.index (t.name (codes "arguments")) (t.num (pos 0)))) ∷ [])))) (t.more_exprs (t.num (pos 1)) (t.more_exprs (t.num (pos 2)) t.no_exprs)))) ≡ Some (Num (pos 3)) }
{}

/// `(function (a, a) { return arguments[0]; })(1, 2);` is 1: an item has its own argument, also where two parameters have one name.
pub fn an_item_has_its_own_argument()
    ensures { value_of (t.expression (t.call (t.function (t.fun None (codes "a" ∷ codes "a" ∷ []) (body_of ((returned (t.index (t.name (codes "arguments")) (t.num (pos 0)))) ∷ [])))) (t.more_exprs (t.num (pos 1)) (t.more_exprs (t.num (pos 2)) t.no_exprs)))) ≡ Some (Num (pos 1)) }
{}

/// `(function (a, a) { arguments[1] = 4; arguments[0] = 3; return a; })(1, 2);` is 4: the last item of a name has the value of the parameter.
pub fn the_last_item_of_a_name_is_its_parameter()
    ensures { value_of (t.expression (t.call (t.function (t.fun None (codes "a" ∷ codes "a" ∷ []) (body_of ((t.expression (t.assign None (t.index (t.name (codes "arguments")) (t.num (pos 1))) (t.num (pos 4)))) ∷ (t.expression (t.assign None (t.index (t.name (codes "arguments")) (t.num (pos 0))) (t.num (pos 3)))) ∷ (returned (t.name (codes "a"))) ∷ [])))) (t.more_exprs (t.num (pos 1)) (t.more_exprs (t.num (pos 2)) t.no_exprs)))) ≡ Some (Num (pos 4)) }
{}

/// `(function () { return f(); function f() { return null; } })();` is null.
pub fn a_declared_function_is_there_at_first()
    ensures { value_of (t.expression (t.call (t.function (t.fun None [] (body_of ((returned (t.call (t.name (codes "f")) t.no_exprs)) ∷ (t.declare (t.fun (Some (codes "f")) [] (body_of ((returned t.null) ∷ [])))) ∷ [])))) t.no_exprs)) ≡ Some Null }
{}

/// `{ x; var x = null; }` is undefined.
pub fn a_declared_name_is_undefined_at_first()
    ensures { value_of (t.block (body_of ((t.expression (t.name (codes "x"))) ∷ (t.var (t.more_items (codes "x") (t.some_expr t.null) t.no_items)) ∷ []))) ≡ Some Undefined }
{}

/// `(function (a) { return function () { return a; }; })(null)();` is null.
pub fn a_function_keeps_its_scopes()
    ensures { value_of (t.expression (t.call (t.call (t.function (t.fun None (codes "a" ∷ []) (body_of ((returned (t.function (t.fun None [] (body_of ((returned (t.name (codes "a"))) ∷ []))))) ∷ [])))) (t.more_exprs t.null t.no_exprs)) t.no_exprs)) ≡ Some Null }
{}

/// `new (function () { this.x = null; })().x;` is null.
pub fn new_makes_the_receiver()
    ensures { value_of (t.expression (t.dot (t.new (t.function (t.fun None [] (body_of ((t.expression (t.assign None (t.dot t.this (codes "x")) t.null)) ∷ [])))) t.no_exprs) (codes "x"))) ≡ Some Null }
{}

/// `(function () { try { return null; } finally { return true; } })();` is true.
pub fn a_finally_may_return_instead()
    ensures { value_of (t.expression (t.call (t.function (t.fun None [] (body_of ((t.try (body_of ((returned t.null) ∷ [])) t.no_handler (t.some_block (body_of ((returned (t.bool true)) ∷ [])))) ∷ [])))) t.no_exprs)) ≡ Some (Bool true) }
{}

/// `try { x; } catch (e) { typeof e; }` is `object`.
pub fn a_name_that_no_scope_has_throws()
    ensures { value_of (t.try (body_of ((t.expression (t.name (codes "x"))) ∷ [])) (t.some_handler (codes "e") (body_of ((t.expression (t.unary un.Typeof (t.name (codes "e")))) ∷ []))) t.no_block) ≡ Some (Text (codes "object")) }
{}

/// `with ({x: null}) x;` is null.
pub fn with_has_the_names_of_its_object()
    ensures { value_of (t.with_object (t.object (t.more_fields (codes "x") t.null t.no_fields)) (t.expression (t.name (codes "x")))) ≡ Some Null }
{}

/// `for (var k in {a: null, b: null}) k;` is `b`.
pub fn for_in_visits_each_key()
    ensures { value_of (t.for_in (t.loop_var (codes "k")) (t.object (t.more_fields (codes "a") t.null (t.more_fields (codes "b") t.null t.no_fields))) (t.expression (t.name (codes "k")))) ≡ Some (Text (codes "b")) }
{}

/// `l: for (var k in {a: null}) { k; for (;;) continue l; }` is `a`.
pub fn a_continue_with_a_label_goes_on_there()
    ensures { value_of (t.label (codes "l") (t.for_in (t.loop_var (codes "k")) (t.object (t.more_fields (codes "a") t.null t.no_fields)) (t.block (body_of ((t.expression (t.name (codes "k"))) ∷ (t.for_loop t.no_first t.no_expr t.no_expr (t.continue (Some (codes "l")))) ∷ []))))) ≡ Some (Text (codes "a")) }
{}

/// `(function () { var i = 0; while (i < 3) i++; return i; })();` is 3.
pub fn a_while_ends_by_its_test()
    ensures { value_of (t.expression (t.call (t.function (t.fun None [] (body_of ((t.var (t.more_items (codes "i") (t.some_expr (t.num (pos 0))) t.no_items)) ∷ (t.while_loop (t.binary bin.Less (t.name (codes "i")) (t.num (pos 3))) (t.expression (t.step true false (t.name (codes "i"))))) ∷ (returned (t.name (codes "i"))) ∷ [])))) t.no_exprs)) ≡ Some (Num (pos 3)) }
{}

/// `switch (1) { default: null; break; case 1: true; break; }` is true.
pub fn a_switch_begins_at_its_case()
    ensures { value_of (t.switch (t.num (pos 1)) (t.more_cases t.no_expr (body_of ((t.expression t.null) ∷ (t.break None) ∷ [])) (t.more_cases (t.some_expr (t.num (pos 1))) (body_of ((t.expression (t.bool true)) ∷ (t.break None) ∷ [])) t.no_cases))) ≡ Some (Bool true) }
{}

/// `switch (2) { case 1: true; break; default: null; break; }` is null.
pub fn a_switch_falls_back_to_its_default()
    ensures { value_of (t.switch (t.num (pos 2)) (t.more_cases (t.some_expr (t.num (pos 1))) (body_of ((t.expression (t.bool true)) ∷ (t.break None) ∷ [])) (t.more_cases t.no_expr (body_of ((t.expression t.null) ∷ (t.break None) ∷ [])) t.no_cases))) ≡ Some Null }
{}

/// `(function (a) { a += 2; return a++ + a; })(1);` is 7.
pub fn a_step_gives_the_number_before()
    ensures { value_of (t.expression (t.call (t.function (t.fun None (codes "a" ∷ []) (body_of ((t.expression (t.assign (Some bin.Add) (t.name (codes "a")) (t.num (pos 2)))) ∷ (returned (t.binary bin.Add (t.step true false (t.name (codes "a"))) (t.name (codes "a")))) ∷ [])))) (t.more_exprs (t.num (pos 1)) t.no_exprs))) ≡ Some (Num (pos 7)) }
{}

/// `1 && 0 || "x";` is `x`.
pub fn and_gives_its_first_false_side()
    ensures { value_of (t.expression (t.or (t.and (t.num (pos 1)) (t.num (pos 0))) (t.text (codes "x")))) ≡ Some (Text (codes "x")) }
{}

/// `"a" in {a: null};` is true.
#[tactic(auto, unfolding(es3_convert::specs::Conversions::text_within))]
pub fn in_asks_for_a_key()
    ensures { value_of (t.expression (t.binary bin.InObject (t.text (codes "a")) (t.object (t.more_fields (codes "a") t.null t.no_fields)))) ≡ Some (Bool true) }
{}

/// `(function (a) { return delete a; })(1);` is false.
pub fn a_name_of_a_call_is_not_deleted()
    ensures { value_of (t.expression (t.call (t.function (t.fun None (codes "a" ∷ []) (body_of ((returned (t.unary un.Delete (t.name (codes "a")))) ∷ [])))) (t.more_exprs (t.num (pos 1)) t.no_exprs))) ≡ Some (Bool false) }
{}

/// `[1, 2].length;` is 2.
pub fn an_array_has_its_length()
    ensures { value_of (t.expression (t.dot (t.array (t.more_exprs (t.num (pos 1)) (t.more_exprs (t.num (pos 2)) t.no_exprs))) (codes "length"))) ≡ Some (Num (pos 2)) }
{}
