//! Texts that end otherwise than by a value, and the steps that texts take: the words, the text, and what it gives.

/// Numbers that are no whole numbers in range: no `catch` and no `finally` runs (status 7).
pub static NUMBER_FAULTS: &str = "
run ⇒ 1 / 2; ⇒ end number
run ⇒ 1 / 0; ⇒ end number
run ⇒ 1 % 0; ⇒ end number
run ⇒ 9007199254740991 * 2; ⇒ end number
run ⇒ -9007199254740991 - 1; ⇒ end number
run ⇒ undefined + 1; ⇒ end number
run ⇒ +undefined; ⇒ end number
run ⇒ ~undefined; ⇒ end number
run ⇒ +'1.5'; ⇒ end number
run ⇒ '1e3' * 1; ⇒ end number
run ⇒ '-0x10' * 1; ⇒ end number
run ⇒ [1, 2] * 1; ⇒ end number
run ⇒ ({}) * 1; ⇒ end number
run ⇒ undefined < 1; ⇒ end number
run ⇒ 'a' < 1; ⇒ end number
run ⇒ 'a' == 1; ⇒ end number
run ⇒ true == 'true'; ⇒ end number
run ⇒ var x; x++; ⇒ end number
run ⇒ var x = 9007199254740991; x++; ⇒ end number
run ⇒ (function f() { f++; })(); ⇒ end number
run ⇒ var x = 1; x /= 2; ⇒ end number
run ⇒ try { 1 / 0; } catch (e) { 1; } ⇒ end number
run ⇒ try { 1 / 0; } finally { throw 1; } ⇒ end number
run ⇒ function f() { try { return 1 / 2; } finally { return 1; } } f(); ⇒ end number
run ⇒ undefined - {toString: 1}; ⇒ end number
run --steps 4 ⇒ 1 / 0; ⇒ end number
";

/// More than 1,000 open calls, or arrays nested more than 32 deep in a conversion (status 8).
pub static DEPTH_FAULTS: &str = "
run ⇒ function f(n) { return n === 0 ? 0 : f(n - 1); } f(1000); ⇒ end depth
run ⇒ function f() { f(); } f(); ⇒ end depth
run ⇒ function f() { try { f(); } catch (e) { 1; } finally { 2; } } f(); ⇒ end depth
run ⇒ function F() { new F(); } new F(); ⇒ end depth
run ⇒ function f() { with ({g: f}) g(); } f(); ⇒ end depth
run ⇒ var a = []; for (var i = 0; i < 32; i++) a = [a]; '' + a; ⇒ end depth
run ⇒ var a = []; a[0] = a; a * 1; ⇒ end depth
run ⇒ var a = []; a[0] = a; ({})[a]; ⇒ end depth
run ⇒ var a = [1]; a[1] = a; try { a == 1; } catch (e) { 1; } ⇒ end depth
";

/// Objects whose conversion would run code of the text (status 11).
pub static CONVERT_FAULTS: &str = "
run ⇒ ({toString: 1}) + ''; ⇒ end convert
run ⇒ ({valueOf: 1}) + ''; ⇒ end convert
run ⇒ ({toString: undefined}) * 1; ⇒ end convert
run ⇒ +{valueOf: function () { return 1; }}; ⇒ end convert
run ⇒ function F() {} F.prototype.valueOf = 1; new F() < 1; ⇒ end convert
run ⇒ var f = function () {}; f.toString = 1; f + ''; ⇒ end convert
run ⇒ [1, {valueOf: 0}] + ''; ⇒ end convert
run ⇒ var a = []; a.toString = 1; a == ''; ⇒ end convert
run ⇒ var o = {}; o[{toString: 1}] = 1; ⇒ end convert
run ⇒ ({toString: 1}) in {}; ⇒ end convert
run ⇒ var x = {valueOf: 1}; x++; ⇒ end convert
run ⇒ ({toString: 1}) - undefined; ⇒ end convert
run ⇒ try { ({toString: 1}) + ''; } catch (e) { 1; } finally { throw 2; } ⇒ end convert
";

/// Texts without an end (status 9).
pub static ENDLESS: &str = "
run --steps 50 ⇒ while (true) {} ⇒ end steps
run --steps 1000 ⇒ for (;;) ; ⇒ end steps
run --steps 1000 ⇒ do continue; while (1); ⇒ end steps
run --steps 1000 ⇒ a: for (;;) for (;;) continue a; ⇒ end steps
run --steps 1000 ⇒ try { while (1) ; } finally { 1; } ⇒ end steps
run --steps 1000 ⇒ try { for (;;) ; } catch (e) { 1; } ⇒ end steps
run --steps 1000 ⇒ for (;;) try { throw 1; } catch (e) {} ⇒ end steps
run --steps 1000 ⇒ function f() { f(); } f(); ⇒ end steps
";

/// As many steps as a text takes: one for each statement and expression that is entered, targets among them, and for each key of a `for` .. `in`.
pub static EXACT_BUDGETS: &str = "
run --steps 3 ⇒ 1; var x; ⇒ return undefined
run --steps 6 ⇒ 1, 2, 3; ⇒ return 3
run --steps 4 ⇒ 1 ? 2 : 3; ⇒ return 2
run --steps 3 ⇒ 0 && 1; ⇒ return 0
run --steps 6 ⇒ [1, 2][0]; ⇒ return 1
run --steps 3 ⇒ typeof x; ⇒ return \"undefined\"
run --steps 4 ⇒ x = 1; ⇒ return 1
run --steps 6 ⇒ var x = 1; x += 2; ⇒ return 3
run --steps 5 ⇒ var x = 1; x++; ⇒ return 1
run --steps 7 ⇒ var o = {a: 1}; delete o.a; ⇒ return true
run --steps 7 ⇒ function f(a) { return a; } f(1); ⇒ return 1
run --steps 3 ⇒ new function () {}; ⇒ return record ?
run --steps 3 ⇒ if (1) ; else ; ⇒ return undefined
run --steps 2 ⇒ while (0) ; ⇒ return undefined
run --steps 4 ⇒ do { continue; } while (0); ⇒ return undefined
run --steps 17 ⇒ for (var i = 0; i < 2; i++) ; ⇒ return undefined
run --steps 10 ⇒ for (var k in {a: 1, b: 2}) k; ⇒ return \"b\"
run --steps 6 ⇒ for (k in {a: 1}) ; ⇒ return undefined
run --steps 12 ⇒ var o = {a: 1, b: 2}; for (var k in o) delete o.b; ⇒ return true
run --steps 4 ⇒ a: b: { break a; } ⇒ return undefined
run --steps 6 ⇒ switch (1) { case 0: case 1: ; default: ; } ⇒ return undefined
run --steps 6 ⇒ try { throw 1; } catch (e) { e; } finally { ; } ⇒ return 1
run --steps 5 ⇒ with ({a: 1}) a; ⇒ return 1
run --steps 10001 ⇒ function f(n) { return n === 0 ? 0 : f(n - 1); } f(999); ⇒ return 0
";

/// The same texts with one step less (status 9).
pub static SHORT_BUDGETS: &str = "
run --steps 2 ⇒ 1; var x; ⇒ end steps
run --steps 5 ⇒ 1, 2, 3; ⇒ end steps
run --steps 3 ⇒ 1 ? 2 : 3; ⇒ end steps
run --steps 2 ⇒ 0 && 1; ⇒ end steps
run --steps 5 ⇒ [1, 2][0]; ⇒ end steps
run --steps 2 ⇒ typeof x; ⇒ end steps
run --steps 3 ⇒ x = 1; ⇒ end steps
run --steps 5 ⇒ var x = 1; x += 2; ⇒ end steps
run --steps 4 ⇒ var x = 1; x++; ⇒ end steps
run --steps 6 ⇒ var o = {a: 1}; delete o.a; ⇒ end steps
run --steps 6 ⇒ function f(a) { return a; } f(1); ⇒ end steps
run --steps 2 ⇒ new function () {}; ⇒ end steps
run --steps 2 ⇒ if (1) ; else ; ⇒ end steps
run --steps 1 ⇒ while (0) ; ⇒ end steps
run --steps 3 ⇒ do { continue; } while (0); ⇒ end steps
run --steps 16 ⇒ for (var i = 0; i < 2; i++) ; ⇒ end steps
run --steps 9 ⇒ for (var k in {a: 1, b: 2}) k; ⇒ end steps
run --steps 5 ⇒ for (k in {a: 1}) ; ⇒ end steps
run --steps 11 ⇒ var o = {a: 1, b: 2}; for (var k in o) delete o.b; ⇒ end steps
run --steps 3 ⇒ a: b: { break a; } ⇒ end steps
run --steps 5 ⇒ switch (1) { case 0: case 1: ; default: ; } ⇒ end steps
run --steps 5 ⇒ try { throw 1; } catch (e) { e; } finally { ; } ⇒ end steps
run --steps 4 ⇒ with ({a: 1}) a; ⇒ end steps
run --steps 10000 ⇒ function f(n) { return n === 0 ? 0 : f(n - 1); } f(999); ⇒ end steps
run --steps 3 ⇒ 1 / 0; ⇒ end steps
";
