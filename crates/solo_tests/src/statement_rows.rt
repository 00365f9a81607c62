//! Modules of statements without functions and calls: the source, and what its load gives.

use command_runs::tables::check_loads;
use std::test::Fail;

/// Blocks, `if` and `else`, and the empty statement (ES3 12.1, 12.3, 12.5).
static BLOCKS: &str = "
; 1; ⇒ return 1
{} 2; ⇒ return 2
{ 1; 2; } 3; ⇒ return 3
{ var b = 4; } b; ⇒ return 4
var a = 1; if (a) a = 5; a; ⇒ return 5
var a = 0; if (a) a = 5; a; ⇒ return 0
var a = 0; if (a) a = 5; else a = 6; a; ⇒ return 6
var a = 2; if (a === 1) a = 10; else if (a === 2) a = 20; else a = 30; a; ⇒ return 20
var a = ''; if ([]) a += 'array '; if ('') a += 'empty '; if (null) a += 'null '; else a += 'none'; a; ⇒ return \"array none\"
var a = 0; if (true) { if (false) a = 1; else a = 2; } a; ⇒ return 2
var o = {a: 1}; if ('a' in o) { delete o.a; } 'a' in o; ⇒ return false
";

/// `while`, `do` and `for`, with `break` and `continue` (12.6 to 12.8).
static LOOPS: &str = "
var i = 0, s = 0; while (i < 5) { s += i; i++; } s; ⇒ return 10
var i = 3; while (i) i--; i; ⇒ return 0
var s = ''; while (false) s = 'never'; s; ⇒ return \"\"
var i = 0; while (true) { if (i === 4) break; i++; } i; ⇒ return 4
var i = 0, s = ''; while (i < 6) { i++; if (i % 2) continue; s += i; } s; ⇒ return \"246\"
var i = 10; do i++; while (false); i; ⇒ return 11
var i = 0; do { i += 2; if (i > 5) break; } while (i < 100); i; ⇒ return 6
var i = 0, s = ''; do { i++; if (i === 2) continue; s += i; } while (i < 4); s; ⇒ return \"134\"
var s = 0; for (var i = 0; i < 4; i++) s += i; s + ' ' + i; ⇒ return \"6 4\"
var i, s = ''; for (i = 0; i < 3; ++i) { s += i; } s + i; ⇒ return \"0123\"
var i = 0; for (;;) { if (i > 6) break; i += 3; } i; ⇒ return 9
var i = 0, n = 0; for (; i < 3; i++) n += 10; n; ⇒ return 30
var i = 0, n = 0; for (; i < 3;) { n += 10; i++; } n; ⇒ return 30
var n = 0; for (var i = 0, j = 10; i < j; i++, j--) n++; n; ⇒ return 5
var s = ''; for (var i = 0; i < 3; i++) { for (var j = 0; j < 3; j++) { if (j === i) continue; s += i; s += j; s += ' '; } } s; ⇒ return \"01 02 10 12 20 21 \"
var s = ''; for (var i = 0; i < 5; i++) { if (i === 1) continue; if (i === 4) break; s += i; } s; ⇒ return \"023\"
var a = [3, 1, 2], n = a.length, s = 0; for (var i = 0; i < n; i++) { s += a[i]; } s; ⇒ return 6
var a = [3, 1, 2], i, j, t; for (i = 0; i < 3; i++) for (j = 0; j < 2; j++) if (a[j] > a[j + 1]) { t = a[j]; a[j] = a[j + 1]; a[j + 1] = t; } a + ''; ⇒ return \"1,2,3\"
var a = 0, b = 1, t, i = 0; while (i < 20) { t = a + b; a = b; b = t; i++; } a; ⇒ return 6765
var n = 27, c = 0; while (n !== 1) { n = n % 2 ? 3 * n + 1 : n / 2; c++; } c; ⇒ return 111
var s = '', i = 2, j, p; for (; i < 30; i++) { p = true; for (j = 2; j * j <= i; j++) { if (i % j === 0) { p = false; break; } } if (p) s += i + ' '; } s; ⇒ return \"2 3 5 7 11 13 17 19 23 29 \"
var o = {n: 0}; while (o.n < 3) { o.n++; o['k' + o.n] = o.n * o.n; } o.k1 + o.k2 + o.k3; ⇒ return 14
var a = 48, b = 36, t; while (b) { t = a % b; a = b; b = t; } a; ⇒ return 12
var i = 5, s = ''; for (; i--; s += i); s; ⇒ return \"43210\"
";

/// Labels, and jumps that name them (12.7, 12.8, 12.12).
static LABELS: &str = "
var s = ''; outer: for (var i = 0; i < 3; i++) { for (var j = 0; j < 3; j++) { if (j === 1) continue outer; if (i === 2) break outer; s += i; s += j; s += ' '; } } s; ⇒ return \"00 10 \"
var s = 'a'; l: { s += 'b'; break l; s += 'c'; } s; ⇒ return \"ab\"
var s = ''; l: m: while (true) { s += 'x'; if (s === 'xxx') break l; continue m; } s; ⇒ return \"xxx\"
var i = 0; l: if (true) { i = 1; if (i) break l; i = 2; } i; ⇒ return 1
var i = 0; a: b: c: do { i++; if (i < 3) continue a; break b; } while (true); i; ⇒ return 3
";

/// `switch`: by `===`, from one clause to the next, `default` anywhere (12.11).
static SWITCHES: &str = "
var s = ''; switch (1) { case 1: s += 'a'; case 2: s += 'b'; break; case 3: s += 'c'; } s; ⇒ return \"ab\"
var s = ''; switch (2) { case 1: s += 'a'; case 2: s += 'b'; case 3: s += 'c'; } s; ⇒ return \"bc\"
var s = ''; switch (9) { case 1: s += 'a'; default: s += 'd'; case 2: s += 'b'; } s; ⇒ return \"db\"
var s = ''; switch (2) { case 1: s += 'a'; default: s += 'd'; case 2: s += 'b'; } s; ⇒ return \"b\"
var s = ''; switch ('1') { case 1: s += 'number'; break; case '1': s += 'text'; } s; ⇒ return \"text\"
var s = 'none'; switch (1) {} s; ⇒ return \"none\"
var s = 'none'; switch (1) { case 2: s = 'two'; } s; ⇒ return \"none\"
var s = ''; switch (true) { case 1 < 0: s = 'less'; break; case 1 > 0: s = 'more'; break; default: s = 'same'; } s; ⇒ return \"more\"
var s = ''; for (var i = 0; i < 4; i++) { switch (i) { case 0: continue; case 2: s += 'two'; break; default: s += i; } s += ' '; } s; ⇒ return \"1 two 3 \"
var s = ''; l: switch (1) { case 1: switch (2) { case 2: s = 'in'; break l; } s += ' out'; } s; ⇒ return \"in\"
var n = 0, s = ''; switch (n++) { case n++: s = 'no'; break; case n - 2: s = 'yes'; } s + n; ⇒ return \"yes2\"
";

/// `throw`, `catch` and `finally` over each ending (12.13, 12.14).
static CAUGHT: &str = "
try { throw 1; } catch (e) { e + 1; } 5; ⇒ return 5
var s = ''; try { s += 'a'; throw 'b'; } catch (e) { s += e; } s; ⇒ return \"ab\"
var s = ''; try { s += 'a'; } catch (e) { s += 'never'; } s; ⇒ return \"a\"
var s = ''; try { s += 'a'; } finally { s += 'b'; } s; ⇒ return \"ab\"
var s = ''; try { try { throw 'x'; } finally { s += 'f'; } } catch (e) { s += e; } s; ⇒ return \"fx\"
var s = ''; try { throw 1; } catch (e) { s += e; } finally { s += 'f'; } s; ⇒ return \"1f\"
var s = ''; try { try { throw 1; } catch (e) { throw e + 1; } } catch (f) { s += f; } s; ⇒ return \"2\"
var s = ''; for (var i = 0; i < 3; i++) { try { if (i === 1) continue; s += i; } finally { s += 'f'; } } s; ⇒ return \"0ff2f\"
var s = ''; for (var i = 0; i < 3; i++) { try { if (i === 1) break; s += i; } finally { s += 'f'; } } s; ⇒ return \"0ff\"
var s = ''; while (true) { try { throw 1; } catch (e) { break; } finally { s += 'f'; } } s; ⇒ return \"f\"
var s = 0; l: try { s = 1; break l; } finally { s += 10; } s; ⇒ return 11
var s = ''; l: { try { throw 'lost'; } finally { break l; } } s + 'kept'; ⇒ return \"kept\"
var e1 = 'outer'; try { throw 'inner'; } catch (e) { e1 += e; e = 'changed'; e1 += e; } e1; ⇒ return \"outerinnerchanged\"
var s = ''; try { throw 1; } catch (e) { try { throw 2; } catch (f) { s = e + '' + f; } } s; ⇒ return \"12\"
var x = 1; try { throw {x: 5}; } catch (e) { x = e.x; } x; ⇒ return 5
var t; try { null.x; } catch (e) { t = e.message; } t; ⇒ return \"no object\"
var t; try { null.x; } catch (e) { t = e.name; } t; ⇒ return \"TypeError\"
var t = ''; try { cajita.x.y; } catch (e) { t = e.message; } t; ⇒ return \"no object\"
";

#[test]
fn a_statement_is_taken_or_passed_over(rt: HostRuntime) -> Result<(), Fail> {
    check_loads(rt.alloc(), BLOCKS)
}

#[test]
fn a_loop_goes_on_while_its_test_counts_as_true(rt: HostRuntime) -> Result<(), Fail> {
    check_loads(rt.alloc(), LOOPS)
}

#[test]
fn a_jump_goes_to_its_label(rt: HostRuntime) -> Result<(), Fail> {
    check_loads(rt.alloc(), LABELS)
}

#[test]
fn a_clause_falls_through_to_the_next(rt: HostRuntime) -> Result<(), Fail> {
    check_loads(rt.alloc(), SWITCHES)
}

#[test]
fn what_is_thrown_is_caught_and_finally_runs_over_each_ending(rt: HostRuntime) -> Result<(), Fail> {
    check_loads(rt.alloc(), CAUGHT)
}
