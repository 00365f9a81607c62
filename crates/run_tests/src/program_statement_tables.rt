//! Texts of statements, and what each gives: the words, the text, and the last part of the line of its load.
//! A program has the value of its last element, a list of statements that of its last statement that has one.

/// Values of statements and of programs (12.1 to 12.5, 14).
pub static VALUES: &str = "
run ⇒ ; ⇒ return undefined
run ⇒ {} ⇒ return undefined
run ⇒ 1;; ⇒ return undefined
run ⇒ 1; var x; ⇒ return undefined
run ⇒ 1; var x = 2; ⇒ return undefined
run ⇒ 1; function f() {} ⇒ return undefined
run ⇒ 1; {} ⇒ return undefined
run ⇒ 1; if (0) 2; ⇒ return undefined
run ⇒ var x = 2; 1; ⇒ return 1
run ⇒ { 1; ; } ⇒ return 1
run ⇒ { 1; var x = 2; } ⇒ return 1
run ⇒ { 1; {} } ⇒ return 1
run ⇒ { 1; { 2; ; } } ⇒ return 2
run ⇒ { 1; if (0) 2; } ⇒ return 1
run ⇒ { 1; if (1) ; } ⇒ return 1
run ⇒ { 1; while (0) ; } ⇒ return 1
run ⇒ { 1; a: ; } ⇒ return 1
run ⇒ { 1; with ({}) ; } ⇒ return 1
run ⇒ { 1; switch (1) { case 1: 2; } } ⇒ return 1
run ⇒ { 1; try {} finally { 2; } } ⇒ return 1
run ⇒ if (1) 2; ⇒ return 2
run ⇒ if (0) 2; ⇒ return undefined
run ⇒ if (0) 2; else 3; ⇒ return 3
run ⇒ if (1) if (0) 2; else 3; ⇒ return 3
run ⇒ a: 1; ⇒ return 1
";

/// `for` with each subset of its parts (12.6.3).
pub static FOR_HEADS: &str = "
run ⇒ var n = 0; for (;;) if (++n > 2) break; n; ⇒ return 3
run ⇒ var n = 0; for (; n < 3; ) n++; n; ⇒ return 3
run ⇒ var n = 0; for (;; n++) if (n > 2) break; n; ⇒ return 3
run ⇒ var n = 0; for (; n < 3; n++) ; n; ⇒ return 3
run ⇒ var n; for (n = 1;;) if (++n > 2) break; n; ⇒ return 3
run ⇒ var n; for (n = 1; n < 3; ) n++; n; ⇒ return 3
run ⇒ var n; for (n = 1;; n++) if (n > 2) break; n; ⇒ return 3
run ⇒ var n; for (n = 1; n < 3; n++) ; n; ⇒ return 3
run ⇒ for (var n = 1;;) if (++n > 2) break; n; ⇒ return 3
run ⇒ for (var n = 1; n < 3; ) n++; n; ⇒ return 3
run ⇒ for (var n = 1;; n++) if (n > 2) break; n; ⇒ return 3
run ⇒ for (var n = 1; n < 3; n++) ; n; ⇒ return 3
run ⇒ for (var n = 0, s = ''; n < 3; s += n, n++) ; s; ⇒ return \"012\"
run ⇒ for (var n, i = 0; i < 0; ) ; n; ⇒ return undefined
run ⇒ for (var n = ('a' in {}) ? 1 : 2; n < 3; n++) ; n; ⇒ return 3
";

/// Values of loops: a turn without one keeps that of the turn before, a jump takes one along (12.6 to 12.8).
pub static LOOPS: &str = "
run ⇒ while (0) 1; ⇒ return undefined
run ⇒ var i = 0; while (i < 3) i++; ⇒ return 2
run ⇒ var i = 0; while (i < 3) { 'a'; i++; ; } ⇒ return 2
run ⇒ var i = 0; while (i < 3) if (i++ == 0) 'a'; ⇒ return \"a\"
run ⇒ do 1; while (0); ⇒ return 1
run ⇒ var i = 0; do i++; while (i < 3); ⇒ return 2
run ⇒ do ; while (0); ⇒ return undefined
run ⇒ for (var i = 0; i < 3; i++) i; ⇒ return 2
run ⇒ for (var i = 3; i; ) i--; ⇒ return 1
run ⇒ for (var i = 0; i < 0; i++) 1; ⇒ return undefined
run ⇒ for (;;) break; ⇒ return undefined
run ⇒ for (;;) { 1; break; } ⇒ return 1
run ⇒ while (1) { 1; { 2; break; } } ⇒ return 2
run ⇒ do { 1; break; 2; } while (1); ⇒ return 1
run ⇒ do { 1; continue; 2; } while (0); ⇒ return 1
run ⇒ for (var i = 0; i < 3; i++) { if (i == 1) break; i; } ⇒ return 0
run ⇒ for (var i = 0; i < 3; i++) { i; if (i == 1) break; } ⇒ return 1
run ⇒ for (var i = 0; i < 3; i++) { i; continue; } ⇒ return 2
run ⇒ for (var i = 0; i < 3; i++) { if (i == 2) continue; i; } ⇒ return 1
run ⇒ for (var i = 0; i < 2; i++) for (var j = 0; j < 2; j++) i + j; ⇒ return 2
run ⇒ var i = 0; while (true) { i++; if (i < 3) continue; break; } i; ⇒ return 3
run ⇒ a: for (;;) { 1; for (;;) { 2; break a; } } ⇒ return 2
run ⇒ a: for (;;) { 1; for (;;) break a; } ⇒ return 1
run ⇒ a: for (;;) { 1; for (;;) { 2; for (;;) { break a; } } } ⇒ return 2
run ⇒ a: for (var i = 0; i < 2; i++) { i; for (;;) continue a; } ⇒ return 1
";

/// Which keys `for` .. `in` visits, and in which order (12.6.4).
pub static FOR_IN: &str = "
run ⇒ var s = ''; for (var k in {a: 1, b: 2}) s += k; s; ⇒ return \"ab\"
run ⇒ var s = '', o = {b: 1, a: 2, 1: 3, 0: 4}; for (var k in o) s += k; s; ⇒ return \"ba10\"
run ⇒ var s = '', o = {a: 1, b: 2}; delete o.a; o.a = 3; for (var k in o) s += k; s; ⇒ return \"ba\"
run ⇒ var s = ''; for (var k in [5, 6]) s += k; s; ⇒ return \"01\"
run ⇒ for (var k in [5]) typeof k; ⇒ return \"string\"
run ⇒ var k; for (k in {a: 1}) ; k; ⇒ return \"a\"
run ⇒ for (k in {a: 1}) ; k; ⇒ return \"a\"
run ⇒ var o = {}; for (o.k in {a: 1}) ; o.k; ⇒ return \"a\"
run ⇒ var a = [], i = 0; for (a[i++] in {x: 1, y: 2}) ; a + ''; ⇒ return \"x,y\"
run ⇒ var s = '', o = {a: 1, b: 2, c: 3}; for (var k in o) { s += k; delete o.b; } s; ⇒ return \"ac\"
run ⇒ var s = '', o = {a: 1}; for (var k in o) { s += k; o.b = 2; } s; ⇒ return \"a\"
run ⇒ var s = '', o = {a: 1, b: 2}; for (var k in o) { s += k; delete o.b; o.b = 3; } s; ⇒ return \"ab\"
run ⇒ var s = '', o = {a: 1, b: 2}, p = o; for (var k in o) { o = {}; s += k; } s; ⇒ return \"ab\"
run ⇒ function F() { this.b = 1; } F.prototype.a = 2; var s = ''; for (var k in new F()) s += k; s; ⇒ return \"ba\"
run ⇒ function F() { this.a = 1; } F.prototype.a = 2; F.prototype.b = 3; var s = ''; for (var k in new F()) s += k; s; ⇒ return \"ab\"
run ⇒ function F() {} var s = ''; for (var k in F.prototype) s += k; s; ⇒ return \"\"
run ⇒ function F() {} F.prototype = {constructor: 1, a: 2}; var s = ''; for (var k in new F()) s += k; s; ⇒ return \"constructora\"
run ⇒ function F() { this.a = 1; this.b = 2; } F.prototype.b = 3; var s = '', o = new F(); for (var k in o) { s += k; delete o.b; } s; ⇒ return \"ab\"
run ⇒ function F() {} var s = ''; for (var k in F) s += k; s; ⇒ return \"prototype\"
run ⇒ var s = ''; try { x; } catch (e) { for (var k in e) s += k; } s; ⇒ return \"\"
run ⇒ for (var k in 'abc') k; ⇒ return undefined
run ⇒ for (var k in 5) k; ⇒ return undefined
run ⇒ for (var k in null) ; ⇒ throw error ? TypeError \"no object\"
run ⇒ for (var k in undefined) ; ⇒ throw error ? TypeError \"no object\"
";

/// Values of `for` .. `in`, jumps in it, and where its key goes (12.6.4).
pub static FOR_IN_VALUES: &str = "
run ⇒ for (var k in {a: 1, b: 2}) k; ⇒ return \"b\"
run ⇒ for (var k in {}) 1; ⇒ return undefined
run ⇒ for (var k in {a: 1, b: 2}) if (k == 'a') 1; ⇒ return 1
run ⇒ for (var k in {a: 1, b: 2}) { k; break; } ⇒ return \"a\"
run ⇒ for (var k in {a: 1, b: 2}) { k; continue; } ⇒ return \"b\"
run ⇒ a: for (var k in {a: 1, b: 2}) for (var j in {c: 1}) { k + j; continue a; } ⇒ return \"bc\"
run ⇒ a: for (var k in {a: 1, b: 2}) for (var j in {c: 1}) { k + j; break a; } ⇒ return \"ac\"
run ⇒ function f() { for (var k in {a: 1, b: 2}) return k; } f(); ⇒ return \"a\"
run ⇒ function f() { for (var k in {a: 1}) ; return k; } f() + typeof k; ⇒ return \"aundefined\"
run ⇒ var o = {k: 0}; with (o) for (k in {a: 1}) ; o.k; ⇒ return \"a\"
run ⇒ var o = {k: 0}; with (o) for (var k in {a: 1}) ; o.k; ⇒ return \"a\"
run ⇒ var s = ''; for (var k in {a: 1, b: 2}) { s += k; k = 'c'; } s + k; ⇒ return \"abc\"
run ⇒ for (undefined.k in {}) ; ⇒ return undefined
run ⇒ for (undefined.k in {a: 1}) ; ⇒ throw error ? TypeError \"no object\"
";

/// Labels, and jumps to them (12.7, 12.8, 12.12).
pub static JUMPS: &str = "
run ⇒ a: { 1; break a; 2; } ⇒ return 1
run ⇒ a: { break a; } ⇒ return undefined
run ⇒ a: b: { 1; break a; } ⇒ return 1
run ⇒ a: { b: { 1; break b; } } ⇒ return 1
run ⇒ a: { b: { break a; } 1; } ⇒ return undefined
run ⇒ a: { b: { break b; } 1; } ⇒ return 1
run ⇒ var a = 1; a: { a; break a; } ⇒ return 1
run ⇒ a: if (1) { 1; break a; } ⇒ return 1
run ⇒ a: with ({}) { 1; break a; } ⇒ return 1
run ⇒ a: switch (1) { case 1: 1; break a; } ⇒ return 1
run ⇒ a: try { 1; break a; } finally { 2; } ⇒ return 1
run ⇒ a: b: for (var i = 0; i < 3; i++) { if (i == 1) continue a; i; } ⇒ return 2
run ⇒ var s = ''; a: for (var i = 0; i < 3; i++) for (var j = 0; j < 3; j++) { if (j == 1) continue a; s += i; } s; ⇒ return \"012\"
run ⇒ var s = ''; a: for (var i = 0; i < 3; i++) for (var j = 0; j < 3; j++) { if (j == 1) break a; s += i; } s; ⇒ return \"0\"
run ⇒ var s = ''; for (var i = 0; i < 3; i++) { for (var j = 0; j < 3; j++) { if (j == 1) break; s += i; } } s; ⇒ return \"012\"
run ⇒ var i = 0; a: do { i++; continue a; } while (i < 3); i; ⇒ return 3
run ⇒ var i = 0; a: while (i < 3) { i++; for (;;) continue a; } i; ⇒ return 3
run ⇒ a: while (1) { while (1) break; break a; } ⇒ return undefined
run ⇒ for (;;) { switch (1) { case 1: 5; break; } break; } ⇒ return 5
run ⇒ var i = 0, s = ''; for (; i < 3; i++) switch (i) { case 1: continue; default: s += i; } s; ⇒ return \"02\"
run ⇒ a: for (;;) { (function () { a: for (;;) break a; })(); break; } ⇒ return undefined
run ⇒ function f() { a: for (;;) for (;;) return 3; } f(); ⇒ return 3
";

/// `switch`: where it begins and ends, and its value (12.11).
pub static SWITCHES: &str = "
run ⇒ switch (1) { case 1: 'a'; break; case 2: 'b'; } ⇒ return \"a\"
run ⇒ switch (2) { case 1: 'a'; case 2: 'b'; case 3: 'c'; break; } ⇒ return \"c\"
run ⇒ switch (2) { case 1: 'a'; case 2: 'b'; case 3: break; } ⇒ return undefined
run ⇒ switch (1) { case 1: 'a'; } ⇒ return undefined
run ⇒ switch (3) { case 1: 'a'; } ⇒ return undefined
run ⇒ switch (3) {} ⇒ return undefined
run ⇒ switch (3) { case 1: 'a'; break; default: 'd'; break; } ⇒ return \"d\"
run ⇒ switch (3) { default: 'd'; case 1: 'a'; break; } ⇒ return \"a\"
run ⇒ switch (1) { default: 'd'; break; case 1: 'a'; break; } ⇒ return \"a\"
run ⇒ switch (3) { default: 'd'; break; case 1: 'a'; break; } ⇒ return \"d\"
run ⇒ switch ('1') { case 1: 'n'; break; case '1': 't'; break; } ⇒ return \"t\"
run ⇒ switch (null) { case undefined: 'u'; break; case null: 'n'; break; } ⇒ return \"n\"
run ⇒ switch (1) { case 1: { 'a'; break; } } ⇒ return \"a\"
run ⇒ switch (1) { case 1: 'a'; ; break; } ⇒ return \"a\"
run ⇒ switch (1) { case 1: switch (2) { case 2: 'i'; break; } 'o'; break; } ⇒ return \"o\"
run ⇒ switch (1) { case 1: var x = 5; } x; ⇒ return 5
run ⇒ switch (2) { case 1: var x = 5; } x; ⇒ return undefined
run ⇒ switch (1) { case 1: throw 2; } ⇒ throw 2
run ⇒ switch (1) { case x: } ⇒ throw error ? TypeError \"unbound\"
run ⇒ function f(x) { switch (x) { case 1: return 'one'; default: return 'other'; } } f(1) + f(2); ⇒ return \"oneother\"
run ⇒ var s = ''; function f(x) { s += x; return x; } switch (f(2)) { case f(1): case f(2): case f(3): s += 'b'; default: s += 'd'; } s; ⇒ return \"212bd\"
run ⇒ var s = ''; function f(x) { s += x; return x; } switch (f(3)) { case f(1): default: s += 'd'; case f(2): s += 'b'; } s; ⇒ return \"312db\"
";

/// `throw` and `try` with `catch` (12.13, 12.14).
pub static THROWS: &str = "
run ⇒ throw 1; ⇒ throw 1
run ⇒ throw 'a'; ⇒ throw \"a\"
run ⇒ throw {a: 1}; ⇒ throw record ?
run ⇒ throw [1]; ⇒ throw array ?
run ⇒ throw function () {}; ⇒ throw function ?
run ⇒ throw undefined; ⇒ throw undefined
run ⇒ throw x; ⇒ throw error ? TypeError \"unbound\"
run ⇒ try { 1; } catch (e) { 2; } ⇒ return 1
run ⇒ try { throw 1; } catch (e) { e; } ⇒ return 1
run ⇒ try { 1; throw 2; } catch (e) {} ⇒ return undefined
run ⇒ try { throw 1; } catch (e) { throw e + 1; } ⇒ throw 2
run ⇒ try { x; } catch (e) { e.message; } ⇒ return \"unbound\"
run ⇒ try { undefined.a; } catch (e) { e.name; } ⇒ return \"TypeError\"
run ⇒ try { x; } catch (e) { e.message = 1; delete e.name; e.name + e.message; } ⇒ return \"TypeErrorunbound\"
run ⇒ try { x; } catch (e) { e; } ⇒ return error ? TypeError \"unbound\"
run ⇒ try { (function () { throw 4; })(); } catch (e) { e; } ⇒ return 4
run ⇒ var e = 1; try { throw 2; } catch (e) { e = 3; } e; ⇒ return 1
run ⇒ var e = 1; try { throw 2; } catch (e) { var e = 3; } e; ⇒ return 1
run ⇒ try { throw 1; } catch (e) {} e; ⇒ throw error ? TypeError \"unbound\"
run ⇒ try { throw 1; } catch (e) { delete e; } ⇒ return false
run ⇒ try { throw 1; } catch (e) { (function () { return e; })(); } ⇒ return 1
run ⇒ try { throw 1; } catch (e) { try { throw 2; } catch (e) { e; } } ⇒ return 2
run ⇒ try { throw function () { return this; }; } catch (e) { e() === this; } ⇒ return true
run ⇒ try {} catch (e) {} ⇒ return undefined
";

/// `finally` over each ending, and each ending of its own (12.14).
pub static FINALLY: &str = "
run ⇒ try { 1; } finally { 2; } ⇒ return 1
run ⇒ try {} finally { 2; } ⇒ return undefined
run ⇒ try { throw 1; } finally { 2; } ⇒ throw 1
run ⇒ try { throw 1; } finally { throw 2; } ⇒ throw 2
run ⇒ try { 1; } finally { throw 2; } ⇒ throw 2
run ⇒ try { throw 1; } catch (e) { throw 2; } finally { throw 3; } ⇒ throw 3
run ⇒ try { throw 1; } catch (e) { e; } finally { 2; } ⇒ return 1
run ⇒ try { try { throw 1; } finally { 2; } } catch (e) { e; } ⇒ return 1
run ⇒ while (1) { try { 1; break; } finally { 2; } } ⇒ return 1
run ⇒ while (1) try { throw 1; } finally { break; } ⇒ return undefined
run ⇒ a: try { throw 1; } finally { 2; break a; } ⇒ return 2
run ⇒ for (var i = 0; i < 3; i++) try { i; continue; } finally { 'f'; } ⇒ return 2
run ⇒ for (var i = 0; i < 3; i++) try { throw i; } finally { i; continue; } ⇒ return 2
run ⇒ for (var k in {a: 1, b: 2}) try { k; break; } finally { 1; } ⇒ return \"a\"
run ⇒ switch (1) { case 1: try { 1; break; } finally { 2; } } ⇒ return 1
run ⇒ var s = ''; for (var i = 0; i < 3; i++) try { if (i == 1) continue; s += i; } finally { s += 'f'; } s; ⇒ return \"0ff2f\"
run ⇒ var s = ''; a: for (var i = 0; i < 2; i++) for (;;) try { continue a; } finally { s += i; } s; ⇒ return \"01\"
run ⇒ var s = ''; try { try { s += 'a'; throw 1; } catch (e) { s += 'b'; throw 2; } finally { s += 'c'; } } catch (e) { s += 'd' + e; } finally { s += 'e'; } s; ⇒ return \"abcd2e\"
";

/// `finally` over a `return`, and with one (12.14).
pub static FINALLY_RETURNS: &str = "
run ⇒ function f() { try { return 1; } finally { 2; } } f(); ⇒ return 1
run ⇒ function f() { try { return 1; } finally { return 2; } } f(); ⇒ return 2
run ⇒ function f() { try { throw 1; } finally { return 2; } } f(); ⇒ return 2
run ⇒ function f() { try { throw 1; } catch (e) { return e; } finally { return 3; } } f(); ⇒ return 3
run ⇒ function f() { try { return 1; } finally { throw 2; } } f(); ⇒ throw 2
run ⇒ function f() { try { try { return 1; } finally { throw 2; } } catch (e) { return e + 1; } } f(); ⇒ return 3
run ⇒ function f() { a: try { return 1; } finally { break a; } return 2; } f(); ⇒ return 2
run ⇒ function f() { while (1) try { return 1; } finally { break; } return 2; } f(); ⇒ return 2
run ⇒ function f() { for (var i = 0; i < 3; i++) try { return 1; } finally { continue; } return i; } f(); ⇒ return 3
run ⇒ function f() { try { return 1; } finally { try { throw 2; } catch (e) {} } } f(); ⇒ return 1
run ⇒ function f() { try { return 1; } finally { for (;;) break; } } f(); ⇒ return 1
run ⇒ function f() { try { return; } finally { return; } } f(); ⇒ return undefined
run ⇒ var x = 0; function f() { try { return x; } finally { x = 5; } } f() + ',' + x; ⇒ return \"0,5\"
run ⇒ function F() { try { return {a: 1}; } finally { this.a = 2; } } new F().a; ⇒ return 1
run ⇒ function F() { this.a = 2; try { return {a: 1}; } finally { return 3; } } new F().a; ⇒ return 2
";

/// `with`: names found, written, deleted and called in its object (12.10).
pub static WITHS: &str = "
run ⇒ with ({a: 1}) a; ⇒ return 1
run ⇒ var o = {a: 1}; with (o) a = 2; o.a; ⇒ return 2
run ⇒ var o = {}; with (o) a = 2; o.a; ⇒ return undefined
run ⇒ var o = {}; with (o) a = 2; a; ⇒ return 2
run ⇒ var o = {a: 1}; with (o) var a = 2; o.a; ⇒ return 2
run ⇒ var o = {a: 1}; with (o) var a = 2; a; ⇒ return undefined
run ⇒ with ({a: 1}) delete a; ⇒ return true
run ⇒ var o = {a: 1}; with (o) delete a; o.a; ⇒ return undefined
run ⇒ with ({a: 1}) { a++; a; } ⇒ return 2
run ⇒ with ({}) a; ⇒ throw error ? TypeError \"unbound\"
run ⇒ with ({}) typeof a; ⇒ return \"undefined\"
run ⇒ var o = {f: function () { return this; }}; with (o) f() === o; ⇒ return true
run ⇒ with ({f: function () { return this.a; }, a: 3}) f(); ⇒ return 3
run ⇒ with ({a: 1}) with ({b: 2}) a + b; ⇒ return 3
run ⇒ with ({a: 1}) with ({a: 2}) a; ⇒ return 2
run ⇒ function F() {} F.prototype.a = 1; with (new F()) a; ⇒ return 1
run ⇒ function F() {} F.prototype.a = 1; var o = new F(); with (o) a = 2; o.a + F.prototype.a; ⇒ return 3
run ⇒ with ({undefined: 1}) undefined; ⇒ return 1
run ⇒ with (null) 1; ⇒ throw error ? TypeError \"no object\"
run ⇒ with (undefined) 1; ⇒ throw error ? TypeError \"no object\"
run ⇒ with (x) 1; ⇒ throw error ? TypeError \"unbound\"
";

/// `with` of a value that is no object, and among scopes (9.9, 10.1.4, 12.10).
pub static WITHS_AND_SCOPES: &str = "
run ⇒ with ('abc') length; ⇒ return 3
run ⇒ with ('abc') { length = 5; length; } ⇒ return 3
run ⇒ with ('abc') delete length; ⇒ return false
run ⇒ with (5) typeof length; ⇒ return \"undefined\"
run ⇒ with (true) 1; ⇒ return 1
run ⇒ with ([1, 2]) length; ⇒ return 2
run ⇒ var x = 1; with ({x: 2}) (function () { return x; })(); ⇒ return 2
run ⇒ var f; with ({x: 2}) f = function () { return x; }; f(); ⇒ return 2
run ⇒ var o = {}, f; with (o) f = function () { return x; }; o.x = 3; f(); ⇒ return 3
run ⇒ function f() { var x = 1; with ({x: 2}) x = 3; return x; } f(); ⇒ return 1
run ⇒ function f() { var x = 1; with ({}) x = 3; return x; } f(); ⇒ return 3
run ⇒ function f(a) { with ({a: 2}) return a; } f(1); ⇒ return 2
run ⇒ function f() { with ({arguments: 5}) return arguments; } f(); ⇒ return 5
run ⇒ function f() { with ({}) return arguments.length; } f(1, 2); ⇒ return 2
run ⇒ with ({e: 1}) try { throw 2; } catch (e) { e; } ⇒ return 2
run ⇒ var o = {x: 1}; try { with (o) { x = 2; throw x; } } catch (e) { typeof x + o.x + e; } ⇒ return \"undefined22\"
run ⇒ var x = 1, o = {}; with (o) { o.x = 2; x; } ⇒ return 2
";
