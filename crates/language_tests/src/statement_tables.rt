//! Sources, and what becomes of each: the programs were read by another parser too.

/// Sources that spell a program.
pub static PROGRAMS: &str = "
x = {3: d, 0x10: e};
/* a */ var o = {'x': 0x10}; o.x;
this; null; true; false; 1; 'a'; a;
(a);
((a));
[];
[a];
[a, b,];
[[], [a]];
x = {};
x = {a: 1};
({a: 1}).a;
x = function () {};
x = function f(a, b) { return a; };
(function () {})();
x = {'a b': 1, \"c\": 2};
a.b;
a.b.c[d].e;
a[b, c];
f();
f(a, b);
f(a)(b)[c].d();
1 .x;
new a;
new a();
new a.b;
new a.b(c).d(e)[f];
new new a()();
new new a;
new (a())();
new a[b()];
new function () {};
new (f().a);
a++;
a.b--;
++a;
--a[b];
++(a);
++1 .x;
++new a().b;
++f().a;
delete a.b; void 0; typeof a; +a; -a; ~a; !a;
!typeof void delete -+~a;
- -a;
a + b * c - d % e / f;
a << b >> c >>> d;
a < b > c <= d >= e;
a in b instanceof c;
a == b != c === d !== e;
a & b ^ c | d;
a && b || c;
a ? b : c;
a ? b : c ? d : e;
a ? b = c : d = e;
a = b = c;
a += b; a -= b; a *= b; a /= b; a %= b; a <<= b; a >>= b; a >>>= b; a &= b; a ^= b; a |= b;
(a) = b;
a.b = c[d] = e;
a, b, c;
(a, b);
-a++;
; ;
{}
{ a; { } }
var a;
var a = 1, b, c = d ? e : f;
a;
if (a) b;
if (a) b; else c;
if (a) if (b) c; else d;
if (a) b; else if (c) d; else e;
if (a) { if (b) c; } else d;
if (a) while (b) c; else d;
if (a) do if (b) c; while (d); else e;
while (a) b;
do a; while (b);
do { } while (a); b;
for (;;) ;
for (a; b; c) d;
for (var a = 1, b; a < b; a++) ;
for (a in b) c;
for (a.b in c) ;
for (f().a in b) ;
for (var a in b) c;
for (var a in b, c) ;
for (a ? b in c : d; ; ) ;
for ((a in b); ; ) ;
for (a[b in c]; ; ) ;
for (a(b in c); ; ) ;
for (var a = [b in c]; ; ) ;
for (x = function () { a in b; }; ; ) ;
continue; continue a; break; break a;
return; return a, b;
with (a) b;
switch (a) {}
switch (a) { case b: c; case d: default: e; case f: }
a: b;
a: b: for (;;) { continue a; break b; }
throw a, b;
try {} catch (e) {}
try { a; } finally { b; }
try {} catch (e) {} finally {}
try {} catch (e) {} a;
function f() {}
function f(a, b) { var c; function g() {} return g; }
x = function () { function g() {} };
";

/// Sources of which a token is refused, and the byte where the first such token begins.
pub static FAULTS: &str = "
var a = ; ⇒ 8
a b; ⇒ 2
a + b = c; ⇒ 6
f() = 1; ⇒ 4
1 = a; ⇒ 2
1++; ⇒ 1
f()++; ⇒ 3
++ -a; ⇒ 3
++ !a; ⇒ 3
++ ++a; ⇒ 3
++1; ⇒ 3
++(a + b); ⇒ 9
++new a; ⇒ 7
a++.b; ⇒ 3
a++ ++; ⇒ 4
a++(b); ⇒ 3
new a++; ⇒ 5
new -a; ⇒ 4
new ; ⇒ 4
f(a,); ⇒ 4
f(,a); ⇒ 2
f(a; ⇒ 3
[a,,b]; ⇒ 3
[,]; ⇒ 1
[a; ⇒ 2
x = {a: 1,}; ⇒ 10
x = {if: 1}; ⇒ 5
x = {a}; ⇒ 6
x = {a: }; ⇒ 8
a.if; ⇒ 2
a.'b'; ⇒ 2
a[]; ⇒ 2
(); ⇒ 1
(a; ⇒ 2
a ? b, c : d; ⇒ 5
a ? b; ⇒ 5
a = b + c = d; ⇒ 10
a ? b : c = d = ; ⇒ 16
a || b = c; ⇒ 7
-a = b; ⇒ 3
typeof a = b; ⇒ 9
a,; ⇒ 2
function () {} ⇒ 9
{a: 1, b: 2} ⇒ 8
a in; ⇒ 4
a +; ⇒ 3
*a; ⇒ 0
) ⇒ 0
a) ⇒ 1
] ⇒ 0
else b; ⇒ 0
if (a) else b; ⇒ 7
if a; ⇒ 3
if (a) b; else c; else d; ⇒ 18
var ; ⇒ 4
var 1; ⇒ 4
var a, ; ⇒ 7
var a.b; ⇒ 5
var (a); ⇒ 4
while () ; ⇒ 7
do a while (b); ⇒ 5
do a; until (b); ⇒ 6
do a; while (b) c; ⇒ 16
for (a, b in c) ; ⇒ 10
for (a + b in c) ; ⇒ 11
for (f() in a) ; ⇒ 9
for (a = b in c; ; ) ; ⇒ 11
for (var a = 1 in b) ; ⇒ 15
for (var a, b in c) ; ⇒ 14
for (a; b) ; ⇒ 9
for (in a) ; ⇒ 5
for (;) ; ⇒ 6
for (a in b; c; d) ; ⇒ 11
continue 1; ⇒ 9
break a b; ⇒ 8
return a b; ⇒ 9
with a; ⇒ 5
switch (a) b ⇒ 11
switch (a) { b; } ⇒ 13
switch (a) { default: default: } ⇒ 22
switch (a) { case 1: default: ; case 2: default: } ⇒ 40
switch (a) { case : } ⇒ 18
case a: ; ⇒ 0
default: ; ⇒ 0
a: function f() {} ⇒ 3
a: } ⇒ 3
throw ; ⇒ 6
try a; ⇒ 4
try {} a; ⇒ 7
try {} catch {} ⇒ 13
try {} catch (1) {} ⇒ 14
try {} catch (a, b) {} ⇒ 15
catch (a) {} ⇒ 0
finally {} ⇒ 0
} a ⇒ 0
{ function f() {} } ⇒ 2
if (a) function f() {} ⇒ 7
function f(a,) {} ⇒ 13
function f(a b) {} ⇒ 13
function f(1) {} ⇒ 11
function f() a; ⇒ 13
function 1() {} ⇒ 9
function f {} ⇒ 11
";

/// Sources that break off: a program goes on behind their last token.
pub static BROKEN_OFF: [&str; 45] = [
    "x = 1",
    "{",
    "{ a; ",
    "if (a)",
    "if (a) b; else",
    "if (a",
    "a ? b :",
    "f(",
    "function f(",
    "function f() {",
    "x = function f() {}.y",
    "a: b: c",
    "try {",
    "try {}",
    "try {} catch (e)",
    "try {} catch (e) {",
    "try {} finally {",
    "do a;",
    "do a; while",
    "do a; while (b)",
    "new",
    "++",
    "++1",
    "++(a + b)",
    "x = {a",
    "x = {a: b",
    "[a,",
    "switch (a) {",
    "switch (a) { case",
    "switch (a) { default:",
    "for (",
    "for (var",
    "for (var a",
    "for (a in",
    "for (;",
    "return",
    "break",
    "throw",
    "var a =",
    "with (a)",
    "a.",
    "a[",
    "a +",
    "a:",
    "while (a)",
];
