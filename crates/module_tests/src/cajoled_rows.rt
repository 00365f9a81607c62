//! Modules with functions, calls and loops over keys: the source, its part of the cajoled text, and what the load gives.

use caja_cli::Status;
use command_runs::tables::check_cajoled;
use std::test::Fail;

/// Functions: those declared stand first and are marked, expressions are marked where they stand.
static FUNCTIONS: &str = "
function f() {} ⇒ ;function f(){}___.func(f); ⇒ return undefined
function f(a, b) { return a; } f(1, 2); ⇒ ;function f(a,b){return a;}___.func(f);moduleResult___=___.asSimpleFunc(f)(1,2); ⇒ return 1
function f() {} function g() {} 1; ⇒ ;function f(){}function g(){}___.func(f);___.func(g);moduleResult___=1; ⇒ return 1
1; function f() {} 2; ⇒ ;function f(){}___.func(f);moduleResult___=1;moduleResult___=2; ⇒ return 2
f(); function f() { return 3; } ⇒ ;function f(){return 3;}___.func(f);moduleResult___=___.asSimpleFunc(f)(); ⇒ return 3
var f = function () {}; ⇒ ;var f=___.func(function(){}); ⇒ return undefined
var f = function g(n) { return n < 2 ? 1 : n * g(n - 1); }; f(5); ⇒ ;var f=___.func(function g(n){return n<2?1:n*___.asSimpleFunc(g)(n-1);});moduleResult___=___.asSimpleFunc(f)(5); ⇒ return 120
(function () { return 1; })(); ⇒ ;moduleResult___=___.asSimpleFunc(___.func(function(){return 1;}))(); ⇒ return 1
(function () {}); ⇒ ;moduleResult___=___.func(function(){}); ⇒ return function main#0
function f() { return; } f(); ⇒ ;function f(){return;}___.func(f);moduleResult___=___.asSimpleFunc(f)(); ⇒ return undefined
function f() { function g() { return 1; } return g(); } f(); ⇒ ;function f(){function g(){return 1;}___.func(g);return ___.asSimpleFunc(g)();}___.func(f);moduleResult___=___.asSimpleFunc(f)(); ⇒ return 1
function f() { return g(); function g() { return h(); } function h() { return 2; } } f(); ⇒ ;function f(){function g(){return ___.asSimpleFunc(h)();}function h(){return 2;}___.func(g);___.func(h);return ___.asSimpleFunc(g)();}___.func(f);moduleResult___=___.asSimpleFunc(f)(); ⇒ return 2
function f() { 1; } f(); ⇒ ;function f(){1;}___.func(f);moduleResult___=___.asSimpleFunc(f)(); ⇒ return undefined
[function () {}, function () {}].length; ⇒ ;moduleResult___=___.readPub(___.initializeArray([___.func(function(){}),___.func(function(){})]),\"length\"); ⇒ return 2
({f: function (x) { return x; }}).f(1); ⇒ ;moduleResult___=___.callPub(___.initializeMap([\"f\",___.func(function(x){return x;})]),\"f\",[1]); ⇒ return 1
";

/// What stands at the head of a body: `arguments`, temporaries, the names of loops, functions and their marks.
static BODIES: &str = "
(function () { return arguments.join('/'); })(1, 2); ⇒ ;moduleResult___=___.asSimpleFunc(___.func(function(){var a___=___.args(arguments);return ___.callPub(a___,\"join\",[\"/\"]);}))(1,2); ⇒ return \"1/2\"
function f() { return arguments[0]; } f(5); ⇒ ;function f(){var a___=___.args(arguments);return ___.readPub(a___,0);}___.func(f);moduleResult___=___.asSimpleFunc(f)(5); ⇒ return 5
function f() { return function () { return arguments; }; } f()().length; ⇒ ;function f(){return ___.func(function(){var a___=___.args(arguments);return a___;});}___.func(f);moduleResult___=___.readPub(___.asSimpleFunc(___.asSimpleFunc(f)())(),\"length\"); ⇒ return 0
function f(o) { o.n += 1; return o.n; } f({n: 1}); ⇒ ;function f(o){var x0___;x0___=o,___.setPub(x0___,\"n\",___.readPub(x0___,\"n\")+1);return ___.readPub(o,\"n\");}___.func(f);moduleResult___=___.asSimpleFunc(f)(___.initializeMap([\"n\",1])); ⇒ return 2
function f(o) { o.n++; arguments; } f({n: 1}); ⇒ ;function f(o){var a___=___.args(arguments),x0___,x1___;x0___=o,x1___=+___.readPub(x0___,\"n\"),___.setPub(x0___,\"n\",x1___+1),x1___;a___;}___.func(f);moduleResult___=___.asSimpleFunc(f)(___.initializeMap([\"n\",1])); ⇒ return undefined
function f(o) { for (var k in o) {} return k; } f({a: 1}); ⇒ ;function f(o){var x0___,x1___,x2___,k;for(x0___=o,x1___=___.keysPub(x0___),x2___=0;x2___<x1___.length;x2___++){if(___.inPub(x1___[x2___],x0___)){k=x1___[x2___];{}}}return k;}___.func(f);moduleResult___=___.asSimpleFunc(f)(___.initializeMap([\"a\",1])); ⇒ return \"a\"
function f(o) { for (var k in o) {} var k; return k; } f({a: 1}); ⇒ ;function f(o){var x0___,x1___,x2___;for(x0___=o,x1___=___.keysPub(x0___),x2___=0;x2___<x1___.length;x2___++){if(___.inPub(x1___[x2___],x0___)){k=x1___[x2___];{}}}var k;return k;}___.func(f);moduleResult___=___.asSimpleFunc(f)(___.initializeMap([\"a\",1])); ⇒ return \"a\"
function f(k) { for (var k in {a: 1}) {} for (var l in {}) {} for (var k in {}) {} return k; } f(1); ⇒ ;function f(k){var x0___,x1___,x2___,x3___,x4___,x5___,x6___,x7___,x8___,k,l;for(x0___=___.initializeMap([\"a\",1]),x1___=___.keysPub(x0___),x2___=0;x2___<x1___.length;x2___++){if(___.inPub(x1___[x2___],x0___)){k=x1___[x2___];{}}}for(x3___=___.initializeMap([]),x4___=___.keysPub(x3___),x5___=0;x5___<x4___.length;x5___++){if(___.inPub(x4___[x5___],x3___)){l=x4___[x5___];{}}}for(x6___=___.initializeMap([]),x7___=___.keysPub(x6___),x8___=0;x8___<x7___.length;x8___++){if(___.inPub(x7___[x8___],x6___)){k=x7___[x8___];{}}}return k;}___.func(f);moduleResult___=___.asSimpleFunc(f)(1); ⇒ return \"a\"
function f(o) { for (var k in o) { o[k]++; } arguments; function g() {} return o.a; } f({a: 1}); ⇒ ;function f(o){var a___=___.args(arguments),x0___,x1___,x2___,x3___,x4___,x5___,k;function g(){}___.func(g);for(x0___=o,x1___=___.keysPub(x0___),x2___=0;x2___<x1___.length;x2___++){if(___.inPub(x1___[x2___],x0___)){k=x1___[x2___];{x3___=o,x4___=___.key(k),x5___=+___.readPub(x3___,x4___),___.setPub(x3___,x4___,x5___+1),x5___;}}}a___;return ___.readPub(o,\"a\");}___.func(f);moduleResult___=___.asSimpleFunc(f)(___.initializeMap([\"a\",1])); ⇒ return 2
var o = {n: 1}; function f() { return o.n++; } f() + o.n++; ⇒ ,x0___,x1___;function f(){var x0___,x1___;return x0___=o,x1___=+___.readPub(x0___,\"n\"),___.setPub(x0___,\"n\",x1___+1),x1___;}___.func(f);var o=___.initializeMap([\"n\",1]);moduleResult___=___.asSimpleFunc(f)()+(x0___=o,x1___=+___.readPub(x0___,\"n\"),___.setPub(x0___,\"n\",x1___+1),x1___); ⇒ return 3
function f() { var a = 1, b; return a; } f(); ⇒ ;function f(){var a=1,b;return a;}___.func(f);moduleResult___=___.asSimpleFunc(f)(); ⇒ return 1
function f() { arguments; function g() { arguments; } g(); } f(); ⇒ ;function f(){var a___=___.args(arguments);function g(){var a___=___.args(arguments);a___;}___.func(g);a___;___.asSimpleFunc(g)();}___.func(f);moduleResult___=___.asSimpleFunc(f)(); ⇒ return undefined
";

/// Calls: plainly, of members, and by `new`.
static CALLS: &str = "
Math.abs(-1); ⇒ ;var Math=___.readImport(IMPORTS___,\"Math\");moduleResult___=___.callPub(Math,\"abs\",[-1]); ⇒ return 1
Math['abs'](-1); ⇒ ;var Math=___.readImport(IMPORTS___,\"Math\");moduleResult___=___.callPub(Math,\"abs\",[-1]); ⇒ return 1
var a = [1]; a.push(2, 3); ⇒ ;var a=___.initializeArray([1]);moduleResult___=___.callPub(a,\"push\",[2,3]); ⇒ return 3
var a = [[1]]; a[0].concat(2).join(); ⇒ ;var a=___.initializeArray([___.initializeArray([1])]);moduleResult___=___.callPub(___.callPub(___.readPub(a,0),\"concat\",[2]),\"join\",[]); ⇒ return \"1,2\"
var f; f(); ⇒ ;var f;moduleResult___=___.asSimpleFunc(f)(); ⇒ throw error main#0 TypeError \"not a function\"
new Error('m').message; ⇒ ;var Error=___.readImport(IMPORTS___,\"Error\");moduleResult___=___.readPub(___.construct(Error,[\"m\"]),\"message\"); ⇒ return \"m\"
new Error; ⇒ ;var Error=___.readImport(IMPORTS___,\"Error\");moduleResult___=___.construct(Error,[]); ⇒ return error main#0 Error \"\"
new (Error)('a').name; ⇒ ;var Error=___.readImport(IMPORTS___,\"Error\");moduleResult___=___.readPub(___.construct(Error,[\"a\"]),\"name\"); ⇒ return \"Error\"
var o = {E: Error}; new o.E('x').message; ⇒ ;var Error=___.readImport(IMPORTS___,\"Error\");var o=___.initializeMap([\"E\",Error]);moduleResult___=___.readPub(___.construct(___.readPub(o,\"E\"),[\"x\"]),\"message\"); ⇒ return \"x\"
function f() { return Error; } new (f())('x').message; ⇒ ;var Error=___.readImport(IMPORTS___,\"Error\");function f(){return Error;}___.func(f);moduleResult___=___.readPub(___.construct(___.asSimpleFunc(f)(),[\"x\"]),\"message\"); ⇒ return \"x\"
function f() {} new f(1); ⇒ ;function f(){}___.func(f);moduleResult___=___.construct(f,[1]); ⇒ throw error main#1 TypeError \"not a constructor\"
(0, Math.abs)(-2); ⇒ ;var Math=___.readImport(IMPORTS___,\"Math\");moduleResult___=___.asSimpleFunc((0,___.readPub(Math,\"abs\")))(-2); ⇒ return 2
(Math.abs)(-2); ⇒ ;var Math=___.readImport(IMPORTS___,\"Math\");moduleResult___=___.callPub(Math,\"abs\",[-2]); ⇒ return 2
var f; (f = Math.abs)(-2); ⇒ ;var Math=___.readImport(IMPORTS___,\"Math\");var f;moduleResult___=___.asSimpleFunc(f=___.readPub(Math,\"abs\"))(-2); ⇒ return 2
function f(g) { return g; } f(f)(f)(3); ⇒ ;function f(g){return g;}___.func(f);moduleResult___=___.asSimpleFunc(___.asSimpleFunc(___.asSimpleFunc(f)(f))(f))(3); ⇒ return 3
function f(g) { return g; } f((1, 2)); ⇒ ;function f(g){return g;}___.func(f);moduleResult___=___.asSimpleFunc(f)((1,2)); ⇒ return 2
'a'.concat('b', (0, 'c')); ⇒ ;moduleResult___=___.callPub(\"a\",\"concat\",[\"b\",(0,\"c\")]); ⇒ return \"abc\"
typeof Math.abs(1); ⇒ ;var Math=___.readImport(IMPORTS___,\"Math\");moduleResult___=typeof ___.callPub(Math,\"abs\",[1]); ⇒ return \"number\"
-Math.abs(1) - -Math.abs(2); ⇒ ;var Math=___.readImport(IMPORTS___,\"Math\");moduleResult___=-___.callPub(Math,\"abs\",[1])- -___.callPub(Math,\"abs\",[2]); ⇒ return 1
'a' in {a: 1} && Error() instanceof Error; ⇒ ;var Error=___.readImport(IMPORTS___,\"Error\");moduleResult___=___.inPub(\"a\",___.initializeMap([\"a\",1]))&&___.instanceOf(___.asSimpleFunc(Error)(),Error); ⇒ return true
cajita.freeze({x: 1}).x; ⇒ ;var cajita=___.readImport(IMPORTS___,\"cajita\");moduleResult___=___.readPub(___.callPub(cajita,\"freeze\",[___.initializeMap([\"x\",1])]),\"x\"); ⇒ return 1
";

/// Loops over keys, each with three temporaries of its own before those of its parts.
static LOOPS: &str = "
for (var k in {a: 1}) {} ⇒ ,x0___,x1___,x2___,k;for(x0___=___.initializeMap([\"a\",1]),x1___=___.keysPub(x0___),x2___=0;x2___<x1___.length;x2___++){if(___.inPub(x1___[x2___],x0___)){k=x1___[x2___];{}}} ⇒ return undefined
var k; for (k in {a: 1}) {} k; ⇒ ,x0___,x1___,x2___;var k;for(x0___=___.initializeMap([\"a\",1]),x1___=___.keysPub(x0___),x2___=0;x2___<x1___.length;x2___++){if(___.inPub(x1___[x2___],x0___)){k=x1___[x2___];{}}}moduleResult___=k; ⇒ return \"a\"
var t = ''; for (var k in {a: 1, b: 2}) { t += k; } t; ⇒ ,x0___,x1___,x2___,k;var t=\"\";for(x0___=___.initializeMap([\"a\",1,\"b\",2]),x1___=___.keysPub(x0___),x2___=0;x2___<x1___.length;x2___++){if(___.inPub(x1___[x2___],x0___)){k=x1___[x2___];{t+=k;}}}moduleResult___=t; ⇒ return \"ab\"
for (var k in {a: 1}) ; k; ⇒ ,x0___,x1___,x2___,k;for(x0___=___.initializeMap([\"a\",1]),x1___=___.keysPub(x0___),x2___=0;x2___<x1___.length;x2___++){if(___.inPub(x1___[x2___],x0___)){k=x1___[x2___];;}}moduleResult___=k; ⇒ return \"a\"
var o = {}; for (o.k in {a: 1}) {} o.k; ⇒ ,x0___,x1___,x2___;var o=___.initializeMap([]);for(x0___=___.initializeMap([\"a\",1]),x1___=___.keysPub(x0___),x2___=0;x2___<x1___.length;x2___++){if(___.inPub(x1___[x2___],x0___)){___.setPub(o,\"k\",x1___[x2___]);{}}}moduleResult___=___.readPub(o,\"k\"); ⇒ return \"a\"
var a = []; for (a[a.length] in {x: 1}) {} a[0]; ⇒ ,x0___,x1___,x2___;var a=___.initializeArray([]);for(x0___=___.initializeMap([\"x\",1]),x1___=___.keysPub(x0___),x2___=0;x2___<x1___.length;x2___++){if(___.inPub(x1___[x2___],x0___)){___.setPub(a,___.readPub(a,\"length\"),x1___[x2___]);{}}}moduleResult___=___.readPub(a,0); ⇒ return \"x\"
var o = {n: 0}, a = []; for (a[o.n++] in {x: o.n += 1}) { o.n += 2; } ⇒ ,x0___,x1___,x2___,x3___,x4___,x5___,x6___;var o=___.initializeMap([\"n\",0]),a=___.initializeArray([]);for(x0___=___.initializeMap([\"x\",(x5___=o,___.setPub(x5___,\"n\",___.readPub(x5___,\"n\")+1))]),x1___=___.keysPub(x0___),x2___=0;x2___<x1___.length;x2___++){if(___.inPub(x1___[x2___],x0___)){___.setPub(a,(x3___=o,x4___=+___.readPub(x3___,\"n\"),___.setPub(x3___,\"n\",x4___+1),x4___),x1___[x2___]);{x6___=o,___.setPub(x6___,\"n\",___.readPub(x6___,\"n\")+2);}}} ⇒ throw error main#3 TypeError \"not writable\"
for (var k in {a: 1}) { for (var l in [1]) {} } k + l; ⇒ ,x0___,x1___,x2___,x3___,x4___,x5___,k,l;for(x0___=___.initializeMap([\"a\",1]),x1___=___.keysPub(x0___),x2___=0;x2___<x1___.length;x2___++){if(___.inPub(x1___[x2___],x0___)){k=x1___[x2___];{for(x3___=___.initializeArray([1]),x4___=___.keysPub(x3___),x5___=0;x5___<x4___.length;x5___++){if(___.inPub(x4___[x5___],x3___)){l=x4___[x5___];{}}}}}}moduleResult___=k+l; ⇒ return \"a0\"
for (var k in {a: 1}) { continue; } ⇒ ,x0___,x1___,x2___,k;for(x0___=___.initializeMap([\"a\",1]),x1___=___.keysPub(x0___),x2___=0;x2___<x1___.length;x2___++){if(___.inPub(x1___[x2___],x0___)){k=x1___[x2___];{continue;}}} ⇒ return undefined
a: for (var k in {a: 1}) { break a; } k; ⇒ ,x0___,x1___,x2___,k;a:for(x0___=___.initializeMap([\"a\",1]),x1___=___.keysPub(x0___),x2___=0;x2___<x1___.length;x2___++){if(___.inPub(x1___[x2___],x0___)){k=x1___[x2___];{break a;}}}moduleResult___=k; ⇒ return \"a\"
for (var k in {a: 1}) if (k) { 1; } else { 2; } ⇒ ,x0___,x1___,x2___,k;for(x0___=___.initializeMap([\"a\",1]),x1___=___.keysPub(x0___),x2___=0;x2___<x1___.length;x2___++){if(___.inPub(x1___[x2___],x0___)){k=x1___[x2___];if(k){1;}else{2;}}} ⇒ return undefined
for (var k in {}) {} for (var k in {b: 1}) {} k; ⇒ ,x0___,x1___,x2___,x3___,x4___,x5___,k;for(x0___=___.initializeMap([]),x1___=___.keysPub(x0___),x2___=0;x2___<x1___.length;x2___++){if(___.inPub(x1___[x2___],x0___)){k=x1___[x2___];{}}}for(x3___=___.initializeMap([\"b\",1]),x4___=___.keysPub(x3___),x5___=0;x5___<x4___.length;x5___++){if(___.inPub(x4___[x5___],x3___)){k=x4___[x5___];{}}}moduleResult___=k; ⇒ return \"b\"
var o = {n: 1}; o.n++; for (var k in o) { o[k]--; } o.n; ⇒ ,x0___,x1___,x2___,x3___,x4___,x5___,x6___,x7___,k;var o=___.initializeMap([\"n\",1]);moduleResult___=(x0___=o,x1___=+___.readPub(x0___,\"n\"),___.setPub(x0___,\"n\",x1___+1),x1___);for(x2___=o,x3___=___.keysPub(x2___),x4___=0;x4___<x3___.length;x4___++){if(___.inPub(x3___[x4___],x2___)){k=x3___[x4___];{x5___=o,x6___=___.key(k),x7___=+___.readPub(x5___,x6___),___.setPub(x5___,x6___,x7___-1),x7___;}}}moduleResult___=___.readPub(o,\"n\"); ⇒ return 1
";

/// Other statements in functions and out of them, and imports, which stand before the functions.
static STATEMENTS: &str = "
function f() { return Math.abs(say === later ? 1 : 2); } cajita.isFrozen(f(Error)); ⇒ ;var Math=___.readImport(IMPORTS___,\"Math\");var say=___.readImport(IMPORTS___,\"say\");var later=___.readImport(IMPORTS___,\"later\");var cajita=___.readImport(IMPORTS___,\"cajita\");var Error=___.readImport(IMPORTS___,\"Error\");function f(){return ___.callPub(Math,\"abs\",[say===later?1:2]);}___.func(f);moduleResult___=___.callPub(cajita,\"isFrozen\",[___.asSimpleFunc(f)(Error)]); ⇒ return true
function f() { return undefined; } Boolean(f()); ⇒ ;var undefined=___.readImport(IMPORTS___,\"undefined\");var Boolean=___.readImport(IMPORTS___,\"Boolean\");function f(){return undefined;}___.func(f);moduleResult___=___.asSimpleFunc(Boolean)(___.asSimpleFunc(f)()); ⇒ return false
function Math() { return 1; } Math(); ⇒ ;function Math(){return 1;}___.func(Math);moduleResult___=___.asSimpleFunc(Math)(); ⇒ return 1
function f(say) { return say; } f(String(1)); ⇒ ;var String=___.readImport(IMPORTS___,\"String\");function f(say){return say;}___.func(f);moduleResult___=___.asSimpleFunc(f)(___.asSimpleFunc(String)(1)); ⇒ return \"1\"
if (true) { 1; } else { 2; } ⇒ ;if(true){1;}else{2;} ⇒ return undefined
function f() { if (f) return 1; else return 2; } f(); ⇒ ;function f(){if(f)return 1;else return 2;}___.func(f);moduleResult___=___.asSimpleFunc(f)(); ⇒ return 1
try { throw {}; } catch (e) { e; } finally { 1; } ⇒ ;try{throw ___.initializeMap([]);}catch(e){e;}finally{1;} ⇒ return undefined
function f() { try { throw 1; } catch (e) { return e; } finally { 2; } } f(); ⇒ ;function f(){try{throw 1;}catch(e){return e;}finally{2;}}___.func(f);moduleResult___=___.asSimpleFunc(f)(); ⇒ return 1
function f(x) { switch (x) { case 1: return 'a'; default: return 'b'; } } f(1); ⇒ ;function f(x){switch(x){case 1:return\"a\";default:return\"b\";}}___.func(f);moduleResult___=___.asSimpleFunc(f)(1); ⇒ return \"a\"
l: while (true) { break l; } 1; ⇒ ;l:while(true){break l;}moduleResult___=1; ⇒ return 1
do { 1; } while (false); ⇒ ;do{1;}while(false); ⇒ return undefined
for (var i = 0, n = 2; i < n; i++) { i; } i; ⇒ ;for(var i=0,n=2;i<n;i++){i;}moduleResult___=i; ⇒ return 2
for (var f = function () { return 1; }; f() > 1; ) {} f(); ⇒ ;for(var f=___.func(function(){return 1;});___.asSimpleFunc(f)()>1;){}moduleResult___=___.asSimpleFunc(f)(); ⇒ return 1
1; { 2; } l: 3; ⇒ ;moduleResult___=1;{2;}l:3; ⇒ return 1
function f() { throw 'x'; } f(); ⇒ ;function f(){throw\"x\";}___.func(f);moduleResult___=___.asSimpleFunc(f)(); ⇒ throw \"x\"
";

/// A module that ends by too many open calls.
static ENDED: &str = "
function f() { f(); } f(); ⇒ ;function f(){___.asSimpleFunc(f)();}___.func(f);moduleResult___=___.asSimpleFunc(f)(); ⇒ end depth
";

#[test]
fn functions_are_marked(rt: HostRuntime) -> Result<(), Fail> {
    check_cajoled(rt.alloc(), FUNCTIONS, Status::Done)?;
    check_cajoled(rt.alloc(), ENDED, Status::Depth)
}

#[test]
fn heads_of_bodies(rt: HostRuntime) -> Result<(), Fail> {
    check_cajoled(rt.alloc(), BODIES, Status::Done)
}

#[test]
fn calls_go_through_guards(rt: HostRuntime) -> Result<(), Fail> {
    check_cajoled(rt.alloc(), CALLS, Status::Done)
}

#[test]
fn loops_over_keys(rt: HostRuntime) -> Result<(), Fail> {
    check_cajoled(rt.alloc(), LOOPS, Status::Done)
}

#[test]
fn statements_and_imports(rt: HostRuntime) -> Result<(), Fail> {
    check_cajoled(rt.alloc(), STATEMENTS, Status::Done)
}
