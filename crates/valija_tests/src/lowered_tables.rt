//! Sources of Valija, with the text of what they are lowered to, which stands behind the prelude.

/// Names that nothing declares, operators, literals.
pub static NAMES: &str = r#"
x = 1; x + 1; ⇒ $v.so("x",1);$v.ro("x")+1;
typeof x; typeof say; var y; typeof y; ⇒ $v.to("x");typeof say;var y;typeof y;
x += 2; x -= y; var z; z *= x; ⇒ $v.so("x",$v.ro("x")+2);$v.so("x",$v.ro("x")-$v.ro("y"));var z;z*=$v.ro("x");
++x; --x; x++; x--; ⇒ var $v0,$v1;$v.so("x",+$v.ro("x")+1);$v.so("x",+$v.ro("x")-1);$v0=+$v.ro("x"),$v.so("x",$v0+1),$v0;$v1=+$v.ro("x"),$v.so("x",$v1-1),$v1;
$w = 1; ⇒ $v.so("$w",1);
var a = b = 1; ⇒ var a=$v.so("b",1);
void x; ~y; +z; -x; !y; ⇒ void $v.ro("x");~$v.ro("y");+$v.ro("z");-$v.ro("x");!$v.ro("y");
var x = 1; function f() { var x; x = 2; y = x; } ⇒ var f=$v.dis(function($dis){var x;x=2;$v.so("y",x);});var x=1;
[x, 1, 'a']; ({a: x, 'b': this, 1: null}); ⇒ [$v.ro("x"),1,"a"];({"a":$v.ro("x"),"b":void 0,"1":null});
x ? y : z; x && y || true; x, y; ⇒ $v.ro("x")?$v.ro("y"):$v.ro("z");$v.ro("x")&&$v.ro("y")||true;$v.ro("x"),$v.ro("y");
'a' in o; say instanceof Error; 1 < 2; ⇒ $v.h("a",$v.ro("o"));$v.io(say,Error);1<2;
'a' in b in c; ⇒ $v.h($v.h("a",$v.ro("b")),$v.ro("c"));
"#;

/// Members, calls, `new`, with what is held in temporaries.
pub static MEMBERS: &str = r#"
o.k; o[k]; o.a.b[c]; ⇒ $v.r($v.ro("o"),"k");$v.r($v.ro("o"),$v.ro("k"));$v.r($v.r($v.r($v.ro("o"),"a"),"b"),$v.ro("c"));
o['<']; ⇒ $v.r($v.ro("o"),"\x3C");
var o = {}; o.k = 1; o['k'] = 2; delete o.k; delete o['k']; ⇒ var o={};$v.s(o,"k",1);$v.s(o,"k",2);$v.d(o,"k");$v.d(o,"k");
o.a = o.b = 1; ⇒ $v.s($v.ro("o"),"a",$v.s($v.ro("o"),"b",1));
var o = {}; o.k += 1; o[1] *= 2; ⇒ var $v0,$v1,$v2;var o={};$v0=o,$v.s($v0,"k",$v.r($v0,"k")+1);$v1=o,$v2=""+1,$v.s($v1,$v2,$v.r($v1,$v2)*2);
var o = {}; ++o.k; o.k--; --o[1]; o[2]++; ⇒ var $v0,$v1,$v2,$v3,$v4,$v5,$v6,$v7;var o={};$v0=o,$v.s($v0,"k",+$v.r($v0,"k")+1);$v1=o,$v2=+$v.r($v1,"k"),$v.s($v1,"k",$v2-1),$v2;$v3=o,$v4=""+1,$v.s($v3,$v4,+$v.r($v3,$v4)-1);$v5=o,$v6=""+2,$v7=+$v.r($v5,$v6),$v.s($v5,$v6,$v7+1),$v7;
o.a += p.b += 1; ⇒ var $v0,$v1;$v0=$v.ro("o"),$v.s($v0,"a",$v.r($v0,"a")+($v1=$v.ro("p"),$v.s($v1,"b",$v.r($v1,"b")+1)));
typeof o.k; void o[0]; ⇒ typeof $v.r($v.ro("o"),"k");void $v.r($v.ro("o"),0);
f(); o.m(1); o['m'](1, 2); f()(); ⇒ $v.cf($v.ro("f"),[]);$v.cm($v.ro("o"),"m",[1]);$v.cm($v.ro("o"),"m",[1,2]);$v.cf($v.cf($v.ro("f"),[]),[]);
new P; new P(1); new (f())(this); new o.P().m(); ⇒ $v.n($v.ro("P"),[]);$v.n($v.ro("P"),[1]);$v.n($v.cf($v.ro("f"),[]),[void 0]);$v.cm($v.n($v.r($v.ro("o"),"P"),[]),"m",[]);
f(o.a++, x++); ⇒ var $v0,$v1,$v2;$v.cf($v.ro("f"),[($v0=$v.ro("o"),$v1=+$v.r($v0,"a"),$v.s($v0,"a",$v1+1),$v1),($v2=+$v.ro("x"),$v.so("x",$v2+1),$v2)]);
"#;

/// Functions, `this`, `arguments`, constructors.
pub static FUNCTIONS: &str = r#"
this; function f() { return this; } f(this); ⇒ var f=$v.dis(function($dis){return $dis;});void 0;$v.cf(f,[void 0]);
function f() { return arguments.length + arguments[0]; } ⇒ var f=$v.dis(function($dis){return $v.r(arguments.slice(1),"length")+$v.r(arguments.slice(1),0);});
function f() { return; } f.apply(null, [1]); ⇒ var f=$v.dis(function($dis){return;});$v.cm(f,"apply",[null,[1]]);
var f = function (a, b) { return a; }; f(1, 2); ⇒ var f=$v.dis(function($dis,a,b){return a;});$v.cf(f,[1,2]);
(function f(n) { return n ? f(n - 1) : 0; })(3); ⇒ $v.cf(function(){var f=$v.dis(function($dis,n){return n?$v.cf(f,[n-1]):0;});return f;}(),[3]);
(function g() { g = 1; this.k = g; }); ⇒ (function(){var g=$v.dis(function($dis){g=1;$v.s($dis,"k",g);});return g;}());
f(); var a = 1; function f() { return g(); } function g() { return a; } ⇒ var f=$v.dis(function($dis){return $v.cf(g,[]);});var g=$v.dis(function($dis){return a;});$v.cf(f,[]);var a=1;
function f() {} function f(a) { return a; } f = 1; ⇒ var f=$v.dis(function($dis){});var f=$v.dis(function($dis,a){return a;});f=1;
o.a++; (function () { o.b++; }); ⇒ var $v0,$v1;$v0=$v.ro("o"),$v1=+$v.r($v0,"a"),$v.s($v0,"a",$v1+1),$v1;$v.dis(function($dis){var $v0,$v1;$v0=$v.ro("o"),$v1=+$v.r($v0,"b"),$v.s($v0,"b",$v1+1),$v1;});
function P(x) { this.x = x; } P.prototype.get = function () { return this.x; }; new P(4).get(); ⇒ var P=$v.dis(function($dis,x){$v.s($dis,"x",x);});$v.s($v.r(P,"prototype"),"get",$v.dis(function($dis){return $v.r($dis,"x");}));$v.cm($v.n(P,[4]),"get",[]);
function A() {} function B() { A.call(this, 1); } B.prototype = new A; new B instanceof A; ⇒ var A=$v.dis(function($dis){});var B=$v.dis(function($dis){$v.cm(A,"call",[$dis,1]);});$v.s(B,"prototype",$v.n(A,[]));$v.io($v.n(B,[]),A);
function f() { function g() { return this; } return g; } ⇒ var f=$v.dis(function($dis){var g=$v.dis(function($dis){return $dis;});return g;});
"#;

/// Statements, with loops over keys.
pub static STATEMENTS: &str = r#"
; {} {x;} ⇒ ;{}{$v.ro("x");}
try { x; } catch (e) { e.m(); } finally { e; } ⇒ try{$v.ro("x");}catch(e){$v.cm(e,"m",[]);}finally{$v.ro("e");}
try { x; } catch (e) {} try {} finally { y; } ⇒ try{$v.ro("x");}catch(e){}try{}finally{$v.ro("y");}
try {} catch (e) { f(function () { e = 1; }); } ⇒ try{}catch(e){$v.cf($v.ro("f"),[$v.dis(function($dis){e=1;})]);}
try { a++; } catch (e) { b++; } finally { c++; } ⇒ var $v0,$v1,$v2;try{$v0=+$v.ro("a"),$v.so("a",$v0+1),$v0;}catch(e){$v1=+$v.ro("b"),$v.so("b",$v1+1),$v1;}finally{$v2=+$v.ro("c"),$v.so("c",$v2+1),$v2;}
l: for (var i = 0; i < n; i++) { if (i) continue l; else break l; } ⇒ l:for(var i=0;i<$v.ro("n");i++){if(i)continue l;else break l;}
for (var i = ('a' in o); i; ) break; for (i = 0; ; ) break; ⇒ for(var i=$v.h("a",$v.ro("o"));i;)break;for(i=0;;)break;
do { x++; } while (x < 3); ⇒ var $v0;do{$v0=+$v.ro("x"),$v.so("x",$v0+1),$v0;}while($v.ro("x")<3);
while (x) { throw y; } ⇒ while($v.ro("x")){throw $v.ro("y");}
switch (x) { case y: z; default: ; } ⇒ switch($v.ro("x")){case $v.ro("y"):$v.ro("z");default:;}
for (x in o) x; ⇒ var $v0,$v1,$v2;for($v0=$v.ro("o"),$v1=$v.ks($v0),$v2=0;$v2<$v1.length;$v2++){if($v.h($v1[$v2],$v0)){$v.so("x",$v1[$v2]);$v.ro("x");}}
for (var k in {a: 1}) ; ⇒ var $v0,$v1,$v2,k;for($v0={"a":1},$v1=$v.ks($v0),$v2=0;$v2<$v1.length;$v2++){if($v.h($v1[$v2],$v0)){k=$v1[$v2];;}}
var k; for (var k in {}) ; ⇒ var $v0,$v1,$v2,k;var k;for($v0={},$v1=$v.ks($v0),$v2=0;$v2<$v1.length;$v2++){if($v.h($v1[$v2],$v0)){k=$v1[$v2];;}}
function f(o) { for (o.k in o) { o[0] = 1; } } ⇒ var f=$v.dis(function($dis,o){var $v0,$v1,$v2;for($v0=o,$v1=$v.ks($v0),$v2=0;$v2<$v1.length;$v2++){if($v.h($v1[$v2],$v0)){$v.s(o,"k",$v1[$v2]);{$v.s(o,0,1);}}}});
for (o[i++] in p) ; ⇒ var $v0,$v1,$v2,$v3;for($v0=$v.ro("p"),$v1=$v.ks($v0),$v2=0;$v2<$v1.length;$v2++){if($v.h($v1[$v2],$v0)){$v.s($v.ro("o"),($v3=+$v.ro("i"),$v.so("i",$v3+1),$v3),$v1[$v2]);;}}
for (var a in say) for (var b in say) ; ⇒ var $v0,$v1,$v2,$v3,$v4,$v5,a,b;for($v0=say,$v1=$v.ks($v0),$v2=0;$v2<$v1.length;$v2++){if($v.h($v1[$v2],$v0)){a=$v1[$v2];for($v3=say,$v4=$v.ks($v3),$v5=0;$v5<$v4.length;$v5++){if($v.h($v4[$v5],$v3)){b=$v4[$v5];;}}}}
"#;

/// Sources that are granted `board` and `view`.
pub static GRANTED: &str = r#"
board.set(x); x = board; view; ⇒ $v.cm(board,"set",[$v.ro("x")]);$v.so("x",board);view;
typeof board; typeof bored; ⇒ typeof board;$v.to("bored");
function f(board) { board = 1; view(board); } ⇒ var f=$v.dis(function($dis,board){board=1;$v.cf(view,[board]);});
for (var k in view) board[k] = view[k]; ⇒ var $v0,$v1,$v2,k;for($v0=view,$v1=$v.ks($v0),$v2=0;$v2<$v1.length;$v2++){if($v.h($v1[$v2],$v0)){k=$v1[$v2];$v.s(board,k,$v.r(view,k));}}
new board.Point(1, 2); ⇒ $v.n($v.r(board,"Point"),[1,2]);
"#;
