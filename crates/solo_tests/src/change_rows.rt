//! Modules that change variables and members: the source, its part of the cajoled text, and what the load gives.

use caja_cli::Status;
use command_runs::tables::check_cajoled;
use std::test::Fail;

/// An assignment with each operator, to a variable and to members by written and by computed keys (11.13.2).
static COMPOUND: &str = "
var a = 6; a += 2; a; ⇒ ;var a=6;moduleResult___=a+=2;moduleResult___=a; ⇒ return 8
var a = 6; a -= 2; a; ⇒ ;var a=6;moduleResult___=a-=2;moduleResult___=a; ⇒ return 4
var a = 6; a *= 2; a; ⇒ ;var a=6;moduleResult___=a*=2;moduleResult___=a; ⇒ return 12
var a = 6; a /= 2; a; ⇒ ;var a=6;moduleResult___=a/=2;moduleResult___=a; ⇒ return 3
var a = 6; a %= 2; a; ⇒ ;var a=6;moduleResult___=a%=2;moduleResult___=a; ⇒ return 0
var a = 6; a <<= 2; a; ⇒ ;var a=6;moduleResult___=a<<=2;moduleResult___=a; ⇒ return 24
var a = 6; a >>= 2; a; ⇒ ;var a=6;moduleResult___=a>>=2;moduleResult___=a; ⇒ return 1
var a = 6; a >>>= 2; a; ⇒ ;var a=6;moduleResult___=a>>>=2;moduleResult___=a; ⇒ return 1
var a = 6; a &= 2; a; ⇒ ;var a=6;moduleResult___=a&=2;moduleResult___=a; ⇒ return 2
var a = 6; a |= 2; a; ⇒ ;var a=6;moduleResult___=a|=2;moduleResult___=a; ⇒ return 6
var a = 6; a ^= 2; a; ⇒ ;var a=6;moduleResult___=a^=2;moduleResult___=a; ⇒ return 4
var o = {a: 12}; o.a += 2; o.a; ⇒ ,x0___;var o=___.initializeMap([\"a\",12]);moduleResult___=(x0___=o,___.setPub(x0___,\"a\",___.readPub(x0___,\"a\")+2));moduleResult___=___.readPub(o,\"a\"); ⇒ return 14
var o = {a: 12}; o.a -= 2; o.a; ⇒ ,x0___;var o=___.initializeMap([\"a\",12]);moduleResult___=(x0___=o,___.setPub(x0___,\"a\",___.readPub(x0___,\"a\")-2));moduleResult___=___.readPub(o,\"a\"); ⇒ return 10
var o = {a: 12}; o.a *= 2; o.a; ⇒ ,x0___;var o=___.initializeMap([\"a\",12]);moduleResult___=(x0___=o,___.setPub(x0___,\"a\",___.readPub(x0___,\"a\")*2));moduleResult___=___.readPub(o,\"a\"); ⇒ return 24
var o = {a: 12}; o.a /= 2; o.a; ⇒ ,x0___;var o=___.initializeMap([\"a\",12]);moduleResult___=(x0___=o,___.setPub(x0___,\"a\",___.readPub(x0___,\"a\")/2));moduleResult___=___.readPub(o,\"a\"); ⇒ return 6
var o = {a: 12}; o.a %= 2; o.a; ⇒ ,x0___;var o=___.initializeMap([\"a\",12]);moduleResult___=(x0___=o,___.setPub(x0___,\"a\",___.readPub(x0___,\"a\")%2));moduleResult___=___.readPub(o,\"a\"); ⇒ return 0
var o = {a: 12}; o.a <<= 2; o.a; ⇒ ,x0___;var o=___.initializeMap([\"a\",12]);moduleResult___=(x0___=o,___.setPub(x0___,\"a\",___.readPub(x0___,\"a\")<<2));moduleResult___=___.readPub(o,\"a\"); ⇒ return 48
var o = {a: 12}; o.a >>= 2; o.a; ⇒ ,x0___;var o=___.initializeMap([\"a\",12]);moduleResult___=(x0___=o,___.setPub(x0___,\"a\",___.readPub(x0___,\"a\")>>2));moduleResult___=___.readPub(o,\"a\"); ⇒ return 3
var o = {a: 12}; o.a >>>= 2; o.a; ⇒ ,x0___;var o=___.initializeMap([\"a\",12]);moduleResult___=(x0___=o,___.setPub(x0___,\"a\",___.readPub(x0___,\"a\")>>>2));moduleResult___=___.readPub(o,\"a\"); ⇒ return 3
var o = {a: 12}; o.a &= 2; o.a; ⇒ ,x0___;var o=___.initializeMap([\"a\",12]);moduleResult___=(x0___=o,___.setPub(x0___,\"a\",___.readPub(x0___,\"a\")&2));moduleResult___=___.readPub(o,\"a\"); ⇒ return 0
var o = {a: 12}; o.a |= 2; o.a; ⇒ ,x0___;var o=___.initializeMap([\"a\",12]);moduleResult___=(x0___=o,___.setPub(x0___,\"a\",___.readPub(x0___,\"a\")|2));moduleResult___=___.readPub(o,\"a\"); ⇒ return 14
var o = {a: 12}; o.a ^= 2; o.a; ⇒ ,x0___;var o=___.initializeMap([\"a\",12]);moduleResult___=(x0___=o,___.setPub(x0___,\"a\",___.readPub(x0___,\"a\")^2));moduleResult___=___.readPub(o,\"a\"); ⇒ return 14
var a = [12]; a[0] += 2; ⇒ ,x0___,x1___;var a=___.initializeArray([12]);moduleResult___=(x0___=a,x1___=___.key(0),___.setPub(x0___,x1___,___.readPub(x0___,x1___)+2)); ⇒ return 14
var a = [12]; a[0] -= 2; ⇒ ,x0___,x1___;var a=___.initializeArray([12]);moduleResult___=(x0___=a,x1___=___.key(0),___.setPub(x0___,x1___,___.readPub(x0___,x1___)-2)); ⇒ return 10
var a = [12]; a[0] *= 2; ⇒ ,x0___,x1___;var a=___.initializeArray([12]);moduleResult___=(x0___=a,x1___=___.key(0),___.setPub(x0___,x1___,___.readPub(x0___,x1___)*2)); ⇒ return 24
var a = [12]; a[0] /= 2; ⇒ ,x0___,x1___;var a=___.initializeArray([12]);moduleResult___=(x0___=a,x1___=___.key(0),___.setPub(x0___,x1___,___.readPub(x0___,x1___)/2)); ⇒ return 6
var a = [12]; a[0] %= 2; ⇒ ,x0___,x1___;var a=___.initializeArray([12]);moduleResult___=(x0___=a,x1___=___.key(0),___.setPub(x0___,x1___,___.readPub(x0___,x1___)%2)); ⇒ return 0
var a = [12]; a[0] <<= 2; ⇒ ,x0___,x1___;var a=___.initializeArray([12]);moduleResult___=(x0___=a,x1___=___.key(0),___.setPub(x0___,x1___,___.readPub(x0___,x1___)<<2)); ⇒ return 48
var a = [12]; a[0] >>= 2; ⇒ ,x0___,x1___;var a=___.initializeArray([12]);moduleResult___=(x0___=a,x1___=___.key(0),___.setPub(x0___,x1___,___.readPub(x0___,x1___)>>2)); ⇒ return 3
var a = [12]; a[0] >>>= 2; ⇒ ,x0___,x1___;var a=___.initializeArray([12]);moduleResult___=(x0___=a,x1___=___.key(0),___.setPub(x0___,x1___,___.readPub(x0___,x1___)>>>2)); ⇒ return 3
var a = [12]; a[0] &= 2; ⇒ ,x0___,x1___;var a=___.initializeArray([12]);moduleResult___=(x0___=a,x1___=___.key(0),___.setPub(x0___,x1___,___.readPub(x0___,x1___)&2)); ⇒ return 0
var a = [12]; a[0] |= 2; ⇒ ,x0___,x1___;var a=___.initializeArray([12]);moduleResult___=(x0___=a,x1___=___.key(0),___.setPub(x0___,x1___,___.readPub(x0___,x1___)|2)); ⇒ return 14
var a = [12]; a[0] ^= 2; ⇒ ,x0___,x1___;var a=___.initializeArray([12]);moduleResult___=(x0___=a,x1___=___.key(0),___.setPub(x0___,x1___,___.readPub(x0___,x1___)^2)); ⇒ return 14
var o = {a: 'x'}; o.a += 1; ⇒ ,x0___;var o=___.initializeMap([\"a\",\"x\"]);moduleResult___=(x0___=o,___.setPub(x0___,\"a\",___.readPub(x0___,\"a\")+1)); ⇒ return \"x1\"
null.a += 1; ⇒ ,x0___;moduleResult___=(x0___=null,___.setPub(x0___,\"a\",___.readPub(x0___,\"a\")+1)); ⇒ throw error main#0 TypeError \"no object\"
({}).a += null.b; ⇒ ,x0___;moduleResult___=(x0___=___.initializeMap([]),___.setPub(x0___,\"a\",___.readPub(x0___,\"a\")+___.readPub(null,\"b\"))); ⇒ throw error main#1 TypeError \"no object\"
var o = {a: {b: 1}}; o.a.b += o.a.b += 2; o.a.b; ⇒ ,x0___,x1___;var o=___.initializeMap([\"a\",___.initializeMap([\"b\",1])]);moduleResult___=(x0___=___.readPub(o,\"a\"),___.setPub(x0___,\"b\",___.readPub(x0___,\"b\")+(x1___=___.readPub(o,\"a\"),___.setPub(x1___,\"b\",___.readPub(x1___,\"b\")+2))));moduleResult___=___.readPub(___.readPub(o,\"a\"),\"b\"); ⇒ return 4
";

/// Among them, what has no exact value.
static COMPOUND_WITHOUT_NUMBER: &str = "
var o = {}; o.a += 1; ⇒ ,x0___;var o=___.initializeMap([]);moduleResult___=(x0___=o,___.setPub(x0___,\"a\",___.readPub(x0___,\"a\")+1)); ⇒ end number
var o = {}, k = {}; o[k] += 1; ⇒ ,x0___,x1___;var o=___.initializeMap([]),k=___.initializeMap([]);moduleResult___=(x0___=o,x1___=___.key(k),___.setPub(x0___,x1___,___.readPub(x0___,x1___)+1)); ⇒ end number
[][0] += 1; ⇒ ,x0___,x1___;moduleResult___=(x0___=___.initializeArray([]),x1___=___.key(0),___.setPub(x0___,x1___,___.readPub(x0___,x1___)+1)); ⇒ end number
(5).a += 1; ⇒ ,x0___;moduleResult___=(x0___=5,___.setPub(x0___,\"a\",___.readPub(x0___,\"a\")+1)); ⇒ end number
({})['a__'] += 1; ⇒ ,x0___,x1___;moduleResult___=(x0___=___.initializeMap([]),x1___=___.key(\"a__\"),___.setPub(x0___,x1___,___.readPub(x0___,x1___)+1)); ⇒ end number
";

/// `++` and `--` before and behind (11.3, 11.4.4, 11.4.5).
static STEPS: &str = "
var a = 5; ++a; ⇒ ;var a=5;moduleResult___=++a; ⇒ return 6
var a = 5; --a; ⇒ ;var a=5;moduleResult___=--a; ⇒ return 4
var a = 5; a++; ⇒ ;var a=5;moduleResult___=a++; ⇒ return 5
var a = 5; a--; a; ⇒ ;var a=5;moduleResult___=a--;moduleResult___=a; ⇒ return 4
var a = '5'; a++; ⇒ ;var a=\"5\";moduleResult___=a++; ⇒ return 5
var o = {a: 1}; ++o.a; ⇒ ,x0___;var o=___.initializeMap([\"a\",1]);moduleResult___=(x0___=o,___.setPub(x0___,\"a\",+___.readPub(x0___,\"a\")+1)); ⇒ return 2
var o = {a: 1}; --o.a; ⇒ ,x0___;var o=___.initializeMap([\"a\",1]);moduleResult___=(x0___=o,___.setPub(x0___,\"a\",+___.readPub(x0___,\"a\")-1)); ⇒ return 0
var o = {a: 1}; o.a++; ⇒ ,x0___,x1___;var o=___.initializeMap([\"a\",1]);moduleResult___=(x0___=o,x1___=+___.readPub(x0___,\"a\"),___.setPub(x0___,\"a\",x1___+1),x1___); ⇒ return 1
var o = {a: 1}; o.a++; o.a; ⇒ ,x0___,x1___;var o=___.initializeMap([\"a\",1]);moduleResult___=(x0___=o,x1___=+___.readPub(x0___,\"a\"),___.setPub(x0___,\"a\",x1___+1),x1___);moduleResult___=___.readPub(o,\"a\"); ⇒ return 2
var o = {a: 1}; o.a--; o.a; ⇒ ,x0___,x1___;var o=___.initializeMap([\"a\",1]);moduleResult___=(x0___=o,x1___=+___.readPub(x0___,\"a\"),___.setPub(x0___,\"a\",x1___-1),x1___);moduleResult___=___.readPub(o,\"a\"); ⇒ return 0
var a = [1]; ++a[0]; ⇒ ,x0___,x1___;var a=___.initializeArray([1]);moduleResult___=(x0___=a,x1___=___.key(0),___.setPub(x0___,x1___,+___.readPub(x0___,x1___)+1)); ⇒ return 2
var a = [1]; a[0]++; ⇒ ,x0___,x1___,x2___;var a=___.initializeArray([1]);moduleResult___=(x0___=a,x1___=___.key(0),x2___=+___.readPub(x0___,x1___),___.setPub(x0___,x1___,x2___+1),x2___); ⇒ return 1
var a = [1]; a[0]--; a[0]; ⇒ ,x0___,x1___,x2___;var a=___.initializeArray([1]);moduleResult___=(x0___=a,x1___=___.key(0),x2___=+___.readPub(x0___,x1___),___.setPub(x0___,x1___,x2___-1),x2___);moduleResult___=___.readPub(a,0); ⇒ return 0
var a = [1]; --a['0']; ⇒ ,x0___,x1___;var a=___.initializeArray([1]);moduleResult___=(x0___=a,x1___=___.key(\"0\"),___.setPub(x0___,x1___,+___.readPub(x0___,x1___)-1)); ⇒ return 0
var o = {a: '7'}; o.a++; ⇒ ,x0___,x1___;var o=___.initializeMap([\"a\",\"7\"]);moduleResult___=(x0___=o,x1___=+___.readPub(x0___,\"a\"),___.setPub(x0___,\"a\",x1___+1),x1___); ⇒ return 7
var o = {a: '7'}; ++o.a; ⇒ ,x0___;var o=___.initializeMap([\"a\",\"7\"]);moduleResult___=(x0___=o,___.setPub(x0___,\"a\",+___.readPub(x0___,\"a\")+1)); ⇒ return 8
null.a++; ⇒ ,x0___,x1___;moduleResult___=(x0___=null,x1___=+___.readPub(x0___,\"a\"),___.setPub(x0___,\"a\",x1___+1),x1___); ⇒ throw error main#0 TypeError \"no object\"
++null.a; ⇒ ,x0___;moduleResult___=(x0___=null,___.setPub(x0___,\"a\",+___.readPub(x0___,\"a\")+1)); ⇒ throw error main#0 TypeError \"no object\"
'abc'.length++; ⇒ ,x0___,x1___;moduleResult___=(x0___=\"abc\",x1___=+___.readPub(x0___,\"length\"),___.setPub(x0___,\"length\",x1___+1),x1___); ⇒ throw error main#0 TypeError \"not writable\"
var a = []; a.length++; ⇒ ,x0___,x1___;var a=___.initializeArray([]);moduleResult___=(x0___=a,x1___=+___.readPub(x0___,\"length\"),___.setPub(x0___,\"length\",x1___+1),x1___); ⇒ throw error main#1 TypeError \"not writable\"
var o = {a: 1}, k = 'a'; o[k]++ + ++o[k]; ⇒ ,x0___,x1___,x2___,x3___,x4___;var o=___.initializeMap([\"a\",1]),k=\"a\";moduleResult___=(x0___=o,x1___=___.key(k),x2___=+___.readPub(x0___,x1___),___.setPub(x0___,x1___,x2___+1),x2___)+(x3___=o,x4___=___.key(k),___.setPub(x3___,x4___,+___.readPub(x3___,x4___)+1)); ⇒ return 4
";

/// Among them, what has no exact value.
static STEPS_WITHOUT_NUMBER: &str = "
(5).a++; ⇒ ,x0___,x1___;moduleResult___=(x0___=5,x1___=+___.readPub(x0___,\"a\"),___.setPub(x0___,\"a\",x1___+1),x1___); ⇒ end number
var o = {}; o.a++; ⇒ ,x0___,x1___;var o=___.initializeMap([]);moduleResult___=(x0___=o,x1___=+___.readPub(x0___,\"a\"),___.setPub(x0___,\"a\",x1___+1),x1___); ⇒ end number
var u; u++; ⇒ ;var u;moduleResult___=u++; ⇒ end number
var a = 9007199254740991; a++; ⇒ ;var a=9007199254740991;moduleResult___=a++; ⇒ end number
";

/// What is frozen, and names that every module has.
static FROZEN: &str = "
cajita.freeze = 1; ⇒ ;var cajita=___.readImport(IMPORTS___,\"cajita\");moduleResult___=___.setPub(cajita,\"freeze\",1); ⇒ throw error main#0 TypeError \"not writable\"
cajita.toString; ⇒ ;var cajita=___.readImport(IMPORTS___,\"cajita\");moduleResult___=___.readPub(cajita,\"toString\"); ⇒ return undefined
Math.abs.x; ⇒ ;var Math=___.readImport(IMPORTS___,\"Math\");moduleResult___=___.readPub(___.readPub(Math,\"abs\"),\"x\"); ⇒ return undefined
Error.prototype; ⇒ ;var Error=___.readImport(IMPORTS___,\"Error\");moduleResult___=___.readPub(Error,\"prototype\"); ⇒ return undefined
TypeError === Error; ⇒ ;var TypeError=___.readImport(IMPORTS___,\"TypeError\");var Error=___.readImport(IMPORTS___,\"Error\");moduleResult___=TypeError===Error; ⇒ return false
Number === Number; ⇒ ;var Number=___.readImport(IMPORTS___,\"Number\");moduleResult___=Number===Number; ⇒ return true
String; ⇒ ;var String=___.readImport(IMPORTS___,\"String\");moduleResult___=String; ⇒ return function !String
Boolean; ⇒ ;var Boolean=___.readImport(IMPORTS___,\"Boolean\");moduleResult___=Boolean; ⇒ return function !Boolean
later; ⇒ ;var later=___.readImport(IMPORTS___,\"later\");moduleResult___=later; ⇒ return function main!later
say === later; ⇒ ;var say=___.readImport(IMPORTS___,\"say\");var later=___.readImport(IMPORTS___,\"later\");moduleResult___=say===later; ⇒ return false
Math.abs = null; 1; ⇒ ;var Math=___.readImport(IMPORTS___,\"Math\");moduleResult___=___.setPub(Math,\"abs\",null);moduleResult___=1; ⇒ throw error main#0 TypeError \"not writable\"
delete Math.abs; Math.abs; ⇒ ;var Math=___.readImport(IMPORTS___,\"Math\");moduleResult___=___.deletePub(Math,\"abs\");moduleResult___=___.readPub(Math,\"abs\"); ⇒ throw error main#0 TypeError \"not deletable\"
typeof cajita.keys; ⇒ ;var cajita=___.readImport(IMPORTS___,\"cajita\");moduleResult___=typeof ___.readPub(cajita,\"keys\"); ⇒ return \"function\"
var o = {f: say}; o.f === say; ⇒ ;var say=___.readImport(IMPORTS___,\"say\");var o=___.initializeMap([\"f\",say]);moduleResult___=___.readPub(o,\"f\")===say; ⇒ return true
[Math, cajita, say]; ⇒ ;var Math=___.readImport(IMPORTS___,\"Math\");var cajita=___.readImport(IMPORTS___,\"cajita\");var say=___.readImport(IMPORTS___,\"say\");moduleResult___=___.initializeArray([Math,cajita,say]); ⇒ return array main#0
";

#[test]
fn assignments_by_an_operator(rt: HostRuntime) -> Result<(), Fail> {
    check_cajoled(rt.alloc(), COMPOUND, Status::Done)?;
    check_cajoled(rt.alloc(), COMPOUND_WITHOUT_NUMBER, Status::Number)
}

#[test]
fn steps_before_and_behind(rt: HostRuntime) -> Result<(), Fail> {
    check_cajoled(rt.alloc(), STEPS, Status::Done)?;
    check_cajoled(rt.alloc(), STEPS_WITHOUT_NUMBER, Status::Number)
}

#[test]
fn what_every_module_has_stays_as_it_is(rt: HostRuntime) -> Result<(), Fail> {
    check_cajoled(rt.alloc(), FROZEN, Status::Done)
}
