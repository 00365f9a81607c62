//! Modules of values and operators: the source, what the function of its cajoled text does behind the name of its result, and what the load gives.

use caja_cli::Status;
use command_runs::tables::check_cajoled;
use std::test::Fail;

/// Literals, names and `var` (ES3 7.8, 11.1, 12.2).
static LITERALS: &str = "
null; ⇒ ;moduleResult___=null; ⇒ return null
true; ⇒ ;moduleResult___=true; ⇒ return true
false; ⇒ ;moduleResult___=false; ⇒ return false
0; ⇒ ;moduleResult___=0; ⇒ return 0
9007199254740991; ⇒ ;moduleResult___=9007199254740991; ⇒ return 9007199254740991
'a\\'b'; ⇒ ;moduleResult___=\"a'b\"; ⇒ return \"a'b\"
''; ⇒ ;moduleResult___=\"\"; ⇒ return \"\"
'<a>&'; ⇒ ;moduleResult___=\"\\x3Ca\\x3E&\"; ⇒ return \"\\x3Ca\\x3E&\"
[]; ⇒ ;moduleResult___=___.initializeArray([]); ⇒ return array main#0
[1, [2, 'x'], {}]; ⇒ ;moduleResult___=___.initializeArray([1,___.initializeArray([2,\"x\"]),___.initializeMap([])]); ⇒ return array main#2
({}); ⇒ ;moduleResult___=___.initializeMap([]); ⇒ return record main#0
({a: 1, 'b c': 2, 3: 4}); ⇒ ;moduleResult___=___.initializeMap([\"a\",1,\"b c\",2,\"3\",4]); ⇒ return record main#0
undefined; ⇒ ;var undefined=___.readImport(IMPORTS___,\"undefined\");moduleResult___=undefined; ⇒ return undefined
var a; a; ⇒ ;var a;moduleResult___=a; ⇒ return undefined
var a = 1, b, c = a; c; ⇒ ;var a=1,b,c=a;moduleResult___=c; ⇒ return 1
var a = 1; var a; a; ⇒ ;var a=1;var a;moduleResult___=a; ⇒ return 1
var a; var b; 5; ⇒ ;var a;var b;moduleResult___=5; ⇒ return 5
 ⇒ ; ⇒ return undefined
 1; 2; 3; ⇒ ;moduleResult___=1;moduleResult___=2;moduleResult___=3; ⇒ return 3
Math; ⇒ ;var Math=___.readImport(IMPORTS___,\"Math\");moduleResult___=Math; ⇒ return record !Math
cajita; ⇒ ;var cajita=___.readImport(IMPORTS___,\"cajita\");moduleResult___=cajita; ⇒ return record !cajita
say; ⇒ ;var say=___.readImport(IMPORTS___,\"say\");moduleResult___=say; ⇒ return function main!say
Error; ⇒ ;var Error=___.readImport(IMPORTS___,\"Error\");moduleResult___=Error; ⇒ return function !Error
Number; ⇒ ;var Number=___.readImport(IMPORTS___,\"Number\");moduleResult___=Number; ⇒ return function !Number
({a: undefined, b: Math}).b; ⇒ ;var undefined=___.readImport(IMPORTS___,\"undefined\");var Math=___.readImport(IMPORTS___,\"Math\");moduleResult___=___.readPub(___.initializeMap([\"a\",undefined,\"b\",Math]),\"b\"); ⇒ return record !Math
";

/// Operators before an operand, with `typeof` of each kind (11.4).
static UNARY: &str = "
-5; ⇒ ;moduleResult___=-5; ⇒ return -5
+'12'; ⇒ ;moduleResult___=+\"12\"; ⇒ return 12
!0; ⇒ ;moduleResult___=!0; ⇒ return true
!'a'; ⇒ ;moduleResult___=!\"a\"; ⇒ return false
~5; ⇒ ;moduleResult___=~5; ⇒ return -6
void 1; ⇒ ;moduleResult___=void 1; ⇒ return undefined
-[3]; ⇒ ;moduleResult___=-___.initializeArray([3]); ⇒ return -3
-null; ⇒ ;moduleResult___=-null; ⇒ return 0
+true; ⇒ ;moduleResult___=+true; ⇒ return 1
typeof 1; ⇒ ;moduleResult___=typeof 1; ⇒ return \"number\"
typeof 'a'; ⇒ ;moduleResult___=typeof\"a\"; ⇒ return \"string\"
typeof true; ⇒ ;moduleResult___=typeof true; ⇒ return \"boolean\"
typeof undefined; ⇒ ;var undefined=___.readImport(IMPORTS___,\"undefined\");moduleResult___=typeof undefined; ⇒ return \"undefined\"
typeof null; ⇒ ;moduleResult___=typeof null; ⇒ return \"object\"
typeof {}; ⇒ ;moduleResult___=typeof ___.initializeMap([]); ⇒ return \"object\"
typeof []; ⇒ ;moduleResult___=typeof ___.initializeArray([]); ⇒ return \"object\"
typeof say; ⇒ ;var say=___.readImport(IMPORTS___,\"say\");moduleResult___=typeof say; ⇒ return \"function\"
typeof Math; ⇒ ;var Math=___.readImport(IMPORTS___,\"Math\");moduleResult___=typeof Math; ⇒ return \"object\"
typeof Error; ⇒ ;var Error=___.readImport(IMPORTS___,\"Error\");moduleResult___=typeof Error; ⇒ return \"function\"
var a; typeof a; ⇒ ;var a;moduleResult___=typeof a; ⇒ return \"undefined\"
typeof typeof 1; ⇒ ;moduleResult___=typeof typeof 1; ⇒ return \"string\"
!{}; ⇒ ;moduleResult___=!___.initializeMap([]); ⇒ return false
-'0x10'; ⇒ ;moduleResult___=-\"0x10\"; ⇒ return -16
";

/// Among them, what has no exact value.
static UNARY_WITHOUT_NUMBER: &str = "
+'x'; ⇒ ;moduleResult___=+\"x\"; ⇒ end number
+{}; ⇒ ;moduleResult___=+___.initializeMap([]); ⇒ end number
+undefined; ⇒ ;var undefined=___.readImport(IMPORTS___,\"undefined\");moduleResult___=+undefined; ⇒ end number
";

/// Operators between operands (11.5 to 11.10).
static BINARY: &str = "
7 * 3; ⇒ ;moduleResult___=7*3; ⇒ return 21
6 / 2; ⇒ ;moduleResult___=6/2; ⇒ return 3
7 % 4; ⇒ ;moduleResult___=7%4; ⇒ return 3
-7 % 4; ⇒ ;moduleResult___=-7%4; ⇒ return -3
1 + 2; ⇒ ;moduleResult___=1+2; ⇒ return 3
'a' + 1; ⇒ ;moduleResult___=\"a\"+1; ⇒ return \"a1\"
1 + '2'; ⇒ ;moduleResult___=1+\"2\"; ⇒ return \"12\"
[1] + {}; ⇒ ;moduleResult___=___.initializeArray([1])+___.initializeMap([]); ⇒ return \"1[object Object]\"
5 - 8; ⇒ ;moduleResult___=5-8; ⇒ return -3
1 << 4; ⇒ ;moduleResult___=1<<4; ⇒ return 16
-8 >> 1; ⇒ ;moduleResult___=-8>>1; ⇒ return -4
-8 >>> 28; ⇒ ;moduleResult___=-8>>>28; ⇒ return 15
5 & 6; ⇒ ;moduleResult___=5&6; ⇒ return 4
5 | 6; ⇒ ;moduleResult___=5|6; ⇒ return 7
5 ^ 6; ⇒ ;moduleResult___=5^6; ⇒ return 3
1 < 2; ⇒ ;moduleResult___=1<2; ⇒ return true
'b' > 'a'; ⇒ ;moduleResult___=\"b\">\"a\"; ⇒ return true
2 <= 1; ⇒ ;moduleResult___=2<=1; ⇒ return false
2 >= 2; ⇒ ;moduleResult___=2>=2; ⇒ return true
1 == '1'; ⇒ ;moduleResult___=1==\"1\"; ⇒ return true
1 != 1; ⇒ ;moduleResult___=1!=1; ⇒ return false
1 === '1'; ⇒ ;moduleResult___=1===\"1\"; ⇒ return false
null == undefined; ⇒ ;var undefined=___.readImport(IMPORTS___,\"undefined\");moduleResult___=null==undefined; ⇒ return true
null === undefined; ⇒ ;var undefined=___.readImport(IMPORTS___,\"undefined\");moduleResult___=null===undefined; ⇒ return false
({}) == {}; ⇒ ;moduleResult___=___.initializeMap([])==___.initializeMap([]); ⇒ return false
var a = []; a === a; ⇒ ;var a=___.initializeArray([]);moduleResult___=a===a; ⇒ return true
'a' + null + undefined; ⇒ ;var undefined=___.readImport(IMPORTS___,\"undefined\");moduleResult___=\"a\"+null+undefined; ⇒ return \"anullundefined\"
";

/// Among them, what has no exact value.
static BINARY_WITHOUT_NUMBER: &str = "
7 / 2; ⇒ ;moduleResult___=7/2; ⇒ end number
9007199254740991 + 1; ⇒ ;moduleResult___=9007199254740991+1; ⇒ end number
1 / 0; ⇒ ;moduleResult___=1/0; ⇒ end number
";

/// `&&`, `||`, `?:` and the comma (11.11, 11.12, 11.14).
static CHOICES: &str = "
0 && 1; ⇒ ;moduleResult___=0&&1; ⇒ return 0
1 && 2; ⇒ ;moduleResult___=1&&2; ⇒ return 2
'' || 'a'; ⇒ ;moduleResult___=\"\"||\"a\"; ⇒ return \"a\"
1 || null.x; ⇒ ;moduleResult___=1||___.readPub(null,\"x\"); ⇒ return 1
0 && null.x; ⇒ ;moduleResult___=0&&___.readPub(null,\"x\"); ⇒ return 0
1 ? 2 : 3; ⇒ ;moduleResult___=1?2:3; ⇒ return 2
0 ? 2 : 3; ⇒ ;moduleResult___=0?2:3; ⇒ return 3
1, 2; ⇒ ;moduleResult___=(1,2); ⇒ return 2
(1, 2) + 3; ⇒ ;moduleResult___=(1,2)+3; ⇒ return 5
var a = {}; (a.x = 1) && a.x; ⇒ ;var a=___.initializeMap([]);moduleResult___=___.setPub(a,\"x\",1)&&___.readPub(a,\"x\"); ⇒ return 1
0 ? null.x : 'ok'; ⇒ ;moduleResult___=0?___.readPub(null,\"x\"):\"ok\"; ⇒ return \"ok\"
";

#[test]
fn literals_and_variables(rt: HostRuntime) -> Result<(), Fail> {
    check_cajoled(rt.alloc(), LITERALS, Status::Done)
}

#[test]
fn operators_before_an_operand(rt: HostRuntime) -> Result<(), Fail> {
    check_cajoled(rt.alloc(), UNARY, Status::Done)?;
    check_cajoled(rt.alloc(), UNARY_WITHOUT_NUMBER, Status::Number)
}

#[test]
fn operators_between_operands(rt: HostRuntime) -> Result<(), Fail> {
    check_cajoled(rt.alloc(), BINARY, Status::Done)?;
    check_cajoled(rt.alloc(), BINARY_WITHOUT_NUMBER, Status::Number)
}

#[test]
fn choices_take_one_of_their_parts(rt: HostRuntime) -> Result<(), Fail> {
    check_cajoled(rt.alloc(), CHOICES, Status::Done)
}
