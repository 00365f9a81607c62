//! Modules that read, write, delete and ask for members of every kind of value: the source, its part of the cajoled text, and what the load gives.

use caja_cli::Status;
use command_runs::tables::check_cajoled;
use std::test::Fail;

/// Members by written and by computed keys (11.2.1).
static READS: &str = "
({a: 1}).a; ⇒ ;moduleResult___=___.readPub(___.initializeMap([\"a\",1]),\"a\"); ⇒ return 1
({a: 1})['a']; ⇒ ;moduleResult___=___.readPub(___.initializeMap([\"a\",1]),\"a\"); ⇒ return 1
({a: 1}).b; ⇒ ;moduleResult___=___.readPub(___.initializeMap([\"a\",1]),\"b\"); ⇒ return undefined
var k = 'a'; ({a: 2})[k]; ⇒ ;var k=\"a\";moduleResult___=___.readPub(___.initializeMap([\"a\",2]),k); ⇒ return 2
[7, 8][1]; ⇒ ;moduleResult___=___.readPub(___.initializeArray([7,8]),1); ⇒ return 8
[7, 8]['1']; ⇒ ;moduleResult___=___.readPub(___.initializeArray([7,8]),\"1\"); ⇒ return 8
[7, 8]['01']; ⇒ ;moduleResult___=___.readPub(___.initializeArray([7,8]),\"01\"); ⇒ return undefined
[7, 8][2]; ⇒ ;moduleResult___=___.readPub(___.initializeArray([7,8]),2); ⇒ return undefined
[7, 8][-1]; ⇒ ;moduleResult___=___.readPub(___.initializeArray([7,8]),-1); ⇒ return undefined
[7, 8].length; ⇒ ;moduleResult___=___.readPub(___.initializeArray([7,8]),\"length\"); ⇒ return 2
'abc'[1]; ⇒ ;moduleResult___=___.readPub(\"abc\",1); ⇒ return undefined
'abc'.length; ⇒ ;moduleResult___=___.readPub(\"abc\",\"length\"); ⇒ return 3
'abc'[3]; ⇒ ;moduleResult___=___.readPub(\"abc\",3); ⇒ return undefined
({1: 'x'})[1]; ⇒ ;moduleResult___=___.readPub(___.initializeMap([\"1\",\"x\"]),1); ⇒ return \"x\"
({a: {b: {c: 3}}}).a.b.c; ⇒ ;moduleResult___=___.readPub(___.readPub(___.readPub(___.initializeMap([\"a\",___.initializeMap([\"b\",___.initializeMap([\"c\",3])])]),\"a\"),\"b\"),\"c\"); ⇒ return 3
null.a; ⇒ ;moduleResult___=___.readPub(null,\"a\"); ⇒ throw error main#0 TypeError \"no object\"
undefined.a; ⇒ ;var undefined=___.readImport(IMPORTS___,\"undefined\");moduleResult___=___.readPub(undefined,\"a\"); ⇒ throw error main#0 TypeError \"no object\"
var a; a.b; ⇒ ;var a;moduleResult___=___.readPub(a,\"b\"); ⇒ throw error main#0 TypeError \"no object\"
null['a']; ⇒ ;moduleResult___=___.readPub(null,\"a\"); ⇒ throw error main#0 TypeError \"no object\"
(5).a; ⇒ ;moduleResult___=___.readPub(5,\"a\"); ⇒ return undefined
true.a; ⇒ ;moduleResult___=___.readPub(true,\"a\"); ⇒ return undefined
say.a; ⇒ ;var say=___.readImport(IMPORTS___,\"say\");moduleResult___=___.readPub(say,\"a\"); ⇒ return undefined
Math.abs; ⇒ ;var Math=___.readImport(IMPORTS___,\"Math\");moduleResult___=___.readPub(Math,\"abs\"); ⇒ return function !Math.abs
Math.none; ⇒ ;var Math=___.readImport(IMPORTS___,\"Math\");moduleResult___=___.readPub(Math,\"none\"); ⇒ return undefined
cajita.freeze; ⇒ ;var cajita=___.readImport(IMPORTS___,\"cajita\");moduleResult___=___.readPub(cajita,\"freeze\"); ⇒ return function !cajita.freeze
Error.a; ⇒ ;var Error=___.readImport(IMPORTS___,\"Error\");moduleResult___=___.readPub(Error,\"a\"); ⇒ return undefined
({}).toString; ⇒ ;moduleResult___=___.readPub(___.initializeMap([]),\"toString\"); ⇒ return undefined
[].push; ⇒ ;moduleResult___=___.readPub(___.initializeArray([]),\"push\"); ⇒ return function !array.push
'a'.charAt; ⇒ ;moduleResult___=___.readPub(\"a\",\"charAt\"); ⇒ return function !text.charAt
var k = 'a_'; ({a_: 1})[k]; ⇒ ;var k=\"a_\";moduleResult___=___.readPub(___.initializeMap([\"a_\",1]),k); ⇒ return 1
({})['a__']; ⇒ ;moduleResult___=___.readPub(___.initializeMap([]),\"a__\"); ⇒ return undefined
[]['FROZEN___']; ⇒ ;moduleResult___=___.readPub(___.initializeArray([]),\"FROZEN___\"); ⇒ return undefined
({}).constructor; ⇒ ;moduleResult___=___.readPub(___.initializeMap([]),\"constructor\"); ⇒ return undefined
({})['__proto__']; ⇒ ;moduleResult___=___.readPub(___.initializeMap([]),\"__proto__\"); ⇒ return undefined
({a: 1})[{}]; ⇒ ;moduleResult___=___.readPub(___.initializeMap([\"a\",1]),___.initializeMap([])); ⇒ return undefined
[1]['length']; ⇒ ;moduleResult___=___.readPub(___.initializeArray([1]),\"length\"); ⇒ return 1
'abc'['length']; ⇒ ;moduleResult___=___.readPub(\"abc\",\"length\"); ⇒ return 3
";

/// Members written (8.6.2.2, 11.13.1).
static WRITES: &str = "
var o = {}; o.a = 1; o.a; ⇒ ;var o=___.initializeMap([]);moduleResult___=___.setPub(o,\"a\",1);moduleResult___=___.readPub(o,\"a\"); ⇒ return 1
var o = {a: 1}; o.a = 2; ⇒ ;var o=___.initializeMap([\"a\",1]);moduleResult___=___.setPub(o,\"a\",2); ⇒ return 2
var o = {}, k = 'x'; o[k] = 3; o.x; ⇒ ;var o=___.initializeMap([]),k=\"x\";moduleResult___=___.setPub(o,k,3);moduleResult___=___.readPub(o,\"x\"); ⇒ return 3
var a = [1]; a[0] = 9; a[0]; ⇒ ;var a=___.initializeArray([1]);moduleResult___=___.setPub(a,0,9);moduleResult___=___.readPub(a,0); ⇒ return 9
var a = []; a[0] = 1; a.length; ⇒ ;var a=___.initializeArray([]);moduleResult___=___.setPub(a,0,1);moduleResult___=___.readPub(a,\"length\"); ⇒ return 1
var a = []; a[5] = 1; ⇒ ;var a=___.initializeArray([]);moduleResult___=___.setPub(a,5,1); ⇒ throw error main#1 TypeError \"not writable\"
var a = [1, 2]; a.length = 0; ⇒ ;var a=___.initializeArray([1,2]);moduleResult___=___.setPub(a,\"length\",0); ⇒ throw error main#1 TypeError \"not writable\"
var a = [1, 2]; a['1'] = 5; a[1]; ⇒ ;var a=___.initializeArray([1,2]);moduleResult___=___.setPub(a,\"1\",5);moduleResult___=___.readPub(a,1); ⇒ return 5
var a = [1]; a['01'] = 2; ⇒ ;var a=___.initializeArray([1]);moduleResult___=___.setPub(a,\"01\",2); ⇒ throw error main#1 TypeError \"not writable\"
var a = [1]; a.x = 2; ⇒ ;var a=___.initializeArray([1]);moduleResult___=___.setPub(a,\"x\",2); ⇒ throw error main#1 TypeError \"not writable\"
null.a = 1; ⇒ ;moduleResult___=___.setPub(null,\"a\",1); ⇒ throw error main#0 TypeError \"no object\"
var u; u.a = 1; ⇒ ;var u;moduleResult___=___.setPub(u,\"a\",1); ⇒ throw error main#0 TypeError \"no object\"
(1).a = 1; ⇒ ;moduleResult___=___.setPub(1,\"a\",1); ⇒ throw error main#0 TypeError \"not writable\"
'a'.b = 1; ⇒ ;moduleResult___=___.setPub(\"a\",\"b\",1); ⇒ throw error main#0 TypeError \"not writable\"
'a'[0] = 'b'; ⇒ ;moduleResult___=___.setPub(\"a\",0,\"b\"); ⇒ throw error main#0 TypeError \"not writable\"
true.x = 1; ⇒ ;moduleResult___=___.setPub(true,\"x\",1); ⇒ throw error main#0 TypeError \"not writable\"
say.a = 1; ⇒ ;var say=___.readImport(IMPORTS___,\"say\");moduleResult___=___.setPub(say,\"a\",1); ⇒ throw error main#0 TypeError \"not writable\"
Math.abs = 1; ⇒ ;var Math=___.readImport(IMPORTS___,\"Math\");moduleResult___=___.setPub(Math,\"abs\",1); ⇒ throw error main#0 TypeError \"not writable\"
Math.x = 1; ⇒ ;var Math=___.readImport(IMPORTS___,\"Math\");moduleResult___=___.setPub(Math,\"x\",1); ⇒ throw error main#0 TypeError \"not writable\"
cajita.x = 1; ⇒ ;var cajita=___.readImport(IMPORTS___,\"cajita\");moduleResult___=___.setPub(cajita,\"x\",1); ⇒ throw error main#0 TypeError \"not writable\"
Error.x = 1; ⇒ ;var Error=___.readImport(IMPORTS___,\"Error\");moduleResult___=___.setPub(Error,\"x\",1); ⇒ throw error main#0 TypeError \"not writable\"
({})['a__'] = 1; ⇒ ;moduleResult___=___.setPub(___.initializeMap([]),\"a__\",1); ⇒ throw error main#1 TypeError \"bad key\"
({})['toString'] = 1; ⇒ ;moduleResult___=___.setPub(___.initializeMap([]),\"toString\",1); ⇒ throw error main#1 TypeError \"bad key\"
({}).valueOf = 1; ⇒ ;moduleResult___=___.setPub(___.initializeMap([]),\"valueOf\",1); ⇒ throw error main#1 TypeError \"bad key\"
[]['length'] = 1; ⇒ ;moduleResult___=___.setPub(___.initializeArray([]),\"length\",1); ⇒ throw error main#1 TypeError \"not writable\"
[][-1] = 1; ⇒ ;moduleResult___=___.setPub(___.initializeArray([]),-1,1); ⇒ throw error main#1 TypeError \"not writable\"
({}).constructor = 1; ⇒ ;moduleResult___=___.setPub(___.initializeMap([]),\"constructor\",1); ⇒ return 1
({})[null] = 5; ⇒ ;moduleResult___=___.setPub(___.initializeMap([]),null,5); ⇒ return 5
null[null.x] = 1; ⇒ ;moduleResult___=___.setPub(null,___.readPub(null,\"x\"),1); ⇒ throw error main#0 TypeError \"no object\"
var o = {}; o[{}] = 1; o['[object Object]']; ⇒ ;var o=___.initializeMap([]);moduleResult___=___.setPub(o,___.initializeMap([]),1);moduleResult___=___.readPub(o,\"[object Object]\"); ⇒ return 1
";

/// `delete` of a member (11.4.1).
static DELETES: &str = "
var o = {a: 1}; delete o.a; ⇒ ;var o=___.initializeMap([\"a\",1]);moduleResult___=___.deletePub(o,\"a\"); ⇒ return true
var o = {a: 1}; delete o.a; o.a; ⇒ ;var o=___.initializeMap([\"a\",1]);moduleResult___=___.deletePub(o,\"a\");moduleResult___=___.readPub(o,\"a\"); ⇒ return undefined
delete ({}).a; ⇒ ;moduleResult___=___.deletePub(___.initializeMap([]),\"a\"); ⇒ return true
var k = 'a', o = {a: 1}; delete o[k]; 'a' in o; ⇒ ;var k=\"a\",o=___.initializeMap([\"a\",1]);moduleResult___=___.deletePub(o,k);moduleResult___=___.inPub(\"a\",o); ⇒ return false
var a = [1]; delete a[0]; ⇒ ;var a=___.initializeArray([1]);moduleResult___=___.deletePub(a,0); ⇒ throw error main#1 TypeError \"not deletable\"
delete [].length; ⇒ ;moduleResult___=___.deletePub(___.initializeArray([]),\"length\"); ⇒ throw error main#1 TypeError \"not deletable\"
delete null.a; ⇒ ;moduleResult___=___.deletePub(null,\"a\"); ⇒ throw error main#0 TypeError \"no object\"
delete (5).a; ⇒ ;moduleResult___=___.deletePub(5,\"a\"); ⇒ throw error main#0 TypeError \"not deletable\"
delete 'a'[0]; ⇒ ;moduleResult___=___.deletePub(\"a\",0); ⇒ throw error main#0 TypeError \"not deletable\"
delete say.a; ⇒ ;var say=___.readImport(IMPORTS___,\"say\");moduleResult___=___.deletePub(say,\"a\"); ⇒ throw error main#0 TypeError \"not deletable\"
delete Math.abs; ⇒ ;var Math=___.readImport(IMPORTS___,\"Math\");moduleResult___=___.deletePub(Math,\"abs\"); ⇒ throw error main#0 TypeError \"not deletable\"
delete cajita.copy; ⇒ ;var cajita=___.readImport(IMPORTS___,\"cajita\");moduleResult___=___.deletePub(cajita,\"copy\"); ⇒ throw error main#0 TypeError \"not deletable\"
delete ({})['a__']; ⇒ ;moduleResult___=___.deletePub(___.initializeMap([]),\"a__\"); ⇒ throw error main#1 TypeError \"bad key\"
delete ({}).toString; ⇒ ;moduleResult___=___.deletePub(___.initializeMap([]),\"toString\"); ⇒ throw error main#1 TypeError \"bad key\"
";

/// `in` and `instanceof` (11.8.6, 11.8.7).
static HAS: &str = "
'a' in {a: 1}; ⇒ ;moduleResult___=___.inPub(\"a\",___.initializeMap([\"a\",1])); ⇒ return true
'b' in {a: 1}; ⇒ ;moduleResult___=___.inPub(\"b\",___.initializeMap([\"a\",1])); ⇒ return false
0 in [1]; ⇒ ;moduleResult___=___.inPub(0,___.initializeArray([1])); ⇒ return true
1 in [1]; ⇒ ;moduleResult___=___.inPub(1,___.initializeArray([1])); ⇒ return false
'length' in []; ⇒ ;moduleResult___=___.inPub(\"length\",___.initializeArray([])); ⇒ return true
'01' in [1]; ⇒ ;moduleResult___=___.inPub(\"01\",___.initializeArray([1])); ⇒ return false
'push' in []; ⇒ ;moduleResult___=___.inPub(\"push\",___.initializeArray([])); ⇒ return false
'toString' in {}; ⇒ ;moduleResult___=___.inPub(\"toString\",___.initializeMap([])); ⇒ return false
'a__' in {}; ⇒ ;moduleResult___=___.inPub(\"a__\",___.initializeMap([])); ⇒ return false
'a' in 'a'; ⇒ ;moduleResult___=___.inPub(\"a\",\"a\"); ⇒ throw error main#0 TypeError \"no object\"
1 in null; ⇒ ;moduleResult___=___.inPub(1,null); ⇒ throw error main#0 TypeError \"no object\"
'abs' in Math; ⇒ ;var Math=___.readImport(IMPORTS___,\"Math\");moduleResult___=___.inPub(\"abs\",Math); ⇒ return true
'x' in say; ⇒ ;var say=___.readImport(IMPORTS___,\"say\");moduleResult___=___.inPub(\"x\",say); ⇒ return false
({}) instanceof Error; ⇒ ;var Error=___.readImport(IMPORTS___,\"Error\");moduleResult___=___.instanceOf(___.initializeMap([]),Error); ⇒ return false
1 instanceof Error; ⇒ ;var Error=___.readImport(IMPORTS___,\"Error\");moduleResult___=___.instanceOf(1,Error); ⇒ return false
[] instanceof say; ⇒ ;var say=___.readImport(IMPORTS___,\"say\");moduleResult___=___.instanceOf(___.initializeArray([]),say); ⇒ return false
({}) instanceof {}; ⇒ ;moduleResult___=___.instanceOf(___.initializeMap([]),___.initializeMap([])); ⇒ throw error main#2 TypeError \"not a function\"
({}) instanceof 5; ⇒ ;moduleResult___=___.instanceOf(___.initializeMap([]),5); ⇒ throw error main#1 TypeError \"not a function\"
null instanceof Error; ⇒ ;var Error=___.readImport(IMPORTS___,\"Error\");moduleResult___=___.instanceOf(null,Error); ⇒ return false
";

#[test]
fn members_are_read_by_their_public_keys(rt: HostRuntime) -> Result<(), Fail> {
    check_cajoled(rt.alloc(), READS, Status::Done)
}

#[test]
fn members_are_written_where_they_may_be(rt: HostRuntime) -> Result<(), Fail> {
    check_cajoled(rt.alloc(), WRITES, Status::Done)
}

#[test]
fn members_are_deleted_where_they_may_be(rt: HostRuntime) -> Result<(), Fail> {
    check_cajoled(rt.alloc(), DELETES, Status::Done)
}

#[test]
fn keys_are_asked_for(rt: HostRuntime) -> Result<(), Fail> {
    check_cajoled(rt.alloc(), HAS, Status::Done)
}
