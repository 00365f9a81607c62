//! Modules by themselves that reach for what a text of ECMAScript 3 would find, and find nothing.

use command_runs::tables::check_loads;
use std::test::Fail;

/// Constructors, prototypes and callees, marks and keys of the runtime, and what every module has.
static REACHING: &str = r#"
({}).constructor; ⇒ return undefined
(function () {}).prototype; ⇒ return undefined
(function () { return arguments.callee; })(); ⇒ return undefined
var o = {a: 1}; o.a; var t = ''; for (var k in o) { t += k; } t; ⇒ return "a"
var r = 1; try { null.x; } catch (e) { r = e.constructor; } r; ⇒ return undefined
var f = 'a'.concat; var t; try { f('b'); } catch (e) { t = e.message; } t; ⇒ return "bad receiver"
var o = {}; o['x_canRead' + '___'] = true; ⇒ throw error main#1 TypeError "bad key"
var a = [1]; a['FROZEN___'] = 1; ⇒ throw error main#1 TypeError "bad key"
Math.abs = 1; ⇒ throw error main#0 TypeError "not writable"
Error.prototype; ⇒ return undefined
"#;

#[test]
fn who_reaches_for_the_runtime_finds_nothing(rt: HostRuntime) -> Result<(), Fail> {
    check_loads(rt.alloc(), REACHING)
}
