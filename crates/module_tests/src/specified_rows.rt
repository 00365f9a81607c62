//! The rows by which modules with functions, calls and loops over keys are specified.

use caja_cli::Status;
use command_runs::runs::check_refusals;
use command_runs::tables::{check_cajoled, check_loads, check_logs};
use std::test::Fail;

/// What the load gives.
static VALUES: &str = "
var t = ''; for (var k in {a: 1, b: 2}) { t += k; } t; ⇒ return \"ab\"
var f = function g(n) { return n < 2 ? 1 : n * g(n - 1); }; f(5); ⇒ return 120
(function () { return arguments.join('/'); })(1, 2); ⇒ return \"1/2\"
var o = cajita.freeze({x: 1}); var c = cajita.copy(o); c.x = 2; var t = false; try { o.x = 3; } catch (e) { t = e.message; } [o.x, c.x, o === c, t].join(' '); ⇒ return \"1 2 false not writable\"
var p = [].push; var t = 0; try { p(1); } catch (e) { t = e.message; } [1].push(2) + t; ⇒ return \"2bad receiver\"
var a = [5]; a[a.length] = 6; var t = ''; try { a[a.length + 1] = 7; } catch (e) { t += 'x'; } try { a['01'] = 7; } catch (e) { t += 'y'; } a.join('-') + t; ⇒ return \"5-6xy\"
function f(n) { return n === 0 ? 0 : f(n - 1); } f(998); ⇒ return 0
function f() { try { throw 1; } finally { return 2; } } f(); ⇒ return 2
var g; try { throw 7; } catch (e) { g = function () { return e; }; } g(); ⇒ return 7
";

/// What the text is, where nothing is done.
static TEXTS: &str = "
if (1) ; ⇒ ;if(1); ⇒ return undefined
";

/// One call more than may be open.
static DEEP: &str = "
solo ⇒ function f(n) { return n === 0 ? 0 : f(n - 1); } f(999); ⇒ end depth
";

/// A text that takes exactly the steps that one of the words' steps stands for.
static EMPTY: &str = "
solo --steps 1 ⇒ ;;;;;;;;;;;;;;;;;;;;;;;;;;;;;;;;;;;;;;;;;;;;;;;;;;;;;;; ⇒ load main return undefined¦end done
";

/// One that takes a step more, and one that never ends.
static SPENT: &str = "
solo --steps 1 ⇒ ;;;;;;;;;;;;;;;;;;;;;;;;;;;;;;;;;;;;;;;;;;;;;;;;;;;;;;;; ⇒ end steps
solo --steps 100 ⇒ while (true) {} ⇒ end steps
";

/// The first of the faults of a module.
static REFUSED: &str = "
arguments; ⇒ refused main rule 10 0
delete x; ⇒ refused main rule 12 0
if (a) b; ⇒ refused main rule 10 4
";

#[test]
fn modules_mean_what_is_specified(rt: HostRuntime) -> Result<(), Fail> {
    check_loads(rt.alloc(), VALUES)?;
    check_cajoled(rt.alloc(), TEXTS, Status::Done)?;
    check_logs(rt.alloc(), DEEP, Status::Depth)
}

#[test]
fn budgets_are_as_specified(rt: HostRuntime) -> Result<(), Fail> {
    check_logs(rt.alloc(), EMPTY, Status::Done)?;
    check_logs(rt.alloc(), SPENT, Status::Steps)
}

#[test]
fn refusals_are_as_specified(rt: HostRuntime) -> Result<(), Fail> {
    check_refusals(rt.alloc(), "solo", REFUSED)
}
