//! Errors that a text makes or a row throws: the words, the text, and what it gives.

use caja_cli::Status;
use command_runs::tables::{check_ends, check_gives};
use std::test::Fail;

/// `Error`, `TypeError` and `RangeError`, with and without `new` (ES3 15.11.1, 15.11.2): a message is the text of the first argument.
static ERRORS: &str = "
run ⇒ Error(); ⇒ return error main#0 Error \"\"
run ⇒ new Error; ⇒ return error main#0 Error \"\"
run ⇒ Error('a'); ⇒ return error main#0 Error \"a\"
run ⇒ new Error('a'); ⇒ return error main#0 Error \"a\"
run ⇒ Error('a', 'b'); ⇒ return error main#0 Error \"a\"
run ⇒ Error(''); ⇒ return error main#0 Error \"\"
run ⇒ Error(undefined); ⇒ return error main#0 Error \"\"
run ⇒ Error(undefined, 'b'); ⇒ return error main#0 Error \"\"
run ⇒ Error(null); ⇒ return error main#0 Error \"null\"
run ⇒ Error(true); ⇒ return error main#0 Error \"true\"
run ⇒ Error({}); ⇒ return error main#0 Error \"[object Object]\"
run ⇒ Error('a\\n\"<'); ⇒ return error main#0 Error \"a\\n\\\"\\x3C\"
run ⇒ TypeError(); ⇒ return error main#0 TypeError \"\"
run ⇒ new TypeError('t'); ⇒ return error main#0 TypeError \"t\"
run ⇒ TypeError(5, 6); ⇒ return error main#0 TypeError \"5\"
run ⇒ RangeError(); ⇒ return error main#0 RangeError \"\"
run ⇒ new RangeError('r'); ⇒ return error main#0 RangeError \"r\"
run ⇒ RangeError([1, 2]); ⇒ return error main#0 RangeError \"1,2\"
run ⇒ var E = TypeError; new E('x'); ⇒ return error main#0 TypeError \"x\"
run ⇒ Error(Error('a')); ⇒ return error main#1 Error \"[object Object]\"
";

/// Errors are thrown and caught as any value.
static THROWN: &str = "
run ⇒ throw Error('a'); ⇒ throw error main#0 Error \"a\"
run ⇒ throw new RangeError; ⇒ throw error main#0 RangeError \"\"
run ⇒ throw Error; ⇒ throw function !Error
run ⇒ try { throw Error('a'); } catch (e) { e.message; } ⇒ return \"a\"
run ⇒ try { throw new TypeError('t'); } catch (e) { e.name + e.message + (e instanceof Error); } ⇒ return \"TypeErrorttrue\"
run ⇒ try { throw Error('a'); } catch (e) { throw RangeError(e.message + 'b'); } ⇒ throw error main#1 RangeError \"ab\"
run ⇒ try { throw Error('a'); } finally { Array(3); } ⇒ throw error main#1 TypeError \"not allowed\"
run ⇒ function f() { try { throw Error('a'); } catch (e) { return e; } } f(); ⇒ return error main#0 Error \"a\"
";

/// The name and the message of an error, its prototypes, and its keys (15.11.4, 15.11.5).
static MEMBERS: &str = "
run ⇒ Error('a').message; ⇒ return \"a\"
run ⇒ Error('a').name; ⇒ return \"Error\"
run ⇒ Error().message; ⇒ return \"\"
run ⇒ TypeError('a').name; ⇒ return \"TypeError\"
run ⇒ new RangeError('a').name; ⇒ return \"RangeError\"
run ⇒ typeof Error(); ⇒ return \"object\"
run ⇒ Error('a') === Error('a'); ⇒ return false
run ⇒ 'message' in Error(); ⇒ return true
run ⇒ 'name' in TypeError('a'); ⇒ return true
run ⇒ var e = Error('a'); e.x = 1; e.x; ⇒ return 1
run ⇒ var s = ''; for (var k in Error('a')) s += k; s; ⇒ return \"\"
run ⇒ var e = TypeError('a'), s = ''; e.x = 1; for (var k in e) s += k; s; ⇒ return \"x\"
run ⇒ Error.prototype.x = 1; var s = ''; for (var k in RangeError()) s += k; s; ⇒ return \"x\"
run ⇒ Error() instanceof Error; ⇒ return true
run ⇒ TypeError() instanceof TypeError; ⇒ return true
run ⇒ TypeError() instanceof Error; ⇒ return true
run ⇒ new RangeError() instanceof Error; ⇒ return true
run ⇒ Error() instanceof TypeError; ⇒ return false
run ⇒ RangeError() instanceof TypeError; ⇒ return false
run ⇒ TypeError() instanceof Object; ⇒ return true
run ⇒ TypeError.prototype instanceof Error; ⇒ return true
run ⇒ Error.prototype instanceof Error; ⇒ return false
run ⇒ Error().constructor === Error; ⇒ return true
run ⇒ TypeError('x').constructor === TypeError; ⇒ return true
run ⇒ RangeError.prototype.constructor === RangeError; ⇒ return true
run ⇒ Error.prototype.x = 1; TypeError().x; ⇒ return 1
run ⇒ TypeError.prototype.x = 1; Error().x; ⇒ return undefined
run ⇒ Error('a').valueOf().message; ⇒ return \"a\"
";

/// What the interpreter throws has the prototype of TypeError too.
static INTERPRETER_ERRORS: &str = "
run ⇒ try { x; } catch (e) { e instanceof TypeError; } ⇒ return true
run ⇒ try { null.x; } catch (e) { e.constructor === TypeError; } ⇒ return true
run ⇒ try { 1(); } catch (e) { e instanceof RangeError; } ⇒ return false
run ⇒ try { new Number; } catch (e) { e instanceof Error; } ⇒ return true
run ⇒ TypeError.prototype.x = 1; try { y; } catch (e) { e.x; } ⇒ return 1
run ⇒ function TypeError() {} try { x; } catch (e) { e instanceof TypeError; } ⇒ return false
";

/// A message whose conversions are not the built-in ones.
static ERROR_CONVERTS: &str = "
run ⇒ Error({toString: 1}); ⇒ end convert
run ⇒ new TypeError({valueOf: 1}); ⇒ end convert
run ⇒ RangeError([{toString: 1}]); ⇒ end convert
run ⇒ try { throw Error({toString: 1}); } catch (e) { 1; } ⇒ end convert
";

#[test]
fn an_error_has_the_text_of_its_argument(rt: HostRuntime) -> Result<(), Fail> {
    check_gives(rt.alloc(), ERRORS)?;
    check_ends(rt.alloc(), ERROR_CONVERTS, Status::Convert)
}

#[test]
fn errors_are_thrown_and_caught(rt: HostRuntime) -> Result<(), Fail> {
    check_gives(rt.alloc(), THROWN)?;
    check_gives(rt.alloc(), INTERPRETER_ERRORS)
}

#[test]
fn an_error_has_its_name_and_its_prototypes(rt: HostRuntime) -> Result<(), Fail> {
    check_gives(rt.alloc(), MEMBERS)
}
