//! The eight rows by which the built-in functions are specified.

use caja_cli::Status;
use command_runs::tables::{check_ends, check_gives};
use std::test::Fail;

static VALUES: &str = "
run ⇒ [1, 2].concat([3], 4).join(\"-\"); ⇒ return \"1-2-3-4\"
run ⇒ \"a,b,,c\".split(\",\").length; ⇒ return 4
run ⇒ \"abc\".slice(-2) + \"abc\".substring(2, 0); ⇒ return \"bcab\"
run ⇒ \"abcabc\".lastIndexOf(\"b\"); ⇒ return 4
run ⇒ Math.max(3, 7, 5); ⇒ return 7
run ⇒ Function(\"x\"); ⇒ throw error main#0 TypeError \"not allowed\"
";

static NUMBER: &str = "
run ⇒ Math.max(); ⇒ end number
run ⇒ \"abc\".charCodeAt(9); ⇒ end number
";

static CONVERT: &str = "
run ⇒ ({toString: 1}) + \"\"; ⇒ end convert
";

#[test]
fn built_ins_answer_as_specified(rt: HostRuntime) -> Result<(), Fail> {
    check_gives(rt.alloc(), VALUES)?;
    check_ends(rt.alloc(), NUMBER, Status::Number)?;
    check_ends(rt.alloc(), CONVERT, Status::Convert)
}
