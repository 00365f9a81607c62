//! Texts that run as they stand, and the words of `run`.

use caja_cli::Status;
use command_runs::tables::{check_ends, check_gives};
use std::test::Fail;

/// Words, a text, and what the text gives. The statement and the number in `1;` take a step each.
static DONE: &str = "
run ⇒  ⇒ return undefined
run ⇒ 1; ⇒ return 1
run ⇒ undefined; ⇒ return undefined
run ⇒ x; ⇒ throw error ? TypeError \"unbound\"
run ⇒ var add = function (a, b) { return a + b; }; add(1, 2); ⇒ return 3
run --steps 2 ⇒ 1; ⇒ return 1
run --steps=3 ⇒ 1; ⇒ return 1
run --steps 10000000 ⇒ 1; ⇒ return 1
";

/// Words, a text, and the one line that is written.
static REFUSED: &str = "
run ⇒ break; ⇒ refused main label 1 0
run ⇒ 1; a: a: ; ⇒ refused main label 1 6
run ⇒ a = /b/; ⇒ refused main lex 9 4
run ⇒ a + b = c; ⇒ refused main read 1 6
";

static STEPS: &str = "
run --steps 1 ⇒ 1; ⇒ end steps
run --steps=00000001 ⇒ 1; ⇒ end steps
";

static NUMBER: &str = "
run ⇒ 9007199254740991 + 1; ⇒ end number
";

static USAGE: &str = "
run --steps 0 ⇒ 1; ⇒ usage
run --steps 10000001 ⇒ 1; ⇒ usage
run --steps 000000002 ⇒ 1; ⇒ usage
run --steps 123456789 ⇒ 1; ⇒ usage
run --steps=+1 ⇒ 1; ⇒ usage
run --steps= ⇒ 1; ⇒ usage
run --steps ⇒ 1; ⇒ usage
run --steps 1 --steps 2 ⇒ 1; ⇒ usage
run x ⇒ 1; ⇒ usage
solo --steps 0 ⇒ 1; ⇒ usage
solo --steps ⇒ 1; ⇒ usage
solo 2 ⇒ 1; ⇒ usage
cajole --steps 2 ⇒ 1; ⇒ usage
cajole x ⇒ 1; ⇒ usage
format --steps 2 ⇒ 1; ⇒ usage
";

#[test]
fn a_text_runs_as_it_stands(rt: HostRuntime) -> Result<(), Fail> {
    check_gives(rt.alloc(), DONE)
}

#[test]
fn a_text_with_a_fault_is_refused_at_its_place(rt: HostRuntime) -> Result<(), Fail> {
    check_ends(rt.alloc(), REFUSED, Status::Refused)
}

#[test]
fn steps_and_numbers_that_run_out_end_a_text(rt: HostRuntime) -> Result<(), Fail> {
    check_ends(rt.alloc(), STEPS, Status::Steps)?;
    check_ends(rt.alloc(), NUMBER, Status::Number)
}

#[test]
fn other_words_of_run_are_usage(rt: HostRuntime) -> Result<(), Fail> {
    check_ends(rt.alloc(), USAGE, Status::Usage)
}
