//! The longest expressions at the front of tokens.

ghost use Rattle.std.specs.Prelude.{◌<◌, ◌-◌, ◌^◌};

use es3_lexer::tokens;
use es3_phrase::read_expr;
use std::alloc::Global;
use std::test::Fail;

/// How many bytes the sources may have.
const LONGEST: usize = 100;

/// The place of the token behind the longest expression from the one at `at` on, or why there is none.
fn next(alloc: Global, source: &str, at: usize, nest: u32) -> Result<String, Fail>
    requires { nest < 2 ^ 32 - 1 }
{
    u32::try_from(source.len())?;
    let list = match tokens(alloc, source.as_bytes(), LONGEST) {
        Ok(list) => list,
        Err(refusal) => return Ok(format!(in alloc; "{refusal:?}")?),
    };
    match read_expr(alloc, &list, at, nest) {
        Ok((_, next)) => Ok(format!(in alloc; "{next}")?),
        Err(refusal) => Ok(format!(in alloc; "{refusal:?}")?),
    }
}

/// A source, the first token, the limit of nesting, and what comes of it.
type Row = (&'static str, usize, u32, &'static str);

static ROWS: [Row; 20] = [
    ("a+++b", 0, 9, "4"),
    ("a + )", 0, 9, "1"),
    ("a + (b", 0, 9, "1"),
    ("a, b; c", 0, 9, "3"),
    ("a ? b", 0, 9, "1"),
    ("x = a ? b : c d", 0, 9, "7"),
    ("; a.b(c)[d] ;", 1, 9, "10"),
    ("new a.b c", 0, 9, "4"),
    ("a++ ++", 0, 9, "2"),
    (")", 0, 9, "Syntax(0)"),
    ("", 0, 9, "Syntax(0)"),
    ("a b", 2, 9, "Syntax(3)"),
    ("a b", 7, 9, "Syntax(3)"),
    ("(a", 0, 9, "Syntax(2)"),
    ("++(a + b)", 0, 9, "Syntax(9)"),
    ("a + b", 0, 2, "3"),
    ("a + b + c", 0, 2, "3"),
    ("~ ~ a", 0, 2, "TooDeep(0)"),
    ("((((((a", 0, 2, "TooDeep(0)"),
    ("a", 0, 0, "TooDeep(0)"),
];

fn holds(alloc: Global, row: &Row) -> Result<bool, Fail> {
    let (source, at, nest, wanted) = *row;
    if nest == u32::MAX {
        return Ok(false);
    }
    Ok(next(alloc, source, at, nest)?.as_str() == wanted)
}

#[test]
fn the_longest_expression_ends_before_the_token_behind_it(rt: HostRuntime) -> Result<(), Fail> {
    for row in ROWS.iter() {
        assert!(rt; holds(rt.alloc(), row)?, "{}", row.0);
    }
    Ok(())
}
