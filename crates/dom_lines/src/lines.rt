//! Lines of changes.

ghost use Rattle.std.specs.Prelude.{◌≡◌, ◌++◌, OnOk};
ghost use Rattle.caja_units.specs.Index.{number_units};
ghost use Rattle.caja_units.specs.Literal.{literal};
ghost use Rattle.dom_lines.specs.Lines.{root_name, start, shown, change_text, change_line};

use caja_units::{Memory, Units};
use node_deeds::Change;
use std::alloc::Global;

/// Appends bytes.
fn push(out: &mut Vec<u8>, bytes: &[u8]) -> Result<(), Memory>
    ensures { OnOk result (out.new.items ≡ out.old.items ++ bytes.now) }
{
    out.extend_from_slice(bytes)?;
    Ok(())
}

/// Appends the decimal digits of a number behind a space.
fn push_number(alloc: Global, out: &mut Vec<u8>, number: u32) -> Result<(), Memory>
    ensures { OnOk result (out.new.items ≡ out.old.items ++ shown (number_units number)) }
{
    push(out, b" ")?;
    let digits = format!(in alloc; "{number}")?;
    push(out, digits.as_bytes())
}

/// Appends a text as a literal behind a space.
fn push_literal(alloc: Global, out: &mut Vec<u8>, text: &Units) -> Result<(), Memory>
    ensures { OnOk result (out.new.items ≡ out.old.items ++ shown (literal text.now)) }
{
    push(out, b" ")?;
    let literal = text.to_ascii_literal(alloc)?;
    push(out, &literal)
}

/// Appends, in UTF-8, the name of a root; `?` where there is none.
fn push_root(out: &mut Vec<u8>, roots: &[Units], root: u32) -> Result<(), Memory>
    ensures { OnOk result (out.new.items ≡ out.old.items ++ root_name roots.now root) }
{
    match roots.get(root as usize) {
        Some(name) => name.push_utf8(out),
        None => push(out, b"?"),
    }
}

/// Appends how the line of a change begins: the root, and what is done.
fn push_start(out: &mut Vec<u8>, roots: &[Units], root: u32, done: &[u8]) -> Result<(), Memory>
    ensures { OnOk result (out.new.items ≡ out.old.items ++ start roots.now root done.now) }
{
    push(out, b"dom ")?;
    push_root(out, roots, root)?;
    push(out, done)
}

/// Appends the line of a change without its end.
fn push_text(
    alloc: Global,
    out: &mut Vec<u8>,
    roots: &[Units],
    change: &Change,
) -> Result<(), Memory>
    ensures { OnOk result (out.new.items ≡ out.old.items ++ change_text roots.now change.now) }
{
    match change {
        Change::Append(root, parent, child) => {
            push_start(out, roots, *root, b" append")?;
            push_number(alloc, out, *parent)?;
            push_number(alloc, out, *child)
        }
        Change::Remove(root, parent, child) => {
            push_start(out, roots, *root, b" remove")?;
            push_number(alloc, out, *parent)?;
            push_number(alloc, out, *child)
        }
        Change::Set(root, node, name, value) => {
            push_start(out, roots, *root, b" set")?;
            push_number(alloc, out, *node)?;
            push_literal(alloc, out, name)?;
            push_literal(alloc, out, value)
        }
        Change::Text(root, node, text) => {
            push_start(out, roots, *root, b" text")?;
            push_number(alloc, out, *node)?;
            push_literal(alloc, out, text)
        }
    }
}

/// Appends the line of a change, which ends with a line feed. The roots are named in the order of their numbers.
///
/// # Errors
///
/// `Memory` where memory is wanting.
pub fn push_change(
    alloc: Global,
    out: &mut Vec<u8>,
    roots: &[Units],
    change: &Change,
) -> Result<(), Memory>
    ensures { OnOk result (out.new.items ≡ out.old.items ++ change_line roots.now change.now) }
{
    push_text(alloc, out, roots, change)?;
    push(out, b"\n")
}
