//! How a document is written.

ghost use Rattle.std.specs.Prelude.{◌≡◌, ◌++◌, IfOk, OnOk};
ghost use Rattle.std.specs.List.{flat_map};
ghost use Rattle.caja_units.specs.Utf8.{utf8_of};
ghost use Rattle.html_grammar.specs.Trees.{one, many};
ghost use Rattle.html_tree.specs.Views.{tree, trees, attr_of, attrs_of};
ghost use Rattle.html_kept.specs.Printed as p;

use crate::keeping::Clean;
use caja_units::{Memory, Units};
use html_tokens::is_void;
use html_tree::{Attr, Html};
use std::alloc::{AllocError, Global};

/// Writes bytes.
fn put(out: &mut Vec<u8>, bytes: &[u8]) -> Result<(), Memory>
    ensures { OnOk result (out.new.items ≡ out.old.items ++ bytes.now) }
{
    out.extend_from_slice(bytes)?;
    Ok(())
}

/// Writes a byte of a text.
fn put_shown(out: &mut Vec<u8>, byte: u8) -> Result<(), AllocError>
    ensures { OnOk result (out.new.items ≡ out.old.items ++ p.shown byte) }
{
    match byte {
        b'&' => out.extend_from_slice(b"&amp;"),
        b'<' => out.extend_from_slice(b"&lt;"),
        b'>' => out.extend_from_slice(b"&gt;"),
        _ => out.extend_from_slice(&[byte]),
    }
}

/// Writes a byte of a value.
fn put_shown_value(out: &mut Vec<u8>, byte: u8) -> Result<(), AllocError>
    ensures { OnOk result (out.new.items ≡ out.old.items ++ p.shown_value byte) }
{
    if byte == b'"' {
        return out.extend_from_slice(b"&quot;");
    }
    put_shown(out, byte)
}

/// The bytes of a text.
fn utf8(alloc: Global, text: &Units) -> Result<Vec<u8>, Memory>
    ensures { IfOk result (λ v. v.items ≡ utf8_of text.now) }
{
    let mut bytes = Vec::new(alloc);
    text.push_utf8(&mut bytes)?;
    Ok(bytes)
}

/// Writes the bytes of a text.
fn put_all_shown(out: &mut Vec<u8>, bytes: &[u8]) -> Result<(), AllocError>
    ensures { OnOk result (out.new.items ≡ out.old.items ++ flat_map p.shown bytes.now) }
{
    for byte in bytes {
        put_shown(out, *byte)?;
    }
    Ok(())
}

/// Writes the bytes of a value.
fn put_all_shown_value(out: &mut Vec<u8>, bytes: &[u8]) -> Result<(), AllocError>
    ensures { OnOk result (out.new.items ≡ out.old.items ++ flat_map p.shown_value bytes.now) }
{
    for byte in bytes {
        put_shown_value(out, *byte)?;
    }
    Ok(())
}

/// Writes a text, as `print_html` does.
///
/// # Errors
///
/// `Memory` where memory is wanting.
pub fn put_text(alloc: Global, out: &mut Vec<u8>, text: &Units) -> Result<(), Memory>
    ensures { OnOk result (out.new.items ≡ out.old.items ++ p.printed_text text.now) }
{
    let bytes = utf8(alloc, text)?;
    put_all_shown(out, &bytes)?;
    Ok(())
}

/// Writes a value, without its quotes.
fn put_value(alloc: Global, out: &mut Vec<u8>, value: &Units) -> Result<(), Memory>
    ensures { OnOk result (out.new.items ≡ out.old.items ++ p.printed_value value.now) }
{
    let bytes = utf8(alloc, value)?;
    put_all_shown_value(out, &bytes)?;
    Ok(())
}

/// Writes an attribute behind a space.
fn put_attr(alloc: Global, out: &mut Vec<u8>, attr: &Attr) -> Result<(), Memory>
    ensures { OnOk result (out.new.items ≡ out.old.items ++ p.printed_attr (attr_of attr.now)) }
{
    put(out, b" ")?;
    attr.name.push_utf8(out)?;
    put(out, b"=\"")?;
    put_value(alloc, out, &attr.value)?;
    put(out, b"\"")
}

/// Writes attributes.
fn put_attrs(alloc: Global, out: &mut Vec<u8>, attrs: &[Attr]) -> Result<(), Memory>
    ensures { OnOk result (out.new.items ≡ out.old.items ++ p.printed_attrs (attrs_of attrs.now)) }
{
    for attr in attrs {
        put_attr(alloc, out, attr)?;
    }
    Ok(())
}

/// Writes the tag with which an element begins, as `print_html` does.
///
/// # Errors
///
/// `Memory` where memory is wanting.
pub fn put_start(
    alloc: Global,
    out: &mut Vec<u8>,
    name: &Units,
    attrs: &[Attr],
) -> Result<(), Memory>
    ensures { OnOk result (out.new.items ≡ out.old.items ++ p.start_tag name.now (attrs_of attrs.now)) }
{
    put(out, b"<")?;
    name.push_utf8(out)?;
    put_attrs(alloc, out, attrs)?;
    put(out, b">")
}

/// Writes the tag with which an element ends, as `print_html` does of those that have one.
///
/// # Errors
///
/// `Memory` where memory is wanting.
pub fn put_end(out: &mut Vec<u8>, name: &Units) -> Result<(), Memory>
    ensures { OnOk result (out.new.items ≡ out.old.items ++ p.end_tag name.now) }
{
    put(out, b"</")?;
    name.push_utf8(out)?;
    put(out, b">")
}

/// Writes a node.
#[cycle(prints)]
fn put_node(alloc: Global, out: &mut Vec<u8>, node: &Html) -> Result<(), Memory>
    ensures { OnOk result (out.new.items ≡ out.old.items ++ p.printed one (tree node.now)) }
{
    match node {
        Html::Text(text) => put_text(alloc, out, text),
        Html::Element(name, attrs, content) => {
            put_start(alloc, out, name, attrs)?;
            if is_void(name) {
                return Ok(());
            }
            put_all(alloc, out, content)?;
            put_end(out, name)
        }
    }
}

/// Writes nodes.
#[cycle(prints)]
fn put_all(alloc: Global, out: &mut Vec<u8>, nodes: &[Html]) -> Result<(), Memory>
    ensures { OnOk result (out.new.items ≡ out.old.items ++ p.printed many (trees nodes.now)) }
{
    for node in nodes {
        put_node(alloc, out, node)?;
    }
    Ok(())
}

/// The text of a document in UTF-8. Where the document is what is kept of one that was read, the text is read as it again.
///
/// # Errors
///
/// `Memory` where memory is wanting.
pub fn print_html(alloc: Global, document: &Clean) -> Result<Vec<u8>, Memory>
    ensures { IfOk result (λ v. v.items ≡ p.printed many (trees document.now)) }
{
    let mut out = Vec::new(alloc);
    put_all(alloc, &mut out, document.nodes())?;
    Ok(out)
}
