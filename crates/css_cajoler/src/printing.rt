//! How a sheet is written.

ghost use Rattle.std.specs.Prelude.{◌≡◌, ◌++◌, ◌∷◌, IfOk, OnOk};
ghost use Rattle.std.specs.List.{flat_map};
ghost use Rattle.caja_units.specs.Utf8.{utf8_of};
ghost use Rattle.css_tree.specs.Views.{declaration_of, declarations_of, rule_of, sheet_of};
ghost use Rattle.css_kept.specs.Printed as p;

use caja_units::{Memory, Units};
use css_tree::{Css, CssRule};
use css_values::unit;
use std::alloc::Global;

/// Writes bytes.
fn put(out: &mut Vec<u8>, bytes: &[u8]) -> Result<(), Memory>
    ensures { OnOk result (out.new.items ≡ out.old.items ++ bytes.now) }
{
    out.extend_from_slice(bytes)?;
    Ok(())
}

/// Writes a text, a unit of ASCII as its byte.
fn put_text(out: &mut Vec<u8>, text: &Units) -> Result<(), Memory>
    ensures { OnOk result (out.new.items ≡ out.old.items ++ utf8_of text.now) }
{
    let start = out.len();
    for i in 0..text.len() {
        let unit = unit(text, i);
        if unit >= 128 {
            out.truncate(start);
            return text.push_utf8(out);
        }
        out.push(unit as u8)?;
    }
    Ok(())
}

/// Writes texts, each behind this byte.
fn put_behind(out: &mut Vec<u8>, separator: u8, texts: &[Units]) -> Result<(), Memory>
    ensures { OnOk result (out.new.items ≡ out.old.items ++ flat_map (λ text. separator ∷ utf8_of text) texts.now) }
{
    for text in texts {
        out.push(separator)?;
        put_text(out, text)?;
    }
    Ok(())
}

/// Writes texts with this byte between two.
fn put_texts(out: &mut Vec<u8>, separator: u8, texts: &[Units]) -> Result<(), Memory>
    ensures { OnOk result (out.new.items ≡ out.old.items ++ p.between separator utf8_of texts.now) }
{
    match texts {
        [first, rest @ ..] => {
            put_text(out, first)?;
            put_behind(out, separator, rest)
        }
        [] => Ok(()),
    }
}

/// Writes a declaration.
fn put_declaration(out: &mut Vec<u8>, declaration: &(Units, Vec<Units>)) -> Result<(), Memory>
    ensures { OnOk result (out.new.items ≡ out.old.items ++ p.printed_declaration (declaration_of declaration.now)) }
{
    put_text(out, &declaration.0)?;
    put(out, b":")?;
    put_texts(out, b' ', &declaration.1)
}

/// Writes declarations, each behind a `;`.
fn put_more(out: &mut Vec<u8>, declarations: &[(Units, Vec<Units>)]) -> Result<(), Memory>
    ensures { OnOk result (out.new.items ≡ out.old.items ++ flat_map (λ d. 59 ∷ p.printed_declaration d) (declarations_of declarations.now)) }
{
    for declaration in declarations {
        out.push(b';')?;
        put_declaration(out, declaration)?;
    }
    Ok(())
}

/// Writes declarations with a `;` between two.
fn put_declarations(out: &mut Vec<u8>, declarations: &[(Units, Vec<Units>)]) -> Result<(), Memory>
    ensures { OnOk result (out.new.items ≡ out.old.items ++ p.between 59 p.printed_declaration (declarations_of declarations.now)) }
{
    match declarations {
        [first, rest @ ..] => {
            put_declaration(out, first)?;
            put_more(out, rest)
        }
        [] => Ok(()),
    }
}

/// Writes a rule.
fn put_rule(out: &mut Vec<u8>, rule: &CssRule) -> Result<(), Memory>
    ensures { OnOk result (out.new.items ≡ out.old.items ++ p.printed_rule (rule_of rule.now)) }
{
    put_texts(out, b',', &rule.selectors)?;
    put(out, b"{")?;
    put_declarations(out, &rule.decls)?;
    put(out, b"}")
}

/// The text of a sheet in UTF-8.
///
/// # Errors
///
/// `Memory` where memory is wanting.
pub fn print_css(alloc: Global, sheet: &Css) -> Result<Vec<u8>, Memory>
    ensures { IfOk result (λ v. v.items ≡ p.printed (sheet_of sheet.now)) }
{
    let mut out = Vec::new(alloc);
    for rule in &sheet.rules {
        put_rule(&mut out, rule)?;
    }
    Ok(out)
}
