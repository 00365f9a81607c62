// The parts of an output: the texts of modules, what is written for sheets, the groups, and the text of the document.

ghost use Rattle.std.specs.Prelude.{◌≡◌, ◌++◌, map, OnOk};
ghost use Rattle.page_log.specs.Log.{name_in};
ghost use Rattle.page_manifest.specs.View.{style as style_told};
ghost use Rattle.caja_units.specs.Index.{number_units};
ghost use Rattle.caja_cli.specs.Output.{sized, module_part, style_part, style_parts, html_part, group_words, group_line, group_lines, summary};

use crate::ending::end_line;
use caja_units::{Memory, Units};
use page_manifest::Style;
use page_runner::End;
use std::alloc::Global;

/// Appends `LENGTH`, and the text.
fn push_sized(alloc: Global, out: &mut Vec<u8>, text: &[u8]) -> Result<(), Memory>
    ensures { OnOk result (out.new.items ≡ out.old.items ++ sized text.now) }
{
    let length = text.len().to_string(alloc)?;
    out.extend_from_slice(length.as_bytes())?;
    out.push(b'\n')?;
    out.extend_from_slice(text)?;
    out.push(b'\n')?;
    Ok(())
}

/// Appends `module NAME LENGTH`, and the text.
pub fn push_module(
    alloc: Global,
    out: &mut Vec<u8>,
    name: &Units,
    text: &[u8],
) -> Result<(), Memory>
    ensures { OnOk result (out.new.items ≡ out.old.items ++ module_part name.now text.now) }
{
    out.extend_from_slice(b"module ")?;
    name.push_utf8(out)?;
    out.push(b' ')?;
    push_sized(alloc, out, text)
}

/// Appends `style ROOT LENGTH`, and what is written for a sheet.
fn push_style(alloc: Global, out: &mut Vec<u8>, root: &Units, text: &[u8]) -> Result<(), Memory>
    ensures { OnOk result (out.new.items ≡ out.old.items ++ style_part root.now text.now) }
{
    out.extend_from_slice(b"style ")?;
    root.push_utf8(out)?;
    out.push(b' ')?;
    push_sized(alloc, out, text)
}

/// Appends what is written for each sheet.
pub fn push_styles(
    alloc: Global,
    out: &mut Vec<u8>,
    styles: &[Style],
    texts: &[Vec<u8>],
) -> Result<(), Memory>
    ensures { OnOk result (out.new.items ≡ out.old.items ++ style_parts (map style_told styles.now) (map (λ text. text.items) texts.now)) }
{
    for (style, text) in styles.iter().zip(texts.iter()) {
        push_style(alloc, out, &style.root, text)?;
    }
    Ok(())
}

/// Appends `html LENGTH`, and the text.
pub fn push_html(alloc: Global, out: &mut Vec<u8>, text: &[u8]) -> Result<(), Memory>
    ensures { OnOk result (out.new.items ≡ out.old.items ++ html_part text.now) }
{
    out.extend_from_slice(b"html ")?;
    push_sized(alloc, out, text)
}

/// Appends bytes.
fn push(out: &mut Vec<u8>, bytes: &[u8]) -> Result<(), Memory>
    ensures { OnOk result (out.new.items ≡ out.old.items ++ bytes.now) }
{
    out.extend_from_slice(bytes)?;
    Ok(())
}

/// Appends the name of the module with this number; `?` where there is none.
pub fn push_name(out: &mut Vec<u8>, names: &[Units], number: u32) -> Result<(), Memory>
    ensures { OnOk result (out.new.items ≡ out.old.items ++ name_in names.now number) }
{
    match names.get(number as usize) {
        Some(name) => name.push_utf8(out),
        None => push(out, b"?"),
    }
}

/// Appends ` NAME` for each of these modules.
fn push_names(out: &mut Vec<u8>, names: &[Units], modules: &[u32]) -> Result<(), Memory>
    ensures { OnOk result (out.new.items ≡ out.old.items ++ group_words names.now modules.now) }
{
    for number in modules {
        out.push(b' ')?;
        push_name(out, names, *number)?;
    }
    Ok(())
}

/// Appends `group` and the names of its modules.
fn push_group(out: &mut Vec<u8>, names: &[Units], modules: &[u32]) -> Result<(), Memory>
    ensures { OnOk result (out.new.items ≡ out.old.items ++ group_line names.now modules.now) }
{
    out.extend_from_slice(b"group")?;
    push_names(out, names, modules)?;
    out.push(b'\n')?;
    Ok(())
}

/// Appends a line for each group.
pub fn push_groups(out: &mut Vec<u8>, names: &[Units], groups: &[Vec<u32>]) -> Result<(), Memory>
    ensures { OnOk result (out.new.items ≡ out.old.items ++ group_lines names.now (map (λ g. g.items) groups.now)) }
{
    for group in groups {
        push_group(out, names, group)?;
    }
    Ok(())
}

/// Appends a word and a number.
fn push_count(alloc: Global, out: &mut Vec<u8>, word: &[u8], count: u64) -> Result<(), Memory>
    ensures { OnOk result (out.new.items ≡ out.old.items ++ (word.now ++ number_units count)) }
{
    out.extend_from_slice(word)?;
    let digits = count.to_string(alloc)?;
    out.extend_from_slice(digits.as_bytes())?;
    Ok(())
}

/// Appends `gen N modules K events M lines L` and how the page ended.
pub fn push_summary(
    alloc: Global,
    out: &mut Vec<u8>,
    wanted: u32,
    modules: usize,
    events: usize,
    lines: u64,
    end: End,
) -> Result<(), Memory>
    ensures { OnOk result (out.new.items ≡ out.old.items ++ summary wanted modules events lines end) }
{
    push_count(alloc, out, b"gen ", u64::from(wanted))?;
    push_count(alloc, out, b" modules ", modules as u64)?;
    push_count(alloc, out, b" events ", events as u64)?;
    push_count(alloc, out, b" lines ", lines)?;
    out.push(b' ')?;
    out.extend_from_slice(end_line(end))?;
    Ok(())
}
