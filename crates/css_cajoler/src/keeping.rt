//! What is kept of a sheet.

ghost use Rattle.std.specs.Prelude.{◌≡◌, ◌≢◌, ◌++◌, codes, length, option_copied, IfOk, OnOk};
ghost use Rattle.std.specs.List.{flat_map};
ghost use Rattle.css_tree.specs.Views.{declarations_of, rule_of, rules_of, sheet_of};
ghost use Rattle.css_kept.specs.Table.{rows, values_in};
ghost use Rattle.css_kept.specs.Kept as k;
ghost use Rattle.url_rule.specs.Table.{rows_of};
ghost use Rattle.css_urls.specs.Answers.{for_sheets};

use crate::table::values_of_property;
use caja_units::{Memory, Units};
use css_tree::{Css, CssRule, make_sheet};
use css_values::{append_units, fill, keeps};
use std::alloc::Global;
use url::Url;
use url_rule::{Asks, UriRule};

/// A space.
const SPACE: u16 = 32;

/// Lists for the units of texts, which are filled again and again.
#[derive(Debug, Drop)]
struct Room {
    /// A selector, alone or behind the scope; or the name of a property.
    line: Vec<u16>,
    value: Vec<u16>,
}

/// The scope, a space and a selector, in the place of what was in the list.
fn fill_scoped(line: &mut Vec<u16>, scope: &Units, selector: &Units) -> Result<(), Memory>
    ensures { OnOk result (line.new.items ≡ scope.now ++ (codes " " ++ selector.now)) }
{
    fill(line, scope)?;
    line.push(SPACE)?;
    append_units(line, selector)
}

/// Appends a selector behind the scope, if it is kept.
fn push_scoped(
    alloc: Global,
    line: &mut Vec<u16>,
    kept: &mut Vec<Units>,
    scope: &Units,
    selector: &Units,
) -> Result<(), Memory>
    ensures { OnOk result (kept.new.items ≡ kept.old.items ++ k.scoped scope.now selector.now) }
{
    fill(line, selector)?;
    if keeps(line) {
        fill_scoped(line, scope, selector)?;
        let scoped = Units::from_units(alloc, line)?;
        kept.push(scoped)?;
    }
    Ok(())
}

/// The selectors that are kept.
fn keep_selectors(
    alloc: Global,
    line: &mut Vec<u16>,
    scope: &Units,
    selectors: &[Units],
) -> Result<Vec<Units>, Memory>
    ensures { IfOk result (λ v. v.items ≡ flat_map (k.scoped scope.now) selectors.now) }
{
    let mut kept = Vec::with_capacity(alloc, selectors.len())?;
    for selector in selectors {
        push_scoped(alloc, line, &mut kept, scope, selector)?;
    }
    Ok(kept)
}

/// Appends a declaration, if its values are kept.
fn push_kept<F: Asks>(
    alloc: Global,
    room: &mut Room,
    kept: &mut Vec<(Units, Vec<Units>)>,
    name: &Units,
    values: &[Units],
    urls: &UriRule<F>,
    base: Option<&Url>,
) -> Result<(), Memory>
    ensures { OnOk result (declarations_of kept.new.items ≡ declarations_of kept.old.items ++ k.with_values name.now (values_in rows (for_sheets (rows_of urls.now.table.items) (option_copied base.entry)) name.now values.now)) }
{
    let (line, value) = (&mut room.line, &mut room.value);
    match values_of_property(alloc, line, value, name, values, urls, base)? {
        Some(values) => {
            kept.push((name.copy(alloc)?, values))?;
            Ok(())
        }
        None => Ok(()),
    }
}

/// The declarations that are kept.
fn keep_declarations<F: Asks>(
    alloc: Global,
    room: &mut Room,
    declarations: &[(Units, Vec<Units>)],
    urls: &UriRule<F>,
    base: Option<&Url>,
) -> Result<Vec<(Units, Vec<Units>)>, Memory>
    ensures { IfOk result (λ v. declarations_of v.items ≡ flat_map (k.kept_declaration (for_sheets (rows_of urls.now.table.items) (option_copied base.entry))) (declarations_of declarations.now)) }
{
    let mut kept = Vec::with_capacity(alloc, declarations.len())?;
    for declaration in declarations {
        push_kept(
            alloc,
            room,
            &mut kept,
            &declaration.0,
            &declaration.1,
            urls,
            base,
        )?;
    }
    Ok(kept)
}

/// Appends a rule with declarations, if it has selectors.
#[tactic(auto, using(crate::proofs::Filled::no_selectors, crate::proofs::Filled::both))]
fn push_filled(
    rules: &mut Vec<CssRule>,
    selectors: Vec<Units>,
    decls: Vec<(Units, Vec<Units>)>,
) -> Result<(), Memory>
    requires { length decls.items ≢ 0 }
    ensures { OnOk result (rules_of rules.new.items ≡ rules_of rules.old.items ++ k.filled selectors.items (declarations_of decls.items)) }
{
    if selectors.len() == 0 {
        return Ok(());
    }
    rules.push(CssRule { selectors, decls })?;
    Ok(())
}

/// Appends what is kept of a rule. Where no declaration is, the selectors aren't looked at.
#[tactic(auto, using(crate::proofs::Filled::no_declarations))]
fn keep_rule<F: Asks>(
    alloc: Global,
    room: &mut Room,
    rules: &mut Vec<CssRule>,
    scope: &Units,
    rule: &CssRule,
    urls: &UriRule<F>,
    base: Option<&Url>,
) -> Result<(), Memory>
    ensures { OnOk result (rules_of rules.new.items ≡ rules_of rules.old.items ++ k.kept_rule (for_sheets (rows_of urls.now.table.items) (option_copied base.entry)) scope.now (rule_of rule.now)) }
{
    let decls = keep_declarations(alloc, room, &rule.decls, urls, base)?;
    if decls.len() == 0 {
        return Ok(());
    }
    let selectors = keep_selectors(alloc, &mut room.line, scope, &rule.selectors)?;
    push_filled(rules, selectors, decls)
}

/// What is kept of rules.
fn keep_rules<F: Asks>(
    alloc: Global,
    scope: &Units,
    rules: &[CssRule],
    urls: &UriRule<F>,
    base: Option<&Url>,
) -> Result<Vec<CssRule>, Memory>
    ensures { IfOk result (λ v. rules_of v.items ≡ k.cleaned (for_sheets (rows_of urls.now.table.items) (option_copied base.entry)) scope.now (rules_of rules.now)) }
{
    let mut room = Room {
        line: Vec::new(alloc),
        value: Vec::new(alloc),
    };
    let mut kept = Vec::new(alloc);
    for rule in rules {
        keep_rule(alloc, &mut room, &mut kept, scope, rule, urls, base)?;
    }
    Ok(kept)
}

/// What is kept of a sheet: the selectors that are kept, each behind the scope and a space, and the declarations of the table. In the place of each URL stands what
/// the rule answers for it, joined to the base where there is one; where it answers nothing, the declaration is dropped. A rule without selectors or declarations is
/// dropped.
///
/// # Errors
///
/// `Memory` where memory is wanting.
pub fn clean_css<F: Asks>(
    alloc: Global,
    sheet: &Css,
    urls: &UriRule<F>,
    base: Option<&Url>,
    scope: &Units,
) -> Result<Css, Memory>
    ensures { IfOk result (λ clean. sheet_of clean ≡ k.cleaned (for_sheets (rows_of urls.now.table.items) (option_copied base.entry)) scope.now (sheet_of sheet.now)) }
{
    let rules = keep_rules(alloc, scope, &sheet.rules, urls, base)?;
    Ok(make_sheet(rules))
}
