//! What is kept of sheets of CSS, and how sheets are written.
//!
//! The definitions stand in specs/: which selectors are kept (specs/Selectors.antt); the table of properties and values (specs/Table.antt), where what the rule for
//! URLs answers is an argument; what is kept of a sheet by them, behind a scope (specs/Kept.antt); how a sheet is written (specs/Printed.antt); when a sheet is of the
//! table (specs/OfTable.antt), and what stands in parentheses (specs/Links.antt). There is no code. The functions here have no bodies: their contracts are the laws.
#![tactic(auto)]

ghost use Rattle.std.specs.Prelude.{◌≡◌, List, Some, true};
ghost use Rattle.std.specs.Str.{chars, is_utf8};
ghost use Rattle.caja_units.specs.Utf8.{units_of_chars};
ghost use Rattle.css_grammar.specs.Sheets.{Text, Rule};
ghost use Rattle.css_grammar.specs.Grammar.{Spells};
ghost use Rattle.css_kept.specs.Table.{Answers, no_urls, rows, values_in};
ghost use Rattle.css_kept.specs.Kept.{cleaned};
ghost use Rattle.css_kept.specs.Printed.{printed};
ghost use Rattle.css_kept.specs.OfTable.{Each, OfTable};
ghost use Rattle.css_kept.specs.Links.{IsPlain};
ghost use Rattle.css_kept.specs.Back.{IsScope, Quotable};

/// Whatever the rule for URLs answers, each selector that is kept begins with the scope and a space, and what follows is kept by itself; and each declaration that is
/// kept is one of the table. A value that is kept is of ASCII, and no parenthesis opens in it; or it is `url("..")` around what the rule answers for the URL that stood
/// there.
#[tactic(auto, using(crate::proofs::Each::cleaned_is, crate::proofs::Links::plain))]
pub fn what_is_kept_is_of_the_table()
    ensures table { (a : Answers) (scope : Text) (rs : List Rule) → OfTable a scope (cleaned a scope rs) }
    ensures links { (a : Answers) (n : Text) (vs ws : List Text) → values_in rows a n vs ≡ Some ws → Each (IsPlain a vs) ws }
{}

/// What is kept of a sheet that a text spells is written so that it is read back, where the scope is `#` and a word, and the rule for URLs answers for texts without a
/// backslash texts of characters with neither a line end nor a backslash, as the one that drops all does.
#[tactic(auto, using(crate::proofs::Bytes::bytes_back, crate::proofs::Bytes::no_urls_quotable))]
pub fn what_is_kept_is_read_back()
    ensures back { (a : Answers) (scope : Text) (rs : List Rule) (u : Text) → Quotable a → IsScope scope → Spells rs u
        → (is_utf8 (printed (cleaned a scope rs)) ≡ true) × Spells (cleaned a scope rs) (units_of_chars (chars (printed (cleaned a scope rs)))) }
    ensures dropped { Quotable no_urls }
{}
