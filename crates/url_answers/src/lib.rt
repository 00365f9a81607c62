//! What a rule for URLs answers is what HTML and sheets ask of it.
//!
//! There is no code. The functions here have no bodies: their contracts are the laws.
#![tactic(auto)]

ghost use Rattle.std.specs.Prelude.{◌≡◌, ℕ, List, Option, true};
ghost use Rattle.std.specs.Str.{chars, is_utf8};
ghost use Rattle.url.specs.Parts.{Parts};
ghost use Rattle.caja_units.specs.Utf8.{units_of_chars};
ghost use Rattle.html_grammar.specs.Trees.{Tree, many};
ghost use Rattle.html_grammar.specs.Document as html;
ghost use Rattle.html_kept.specs.Texts.{OfTexts};
ghost use Rattle.html_kept.specs.Kept as kept;
ghost use Rattle.html_kept.specs.Printed as written;
ghost use Rattle.css_grammar.specs.Sheets.{Text, Rule};
ghost use Rattle.css_grammar.specs.Grammar as css;
ghost use Rattle.css_kept.specs.Back.{IsScope, Quotable};
ghost use Rattle.css_kept.specs.Kept as kept_css;
ghost use Rattle.css_kept.specs.Printed as written_css;
ghost use Rattle.url_rule.specs.Table.{Row};
ghost use Rattle.html_urls.specs.Answers.{for_documents, IsKept};
ghost use Rattle.css_urls.specs.Answers.{for_sheets};
ghost use Rattle.url_answers.specs.OfWeb.{OfWeb};

/// Whatever the table and the base, what is answered for documents is a text of characters, and for sheets one with neither a line end nor a backslash. So what is
/// kept of both with these answers is read back.
pub fn a_rule_answers_texts()
    ensures documents { (rows : List Row) (base : Option Parts) → OfTexts (for_documents rows base) }
    ensures sheets { (rows : List Row) (base : Option Parts) → Quotable (for_sheets rows base) }
{}

/// Of what is kept of HTML by any table with any base, each link names a place in the same document or begins with `http://` or `https://` and goes on, and each image
/// begins so.
pub fn what_is_kept_leads_to_the_web()
    ensures { (ts : Tree many) → IsKept ts → OfWeb many ts }
{}

/// Of any document or sheet that a text spells, with any table and any base, what is kept is written so that it is read back; of a sheet where the scope is `#` and a
/// word.
pub fn what_is_kept_is_read_back()
    ensures documents { (rows : List Row) (base : Option Parts) (t : Tree many) (bytes : List ℕ) → is_utf8 bytes ≡ true → html.Spells t (chars bytes)
        → let k = kept.cleaned (for_documents rows base) t in (is_utf8 (written.printed many k) ≡ true) × html.Spells k (chars (written.printed many k)) }
    ensures sheets { (rows : List Row) (base : Option Parts) (scope : Text) (rs : List Rule) (u : Text) → IsScope scope → css.Spells rs u
        → let k = kept_css.cleaned (for_sheets rows base) scope rs in (is_utf8 (written_css.printed k) ≡ true) × css.Spells k (units_of_chars (chars (written_css.printed k))) }
{}
