//! What is kept of trees of HTML, and how trees are written.
//!
//! The definitions stand in specs/: the table of elements, attributes and values (specs/Table.antt), where what the rule for URLs answers is an argument; what is
//! kept of a document by it (specs/Kept.antt); how a document is written (specs/Printed.antt); when a document is of the table (specs/OfTable.antt), and which
//! documents were read (specs/Texts.antt). There is no code. The functions here have no bodies: their contracts are the laws.
#![tactic(auto)]

ghost use Rattle.std.specs.Prelude.{◌≡◌, ℕ, List, Some, true, false, nat_eq, codes};
ghost use Rattle.std.specs.List.{list_all, starts_with};
ghost use Rattle.std.specs.Str.{chars, is_utf8};
ghost use Rattle.html_grammar.specs.Tables.{is_in};
ghost use Rattle.html_grammar.specs.Trees.{Tree, many};
ghost use Rattle.html_grammar.specs.Document.{Spells};
ghost use Rattle.html_kept.specs.Table.{Answers, no_urls, attr_value};
ghost use Rattle.html_kept.specs.Kept.{cleaned};
ghost use Rattle.html_kept.specs.Printed.{printed, printed_text, printed_value, is_no_mark, is_no_quote};
ghost use Rattle.html_kept.specs.Texts.{OfTexts};
ghost use Rattle.html_kept.specs.OfTable.{OfTable, attr_names};

/// Whatever the rule for URLs answers, each element that is kept is one of the table, each attribute one of the table with a value that is kept there, no text is
/// empty, and no two stand side by side. No attribute that is kept has a name which begins with `on`.
pub fn what_is_kept_is_of_the_table()
    ensures table { (a : Answers) (t : Tree many) → OfTable a many (cleaned a t) }
    ensures named { (a : Answers) (n x us vs : List ℕ) → attr_value a n x us ≡ Some vs → is_in attr_names x ≡ true }
    ensures no_event { (a : Answers) (n x us vs : List ℕ) → attr_value a n x us ≡ Some vs → starts_with nat_eq x (codes "on") ≡ false }
{}

/// Neither `<` nor `>` stands in what is written of a text or a value, nor `"` in what is written of a value.
pub fn no_markup_is_written_of_a_text()
    ensures text { (us : List ℕ) → list_all is_no_mark (printed_text us) ≡ true }
    ensures value { (us : List ℕ) → list_all is_no_quote (printed_value us) ≡ true }
{}

/// What is kept of a document that bytes spell is written so that it is read back, where the rule for URLs answers texts of characters, as the one that drops all
/// does.
pub fn what_is_kept_is_read_back()
    ensures back { (a : Answers) (t : Tree many) (bytes : List ℕ) → OfTexts a → is_utf8 bytes ≡ true → Spells t (chars bytes)
        → (is_utf8 (printed many (cleaned a t)) ≡ true) × Spells (cleaned a t) (chars (printed many (cleaned a t))) }
    ensures dropped { OfTexts no_urls }
{}
