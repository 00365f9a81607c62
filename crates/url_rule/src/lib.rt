//! Which URLs a page may name: a rule that the embedder makes, and what stands in the place of a URL.
//!
//! The definitions stand in specs/: what a table of rows answers (specs/Table.antt), what is answered for a text that names a URL (specs/Reading.antt), and what is
//! so of every answer (specs/Answers.antt). URLs are read and joined as the URL Standard says, by the crate `url`.
#![tactic(auto)]

ghost use Rattle.std.specs.Prelude.{◌≡◌, ◌⊎◌, ℕ, List, Option, Some, None, true, false};
ghost use Rattle.std.specs.List.{list_all};
ghost use Rattle.url.specs.Parts.{Parts};
ghost use Rattle.url_rule.specs.declared.ask.UriKind.{UriKind};
ghost use Rattle.url_rule.specs.Table.{Row};
ghost use Rattle.url_rule.specs.Reading.{stays, may_stand, is_web, read};
ghost use Rattle.url_rule.specs.Answers.{IsNamed, IsOfWeb, OfChars, scheme_of};

mod ask;
mod asks;
mod rule;
mod table;
mod texts;

pub use ask::{UriAsk, UriKind, UriRow, UriVerdict};
pub use asks::Asks;
pub use rule::UriRule;

/// What is answered is a link to a place in the same document, as it stands, or the text of a URL that the text names and the table allows, with a host, which begins
/// with `http://` or `https://` and goes on.
pub fn what_is_answered_is_of_the_web()
    ensures { (rows : List Row) (k : UriKind) (base : Option Parts) (us vs : List ℕ) → read rows k base us ≡ Some vs
        → ((stays k us ≡ true) × (vs ≡ us)) ⊎ (IsNamed rows k base us vs × IsOfWeb vs) }
{}

/// A text that begins with another scheme is dropped, in whatever case it stands, with whatever spaces and controls before it, and with tabs and line ends within it.
/// So is a text without a scheme where there is no base, but for a link to a place in the same document.
pub fn another_scheme_is_dropped()
    ensures dropped { (rows : List Row) (k : UriKind) (base : Option Parts) (us s : List ℕ) → scheme_of us ≡ Some s → is_web s ≡ false
        → read rows k base us ≡ None }
    ensures baseless { (rows : List Row) (k : UriKind) (us : List ℕ) → stays k us ≡ false → scheme_of us ≡ None → read rows k None us ≡ None }
{}

/// What is answered is of printable characters of ASCII without spaces, and in a sheet without backslashes: so of characters without line ends.
pub fn what_is_answered_may_stand_there()
    ensures shown { (rows : List Row) (k : UriKind) (base : Option Parts) (us vs : List ℕ) → read rows k base us ≡ Some vs → list_all (may_stand k) vs ≡ true }
    ensures characters { (rows : List Row) (k : UriKind) (base : Option Parts) (us vs : List ℕ) → read rows k base us ≡ Some vs → OfChars vs }
{}
