//! The printed text of a program of ECMAScript 3 (ES3 11 to 14), and its laws.
//!
//! The definitions stand in specs/: the tokens of a tree (specs/Tokens.antt), with parentheses exactly where a place asks for them; the
//! text of tokens (specs/Text.antt), with a space exactly where two would run together. There is no code. The functions here have no
//! body: each one's contract is a law.
#![tactic(auto)]

ghost use Rattle.std.specs.Prelude.{◌≡◌, ℕ, List, Ok, IsTrue, false};
ghost use Rattle.es3_tree.specs.Tree as t;
ghost use Rattle.es3_tree.specs.Placed.{Placed};
ghost use Rattle.es3_tree.specs.PlacedView as with_places;
ghost use Rattle.es3_tree.specs.View.{program};
ghost use Rattle.es3_tree.specs.declared.Program.{Program};
ghost use Rattle.es3_tokens.specs.Tokens as tokens;
ghost use Rattle.es3_tokens.specs.Cut as cut;
ghost use Rattle.es3_grammar.specs.Grammar.{spells};
ghost use Rattle.es3_grammar.specs.Plain.{plain};
ghost use Rattle.es3_printed.specs.Tokens.{bare, printed};
ghost use Rattle.es3_printed.specs.Safe.{AreWords, is_safe};
ghost use Rattle.es3_printed.specs.Back.{IsSpelled, IsReadBack};

/// That the text of a program may stand in a script element of a page, and in a CDATA section: where each name is of letters
/// of ASCII, digits, `_` and `$` (ES3 7.6), the text is ASCII, and has no `</`, no `<!` and no `]]>`. So it is where tokens spell the tree.
pub fn printed_is_safe()
    ensures words { (p : t.Tree t.program) → AreWords (bare t.program false p) → IsTrue (is_safe (printed p)) }
    ensures spelled { (p : t.Tree t.program) → IsSpelled p → IsTrue (is_safe (printed p)) }
{}

/// Reading back: the text of a tree that tokens spell is cut into tokens, and these are read as that tree, apart from its places.
pub fn printed_is_read_back()
    ensures { (p : t.Tree t.program) → IsSpelled p → IsReadBack p }
{}

/// What is read of a source is such a tree.
pub fn what_is_read_is_spelled()
    ensures { (limit : ℕ) (source : List ℕ) (ts : List tokens.Placed) (p : Placed t.program)
        → cut.cut limit source ≡ Ok ts → spells p ts → IsSpelled (plain t.program p) }
{}

/// The tree of a program without its places is its plain tree.
pub fn places_are_all_that_is_left_out()
    ensures { (x : Program) → plain t.program (with_places.program x) ≡ program x }
{}
