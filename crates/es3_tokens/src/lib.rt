//! What a source of ECMAScript 3 is cut into (ES3 7), and the laws of cutting it.
//!
//! The definitions stand in specs/: `cut` (specs/Cut.antt) is the tokens of a source, or why it has none. There is no code. The functions
//! here have no body: each one's contract is a law. `o` says that an operand is wanted where a point stands, so that a `/` there
//! doesn't divide.
#![tactic(auto)]

ghost use Rattle.std.specs.Prelude.{◌≡◌, ℕ, suc, ◌+◌, ◌≤◌, ◌<◌, List, ◌∷◌, ◌++◌, Bool, true, false, Some, None, map, take, length};
ghost use Rattle.std.specs.List.{prefix_len, list_any, All};
ghost use Rattle.es3_tree.specs.Token.{Token};
ghost use Rattle.es3_tokens.specs.Characters.{is_white, is_line, is_letter, is_digit, is_part, is_quote};
ghost use Rattle.es3_tokens.specs.Longest.{longest};
ghost use Rattle.es3_tokens.specs.Tokens.{named};
ghost use Rattle.es3_tokens.specs.Numbers.{number};
ghost use Rattle.es3_tokens.specs.Texts.{body};
ghost use Rattle.es3_tokens.specs.Gaps.{comment_end, not_line};
ghost use Rattle.es3_tokens.specs.Refusals.{open_comment};
ghost use Rattle.es3_tokens.specs.Cut.{point, skip, accept, refuse, cut, cut_from, cut_chars};
ghost use Rattle.es3_tokens.specs.Steps.{number_step, text_step, sign_step, begins_sign, is_sign};
ghost use Rattle.es3_tokens.specs.Quick.{quick_from, quick_chars};
ghost use Rattle.es3_tokens.specs.Back.{spelling, IsToken, stays, spelled, AllStay, tokens_in};

/// Gaps (ES3 7.2, 7.3): white space and line terminators are skipped, one at a time, and a line terminator is told.
#[tactic(auto, using(crate::proofs::Gaps::point_white, crate::proofs::Gaps::point_line))]
pub fn gaps_are_skipped()
    ensures white { (o : Bool) (c : ℕ) (s : List ℕ) → is_white c ≡ true → point o (c ∷ s) ≡ skip false 1 }
    ensures line { (o : Bool) (c : ℕ) (s : List ℕ) → is_white c ≡ false → is_line c ≡ true → point o (c ∷ s) ≡ skip true 1 }
{}

/// Comments (ES3 7.4): one to the end of its line, without the line terminator; one up to the first `*/`, which tells whether a
/// line terminator stands in it; and one that doesn't end, which is refused.
#[tactic(auto, using(crate::proofs::Comments::point_line_comment, crate::proofs::Comments::point_block, crate::proofs::Comments::point_open))]
pub fn comments_are_skipped()
    ensures to_line { (o : Bool) (s : List ℕ) → point o (47 ∷ 47 ∷ s) ≡ skip false (suc (suc (prefix_len not_line s))) }
    ensures block { (o : Bool) (s : List ℕ) (n : ℕ) → comment_end s ≡ Some n → point o (47 ∷ 42 ∷ s) ≡ skip (list_any is_line (take n s)) (suc (suc n)) }
    ensures open { (o : Bool) (s : List ℕ) → comment_end s ≡ None → point o (47 ∷ 42 ∷ s) ≡ refuse open_comment }
{}

/// Names and words (ES3 7.5, 7.6): where a letter stands, all the parts of a name from there on are one name or word.
#[tactic(auto, using(crate::proofs::Names::point_name))]
pub fn names_are_longest()
    ensures { (o : Bool) (c : ℕ) (s : List ℕ) → is_letter c ≡ true → point o (c ∷ s) ≡ accept (named (c ∷ take (prefix_len is_part s) s)) (suc (prefix_len is_part s)) }
{}

/// Numbers (ES3 7.8.3): where a digit stands, the longest number is the token, unless its form or its size is refused.
#[tactic(auto, using(crate::proofs::Numbers::point_number))]
pub fn numbers_are_longest()
    ensures { (o : Bool) (c : ℕ) (s : List ℕ) → is_digit c ≡ true → point o (c ∷ s) ≡ number_step (longest number (suc (length s)) (c ∷ s)) (c ∷ s) }
{}

/// Texts (ES3 7.8.4): where a quote stands, what is read up to the closing one is the token, or its first fault the refusal.
#[tactic(auto, using(crate::proofs::Texts::point_text))]
pub fn texts_are_closed()
    ensures { (o : Bool) (q : ℕ) (s : List ℕ) → is_quote q ≡ true → point o (q ∷ s) ≡ text_step (body q 0 s) }
{}

/// Punctuators (ES3 7.7): where no other token, no gap and no refusal begins, the longest punctuator is the token, and where there is
/// none the character is refused.
#[tactic(auto, using(crate::proofs::Punctuators::point_punctuator))]
pub fn punctuators_are_longest()
    ensures { (o : Bool) (c : ℕ) (s : List ℕ) → begins_sign c ≡ true → is_sign o (c ∷ s) ≡ true → point o (c ∷ s) ≡ sign_step (c ∷ s) }
{}

/// Reading back a token: what is written of it is read as it is, before any text before which it stays.
#[tactic(auto, using(crate::proofs::BackTokens::back_token))]
pub fn a_token_is_read_back()
    ensures { (o : Bool) (t : Token) (r : List ℕ) → IsToken t → stays o t r ≡ true → point o (spelling t ++ r) ≡ accept t (length (spelling t)) }
{}

/// Reading back tokens: where each one stays before what follows it, what is written of all of them, with a space before those that
/// are marked, is cut into them.
#[tactic(auto, using(crate::proofs::BackTokens::back_tokens))]
pub fn tokens_are_read_back()
    ensures { (p : ℕ) (l o : Bool) (ts : List (Bool × Token)) → AllStay o ts → tokens_in (cut_from 0 p l o (spelled ts)) ≡ Some (map (λ x. x.1) ts) }
{}

/// A source of ASCII within its limit is cut as its bytes stand.
#[tactic(auto, using(crate::proofs::BackSources::cut_ascii))]
pub fn ascii_is_cut_as_it_stands()
    ensures { (limit : ℕ) (s : List ℕ) → length s ≤ limit → All (λ b. b < 128) s → cut limit s ≡ cut_from 0 0 false true s }
{}

/// What is cut by the first character at each point is the cut: so the tokens of a whole source are found by computation.
#[tactic(auto, using(crate::proofs::Quick::quick_same, crate::proofs::Quick::chars_same))]
pub fn the_quick_cut_is_the_cut()
    ensures from { (n p : ℕ) (l o : Bool) (s : List ℕ) → quick_from n p l o s ≡ cut_from n p l o s }
    ensures chars { (s : List ℕ) → quick_chars s ≡ cut_chars s }
{}
