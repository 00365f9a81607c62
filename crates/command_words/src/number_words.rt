//! Where a number stands among words.

ghost use Rattle.std.specs.Prelude.{◌≡◌, ◌<◌, ◌&&◌, ◌||◌, false, not, length, map, codes, string_bytes, IfSome};
ghost use Rattle.std.specs.Str.{bytes_eq};
ghost use Rattle.command_words.specs.Words.{is_hyphened, number_at};

/// Where the first word stands that neither begins with `-` nor is behind `--steps`.
pub fn number_at(words: &[String]) -> Option<usize>
    ensures place { result ≡ number_at false (map string_bytes words.now) }
    ensures within { IfSome result (λ i. i < length words.now) }
{
    let mut behind = false;
    for (index, word) in words.iter().enumerate() {
        if !is_other(behind, word.as_str()) {
            return Some(index);
        }
        behind = is_steps(behind, word.as_str());
    }
    None
}

/// Whether a word is no number: one behind `--steps`, or one that begins with `-`.
fn is_other(behind: bool, word: &str) -> bool
    ensures { result ≡ (behind || is_hyphened word.now) }
{
    behind || is_hyphened(word)
}

/// Whether the word behind this one is the number of steps.
fn is_steps(behind: bool, word: &str) -> bool
    ensures { result ≡ (not behind && bytes_eq word.now (codes "--steps")) }
{
    !behind && word == "--steps"
}

/// Whether a word begins with `-`.
fn is_hyphened(word: &str) -> bool
    ensures { result ≡ is_hyphened word.now }
{
    match word.as_bytes() {
        [b'-', ..] => true,
        _ => false,
    }
}
