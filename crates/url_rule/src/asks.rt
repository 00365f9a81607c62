//! What answers asks.

ghost use Rattle.std.specs.Prelude.{◌≡◌, ℕ, List};
ghost use Rattle.url_rule.specs.declared.ask.UriKind.{UriKind};
ghost use Rattle.url_rule.specs.declared.ask.UriVerdict.{UriVerdict};

use crate::ask::{UriAsk, UriVerdict};

/// What answers asks, in place of a closure. It may be asked about every ask, and `says` is what it answers: by kind, scheme and host alone, so it remembers
/// nothing.
pub trait Asks {
    ghost says: { Self → UriKind → List ℕ → List ℕ → UriVerdict };

    fn ask(&self, a: &UriAsk) -> UriVerdict
        ensures { result ≡ says self.now a.now.kind a.now.scheme.now a.now.host.now };
}
