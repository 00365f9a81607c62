//! What picks the row of a service.

ghost use Rattle.std.specs.Prelude.{◌≡◌, ℕ, List, map};
ghost use Rattle.page_deeds.specs.Deeds.{Plain as PlainValue};
ghost use Rattle.host_rules.specs.Plain.{plain};

use crate::plain::are_same;
use crate::service::Row;
use host_rules::Plain;

/// What picks a row by arguments, in place of a closure. It may be asked with any list, and `picks` is what it answers: by the arguments alone, so it remembers nothing.
pub trait Picks {
    ghost picks: { Self → List PlainValue → ℕ };

    fn pick(&self, args: &[Plain]) -> usize
        ensures { result ≡ picks self.now (map plain args.now) };
}

/// Rows pick the first of them that has the arguments: for an embedder who has no shorter way.
impl Picks for Vec<Row> {
    ghost use Rattle.host_services.specs.Services.{place_of};
    ghost use Rattle.host_services.specs.View.{rows_of};

    ghost picks = { λ rows args. place_of (rows_of rows.items) args };

    fn pick(&self, args: &[Plain]) -> usize {
        for (place, row) in self.iter().enumerate() {
            if are_same(&row.args, args) {
                return place;
            }
        }
        self.len()
    }
}
