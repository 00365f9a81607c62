//! Whether plain values are one.

ghost use Rattle.std.specs.Prelude.{◌≡◌, map};
ghost use Rattle.host_rules.specs.Plain.{plain};
ghost use Rattle.host_services.specs.Services.{same_plain, same_plains};

use host_rules::Plain;

/// Whether two plain values are one: of one kind, and the same truth, number or units.
fn is_same(one: &Plain, other: &Plain) -> bool
    ensures { result ≡ same_plain (plain one.now) (plain other.now) }
{
    match (one, other) {
        (Plain::Null, Plain::Null) => true,
        (Plain::Bool(a), Plain::Bool(b)) => a == b,
        (Plain::Num(m), Plain::Num(n)) => m.get() == n.get(),
        (Plain::Text(us), Plain::Text(vs)) => us.same(vs),
        _ => false,
    }
}

/// Whether there are as many of both, and each is the same as the one at its place.
pub fn are_same(ones: &[Plain], others: &[Plain]) -> bool
    ensures { result ≡ same_plains (map plain ones.now) (map plain others.now) }
{
    match ones {
        [] => others.is_empty(),
        [one, ones @ ..] => match others {
            [] => false,
            [other, others @ ..] => is_same(one, other) && are_same(ones, others),
        },
    }
}
