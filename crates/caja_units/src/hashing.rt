//! Texts as the keys of tables: equality is that of their units (ES3 11.9.6), and a hash is fed with their number.

ghost use Rattle.std.specs.Prelude.{◌≡◌};
ghost use Rattle.std.specs.Cmp.{partial_equiv_from_equiv};
ghost use Rattle.std.specs.Cmp.Lexicographic.{nat_list_eq_equiv, bytes_decides};
ghost use Rattle.std.proofs.Common.{ap};
ghost use Rattle.caja_units.specs.Units.{same_units};
ghost use Rattle.caja_units.specs.Hashing.{hash_writes};

use crate::Units;
use std::hash::{Hash, Hasher};

impl PartialEq for Units {
    ghost eq = { same_units };

    ghost laws = { partial_equiv_from_equiv nat_list_eq_equiv };

    fn eq(&self, other: &Units) -> bool {
        self.same(other)
    }
}

impl Eq for Units {
    ghost laws = { nat_list_eq_equiv };
}

impl Hash for Units {
    ghost hash_input = { hash_writes };

    ghost respects_eq = { λ x y h. ap hash_writes ((bytes_decides x y).0 h) };

    fn hash<H: Hasher>(&self, state: &mut H) {
        state.write_u64(self.text.number());
    }
}
