//! Keys, and what is written to (ES3 8.7, 11.2.1, 11.3, 11.4.4, 11.4.5, 11.13). Each function fails with `Memory` where memory is wanting.

ghost use Rattle.std.specs.Prelude.{◌≡◌, ◌+◌, ◌<◌, false, IfOk, OnOk};
ghost use Rattle.es3_tree.specs.View as made;
ghost use Rattle.cajita_tree.specs.Tree as tree;
ghost use Rattle.cajita_tree.specs.View as source;
ghost use Rattle.rewrite_parts.specs.Held.{place_form, held_form};
ghost use Rattle.cajita_rewrite.specs.Rewrite.{rewritten, temps, of_target};
ghost use Rattle.cajita_rewrite.specs.Members.{place_of, held_of};

use crate::expressions::rewrite_expr;
use caja_units::Memory;
use cajita_tree::{Key, Target};
use es3_tree::Expr;
use rewrite_parts::held::{Held, HeldKey, HeldPlace, Place};
use rewrite_parts::names::{copied_name, runtime_call};
use rewrite_parts::temporaries::{Temporaries, set_temporary, then};
use std::alloc::Global;

/// The key as an expression.
#[cycle(forms)]
#[tactic(auto, unfolding(crate::specs::Rewrite::rewritten))]
pub(crate) fn rewrite_key(
    alloc: Global,
    temporaries: &mut Temporaries,
    key: &Key,
) -> Result<Expr, Memory>
    ensures form { IfOk result (λ x. made.expr x ≡ rewritten false tree.key temporaries.old.taken (source.key key.now)) }
    ensures count { OnOk result (temporaries.new.taken ≡ temporaries.old.taken + temps tree.key (source.key key.now)) }
{
    match key {
        Key::Fixed(key) => Ok(Expr::Text(key.copy(alloc)?)),
        Key::Computed(key) => rewrite_expr(alloc, temporaries, key),
    }
}

/// What a plain assignment writes to, or a loop over keys.
#[cycle(forms)]
pub(crate) fn rewrite_target(
    alloc: Global,
    temporaries: &mut Temporaries,
    target: &Target,
) -> Result<Place, Memory>
    ensures form { IfOk result (λ p. place_form p ≡ place_of temporaries.old.taken (source.target target.now)) }
    ensures count { OnOk result (temporaries.new.taken ≡ temporaries.old.taken + temps tree.target (source.target target.now)) }
{
    match target {
        Target::Var(name) => Ok(Place::Variable(copied_name(alloc, name)?)),
        Target::Member(object, key) => {
            let object = rewrite_expr(alloc, temporaries, object)?;
            let key = rewrite_key(alloc, temporaries, key)?;
            Ok(Place::Member(object, key))
        }
    }
}

/// What is read and written to: a member is held in temporaries, and behind them so many more are taken.
#[cycle(forms)]
pub(crate) fn hold_target(
    alloc: Global,
    temporaries: &mut Temporaries,
    more: u32,
    target: &Target,
) -> Result<HeldPlace, Memory>
    requires { more < 2 }
    ensures form { IfOk result (λ p. held_form p ≡ held_of temporaries.old.taken more (source.target target.now)) }
    ensures count { OnOk result (temporaries.new.taken
        ≡ temporaries.old.taken + (of_target (1 + more) (source.target target.now) + temps tree.target (source.target target.now))) }
{
    match target {
        Target::Var(name) => Ok(HeldPlace::Variable(copied_name(alloc, name)?)),
        Target::Member(object, Key::Fixed(key)) => {
            let first = temporaries.take(1 + more)?;
            let object = rewrite_expr(alloc, temporaries, object)?;
            Ok(HeldPlace::Member(Held {
                holding: set_temporary(alloc, first, object)?,
                object: first,
                key: HeldKey::Fixed(key.copy(alloc)?),
                next: first + 1,
            }))
        }
        Target::Member(object, Key::Computed(key)) => {
            let first = temporaries.take(2 + more)?;
            let object = rewrite_expr(alloc, temporaries, object)?;
            let object = set_temporary(alloc, first, object)?;
            let key = rewrite_expr(alloc, temporaries, key)?;
            let key = runtime_call(alloc, "key", [key])?;
            let key = set_temporary(alloc, first + 1, key)?;
            Ok(HeldPlace::Member(Held {
                holding: then(alloc, object, key)?,
                object: first,
                key: HeldKey::Temporary(first + 1),
                next: first + 2,
            }))
        }
    }
}
