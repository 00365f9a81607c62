//! What a name stands for (ES3 10.1.4, 11.1.2).

ghost use Rattle.std.specs.Prelude.{◌≡◌, IfOk, is_some, slice_get};
ghost use Rattle.es3_language.specs.Store.{name_value, scope_at};
ghost use Rattle.es3_language.specs.References as r;
ghost use Rattle.es3_moves.specs.Where.{plain_chain, plain_ref};
ghost use Rattle.es3_moves.specs.Texts.{store_of, plain_scopes};
ghost use Rattle.es3_references.specs.Owners.{Beyond, beyond, plain_beyond};

use caja_units::{Memory, Units};
use es3_heap::{Heap, ObjId};
use es3_moves::frame::{Chain, Ref};
use es3_moves::texts::{Owner, Texts};
use std::rc::Rc;

/// Where a name may be found that isn't among the names of a scope.
#[derive(Clone, Copy)]
pub enum Elsewhere {
    /// The scope is an activation, which has the name `arguments` at least.
    Activation,
    /// The object of a `with`.
    Object(ObjId),
    Nowhere,
}

/// What the scope of a number has beside its names.
fn beyond_names(c: u32, texts: &Texts) -> Elsewhere
    ensures { plain_beyond result ≡ beyond (slice_get (plain_scopes texts.now) c) }
{
    let at = c as usize;
    if at >= texts.scopes.len() {
        return Elsewhere::Nowhere;
    }
    let scope = &texts.scopes[at];
    match &scope.owner {
        Owner::Activation(_, _, _) => Elsewhere::Activation,
        Owner::WithObject(o) => Elsewhere::Object(*o),
        Owner::OwnName => Elsewhere::Nowhere,
        Owner::Caught => Elsewhere::Nowhere,
    }
}

/// Whether the names of the scope of a number have a name.
fn has_name(c: u32, name: &Units, texts: &Texts) -> bool
    ensures { result ≡ is_some (name_value name.now (scope_at (slice_get (plain_scopes texts.now) c))) }
{
    texts.get(c, name).is_some()
}

/// A name, where no scope has it.
fn global_name(name: &Rc<Units>, h: &Heap, texts: &Texts) -> Result<Ref, Memory>
    ensures { IfOk result (λ x. plain_ref x ≡ r.global_name (store_of h.now texts.now) name.now.value) }
{
    let copy = name.clone()?;
    if h.has(texts.globals, name) {
        Ok(Ref::Named(texts.globals, copy))
    } else {
        Ok(Ref::Unresolved(copy))
    }
}

/// Where a name other than `arguments` is found along a chain.
#[tactic(auto, using(crate::proofs::Beyond::in_with_elsewhere))]
fn resolve(chain: &Chain, name: &Rc<Units>, h: &Heap, texts: &Texts) -> Result<Ref, Memory>
    ensures { IfOk result (λ x. plain_ref x ≡ r.resolve (plain_chain chain.now) (store_of h.now texts.now) name.now.value) }
{
    match chain {
        Chain::End => global_name(name, h, texts),
        Chain::In(c, outer) => {
            if has_name(*c, name, texts) {
                let name = name.clone()?;
                return Ok(Ref::Slot(*c, name));
            }
            if let Elsewhere::Object(o) = beyond_names(*c, texts) {
                if h.has(o, name) {
                    let name = name.clone()?;
                    return Ok(Ref::InObject(o, name));
                }
            }
            resolve(outer, name, h, texts)
        }
    }
}

/// Where the name `arguments` is found along a chain: each activation has it (ES3 10.1.8).
#[tactic(auto, using(crate::proofs::Beyond::arguments_at_elsewhere))]
fn resolve_arguments(chain: &Chain, h: &Heap, texts: &Texts) -> Result<Ref, Memory>
    ensures { IfOk result (λ x. plain_ref x ≡ r.resolve_arguments (plain_chain chain.now) (store_of h.now texts.now)) }
{
    match chain {
        Chain::End => global_name(&texts.arguments, h, texts),
        Chain::In(c, outer) => {
            if has_name(*c, &texts.arguments, texts) {
                let name = texts.arguments.clone()?;
                return Ok(Ref::Slot(*c, name));
            }
            match beyond_names(*c, texts) {
                Elsewhere::Activation => Ok(Ref::OwnArguments(*c)),
                Elsewhere::Object(o) => {
                    if h.has(o, &texts.arguments) {
                        let name = texts.arguments.clone()?;
                        return Ok(Ref::InObject(o, name));
                    }
                    resolve_arguments(outer, h, texts)
                }
                Elsewhere::Nowhere => resolve_arguments(outer, h, texts),
            }
        }
    }
}

/// What a name stands for where a chain of scopes is around it.
///
/// # Errors
///
/// `Memory` where memory is wanting.
pub fn reference(chain: &Chain, name: &Rc<Units>, h: &Heap, texts: &Texts) -> Result<Ref, Memory>
    ensures { IfOk result (λ x. plain_ref x ≡ r.reference (plain_chain chain.now) (store_of h.now texts.now) name.now.value) }
{
    if name.same(&texts.arguments) {
        resolve_arguments(chain, h, texts)
    } else {
        resolve(chain, name, h, texts)
    }
}
