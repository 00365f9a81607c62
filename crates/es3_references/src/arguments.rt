//! The arguments objects of calls, whose items have the values of parameters (ES3 10.1.8).

ghost use Rattle.std.specs.Prelude.{◌≡◌, ◌+◌, ◌<◌, ◌≤◌, ◌++◌, IfOk, OnOk, is_some, drop, length, map, position, option_map, slice_get};
ghost use Rattle.caja_units.specs.Units.{same_units};
ghost use Rattle.caja_units.specs.Index.{number_units};
ghost use Rattle.es3_heap.specs.Objects.{hidden_attrs};
ghost use Rattle.es3_heap.specs.Properties.{can_delete, define};
ghost use Rattle.es3_language.specs.Store.{name_value, scope_at};
ghost use Rattle.es3_language.specs.Arguments as a;
ghost use Rattle.es3_moves.specs.Code.{names_of};
ghost use Rattle.es3_moves.specs.Texts.{store_of, plain_item, plain_scopes, plain_share, plain_shared};
ghost use Rattle.es3_references.specs.Shares.{own_parameter, item_value, item_of, shared_front, one_unshared};

use crate::members::whole;
use caja_units::{Memory, Units};
use es3_convert::index_key;
use es3_heap::{Attrs, Class, Heap, ObjId, Proto, Value};
use es3_moves::texts::{Names, Owner, Shared, SharedItem, Texts};
use std::alloc::Global;
use std::rc::Rc;

/// A value for an item that is still there.
fn put_item(
    alloc: Global,
    object: ObjId,
    key: &Units,
    value: &Value,
    h: &mut Heap,
) -> Result<(), Memory>
    ensures store { OnOk result (h.new ≡ a.put_item object key.now value.now h.old) }
    ensures live { length h.old.list ≤ length h.new.list }
{
    if h.own(object, key).is_none() {
        return Ok(());
    }
    let value = value.copy(alloc)?;
    h.put(object, key, value)?;
    Ok(())
}

/// A value for the items of a parameter.
fn put_items(
    alloc: Global,
    object: ObjId,
    items: &[SharedItem],
    name: &Units,
    value: &Value,
    h: &mut Heap,
) -> Result<(), Memory>
    ensures store { OnOk result (h.new ≡ a.put_items object (map plain_item items.now) name.now value.now h.old) }
    ensures live { length h.old.list ≤ length h.new.list }
{
    for item in items {
        if name.same(&item.name) {
            put_item(alloc, object, &item.key, value, h)?;
        }
    }
    Ok(())
}

/// A name of a scope is written: so are the items that have its value.
fn put_shared(
    alloc: Global,
    c: u32,
    name: &Units,
    value: &Value,
    h: &mut Heap,
    texts: &Texts,
) -> Result<(), Memory>
    ensures store { OnOk result (h.new ≡ a.put_shared (plain_shared texts.now) c name.now value.now h.old) }
    ensures live { length h.old.list ≤ length h.new.list }
{
    for shared in &texts.shared {
        if shared.scope == c {
            return put_items(alloc, shared.object, &shared.items, name, value, h);
        }
    }
    Ok(())
}

/// A value for a name of the scope of a number; the own name of a function expression isn't written.
///
/// # Errors
///
/// `Memory` where memory is wanting.
pub fn write_slot(
    alloc: Global,
    c: u32,
    name: &Rc<Units>,
    value: Value,
    h: &mut Heap,
    texts: &mut Texts,
) -> Result<(), Memory>
    ensures store { OnOk result (store_of h.new texts.new ≡ a.write_slot c name.now.value value (store_of h.old texts.old)) }
    ensures live { length h.old.list ≤ length h.new.list }
{
    if texts.is_fixed(c) {
        return Ok(());
    }
    put_shared(alloc, c, name, &value, h, texts)?;
    texts.put(c, name, value)
}

/// The parameter whose value an item has.
fn parameter_in<'a>(items: &'a [SharedItem], key: &Units) -> Option<&'a Rc<Units>>
    ensures { option_map (λ x. x.now.value) result ≡ a.parameter_in (map plain_item items.now) key.now }
{
    for item in items {
        if key.same(&item.key) {
            return Some(&item.name);
        }
    }
    None
}

/// The parameter whose value a member of an object has, with the number of its scope.
fn parameter_of<'a>(object: ObjId, key: &Units, texts: &'a Texts) -> Option<(u32, &'a Rc<Units>)>
    ensures { option_map (λ p. (p.0, p.1.now.value)) result ≡ a.parameter_of (plain_shared texts.now) object key.now }
{
    for shared in &texts.shared {
        if shared.object == object {
            return match parameter_in(&shared.items, key) {
                Some(name) => Some((shared.scope, name)),
                None => None,
            };
        }
    }
    None
}

/// A value for a member of an object (ES3 8.6.2.2, 10.1.8).
///
/// # Errors
///
/// `Memory` where memory is wanting.
pub fn put_member(
    alloc: Global,
    object: ObjId,
    key: &Units,
    value: Value,
    h: &mut Heap,
    texts: &mut Texts,
) -> Result<(), Memory>
    ensures store { OnOk result (store_of h.new texts.new ≡ a.put_member object key.now value (store_of h.old texts.old)) }
    ensures live { length h.old.list ≤ length h.new.list }
{
    match parameter_of(object, key, texts) {
        None => {
            h.put(object, key, value)?;
            Ok(())
        }
        Some((c, name)) => {
            let name = name.clone()?;
            let copy = value.copy(alloc)?;
            h.put(object, key, copy)?;
            write_slot(alloc, c, &name, value, h, texts)
        }
    }
}

/// Deletes a member of an object, and says whether it may go (ES3 8.6.2.5); an item that is deleted has the value of no
/// parameter any more.
pub fn delete_member(object: ObjId, key: &Units, h: &mut Heap, texts: &mut Texts) -> bool
    ensures answer { result ≡ can_delete h.old object key.now }
    ensures store { store_of h.new texts.new ≡ a.delete_member object key.now (store_of h.old texts.old) }
    ensures live { length h.old.list ≤ length h.new.list }
{
    let goes = h.delete(object, key);
    if goes {
        unshare(object, key, &mut texts.shared);
    }
    goes
}

/// An item has the value of no parameter any more.
#[tactic(auto, using(crate::proofs::Sharing::shares_more, crate::proofs::Sharing::shares_done))]
fn unshare(object: ObjId, key: &Units, shared: &mut Vec<Shared>)
    ensures { map plain_share shared.new.items ≡ a.unshared object key.now (map plain_share shared.old.items) }
{
    let mut at = 0;
    while at < shared.len() {
        unshare_in(object, key, &mut shared[at]);
        at += 1;
    }
}

/// An item of an object has the value of no parameter any more, if this is what the object shares.
fn unshare_in(object: ObjId, key: &Units, share: &mut Shared)
    ensures { plain_share share.new ≡ one_unshared object key.now (plain_share share.old) }
{
    if share.object == object {
        without_item(key, &mut share.items);
    }
}

/// The place of the item of a key, from 0.
fn item_place(items: &[SharedItem], key: &Units) -> Option<usize>
    ensures { result ≡ position (λ i. same_units key.now i.key) items.now }
{
    items.iter().position(|item| key.same(&item.key))
}

/// The items but for that of a key.
#[tactic(auto, using(crate::proofs::Sharing::some_without, crate::proofs::Sharing::none_without))]
fn without_item(key: &Units, items: &mut Vec<SharedItem>)
    ensures { map plain_item items.new.items ≡ a.without_item key.now (map plain_item items.old.items) }
{
    match item_place(items, key) {
        Some(at) => {
            items.remove(at);
        }
        None => {}
    }
}

/// Whether the name of a parameter is that of one behind it too (ES3 10.1.3).
fn comes_again(name: &Units, behind: &[Rc<Units>]) -> bool
    ensures { result ≡ a.comes_again name.now (names_of behind.now) }
{
    for other in behind {
        if name.same(other) {
            return true;
        }
    }
    false
}

/// The parameter whose value the item of an index has: none behind the parameters, and none where the name comes again.
fn parameter_at<'a>(params: &'a [Rc<Units>], i: usize) -> Option<&'a Rc<Units>>
    ensures { option_map (λ x. x.now.value) result ≡ own_parameter (drop i (names_of params.now)) }
{
    if i >= params.len() {
        return None;
    }
    let name = &params[i];
    if comes_again(name, &params[i + 1..]) {
        None
    } else {
        Some(name)
    }
}

/// The value of an argument's parameter by now, or the argument where its item has the value of none.
fn item_value(
    alloc: Global,
    params: &[Rc<Units>],
    i: usize,
    arg: &Value,
    names: &Names,
) -> Result<Value, Memory>
    ensures { IfOk result (λ v. v ≡ item_value (names_of params.now) i arg.now names.now) }
{
    match parameter_at(params, i) {
        None => arg.copy(alloc),
        Some(name) => match names.get(name) {
            Some(v) => v.copy(alloc),
            None => arg.copy(alloc),
        },
    }
}

/// The item of an index of an arguments object.
fn define_item(
    alloc: Global,
    object: ObjId,
    params: &[Rc<Units>],
    i: usize,
    arg: &Value,
    names: &Names,
    h: &mut Heap,
) -> Result<(), Memory>
    ensures store { OnOk result (h.new ≡ define h.old object (number_units i) (item_value (names_of params.now) i arg.now names.now) hidden_attrs) }
    ensures live { length h.old.list ≤ length h.new.list }
{
    let value = item_value(alloc, params, i, arg, names)?;
    let key = index_key(alloc, i as u64)?;
    h.define(object, &key, value, Attrs::HIDDEN)?;
    Ok(())
}

/// The items of an arguments object.
#[tactic(auto, using(crate::proofs::Sharing::items_more, crate::proofs::Sharing::items_done))]
fn define_items(
    alloc: Global,
    object: ObjId,
    params: &[Rc<Units>],
    args: &[Value],
    names: &Names,
    h: &mut Heap,
) -> Result<(), Memory>
    ensures store { OnOk result (h.new ≡ a.with_items object 0 (names_of params.now) args.now names.now h.old) }
    ensures live { length h.old.list ≤ length h.new.list }
{
    for (i, arg) in args.iter().enumerate() {
        define_item(alloc, object, params, i, arg, names, h)?;
    }
    Ok(())
}

/// A new arguments object (ES3 10.1.8).
fn make_object(
    alloc: Global,
    callee: &Value,
    params: &[Rc<Units>],
    args: &[Value],
    names: &Names,
    h: &mut Heap,
) -> Result<ObjId, Memory>
    ensures id { IfOk result (λ o. o ≡ length h.old.list) }
    ensures store { OnOk result (h.new ≡ a.with_arguments_object callee.now (names_of params.now) args.now names.now h.old) }
    ensures live { length h.old.list ≤ length h.new.list }
{
    if args.len() >= 4_294_967_296 {
        return Err(Memory);
    }
    let count = Value::Num(whole(args.len()));
    let callee_key = Units::from_ascii(alloc, b"callee")?;
    let length = Units::from_ascii(alloc, b"length")?;
    let callee = callee.copy(alloc)?;
    let above = h.proto(Proto::Object);
    let object = h.make(Class::Object, Some(above))?;
    h.define(object, &callee_key, callee, Attrs::HIDDEN)?;
    h.define(object, &length, count, Attrs::HIDDEN)?;
    define_items(alloc, object, params, args, names, h)?;
    Ok(object)
}

/// The item of an index, which has the value of a parameter.
fn shared_item(alloc: Global, i: usize, name: &Rc<Units>) -> Result<SharedItem, Memory>
    ensures { IfOk result (λ item. plain_item item ≡ (number_units i, name.now.value)) }
{
    let name = name.clone()?;
    let key = index_key(alloc, i as u64)?;
    Ok(SharedItem { key, name })
}

/// The item of an index, if it has the value of a parameter, behind the others.
fn push_item(
    alloc: Global,
    params: &[Rc<Units>],
    i: usize,
    items: &mut Vec<SharedItem>,
) -> Result<(), Memory>
    ensures { OnOk result (map plain_item items.new.items ≡ map plain_item items.old.items ++ item_of i (own_parameter (drop i (names_of params.now)))) }
{
    if let Some(name) = parameter_at(params, i) {
        items.push(shared_item(alloc, i, name)?)?;
    }
    Ok(())
}

/// The items that have the values of parameters, as many parameters as there are arguments.
#[tactic(auto, using(crate::proofs::Sharing::front_more, crate::proofs::Sharing::front_full, crate::proofs::Sharing::front_done))]
fn shared_items(
    alloc: Global,
    params: &[Rc<Units>],
    count: usize,
) -> Result<Vec<SharedItem>, Memory>
    ensures { IfOk result (λ items. map plain_item items.items ≡ shared_front 0 (names_of params.now) count) }
{
    let mut items = Vec::new(alloc);
    for i in 0..params.len() {
        if i >= count {
            return Ok(items);
        }
        push_item(alloc, params, i, &mut items)?;
    }
    Ok(items)
}

/// Makes the arguments object of an activation, which is the next object, and binds it to its name, unless the name is bound
/// by now.
///
/// # Errors
///
/// `Memory` where memory is wanting.
pub fn make_arguments(alloc: Global, c: u32, h: &mut Heap, texts: &mut Texts) -> Result<(), Memory>
    ensures store { OnOk result (store_of h.new texts.new ≡ a.with_arguments c (store_of h.old texts.old)) }
    ensures live { length h.old.list ≤ length h.new.list }
{
    if has_arguments(c, texts) {
        return Ok(());
    }
    bind_arguments(alloc, c, h, texts)
}

/// Whether the name `arguments` is bound in the scope of a number.
fn has_arguments(c: u32, texts: &Texts) -> bool
    ensures { result ≡ is_some (name_value a.arguments_name (scope_at (slice_get (plain_scopes texts.now) c))) }
{
    texts.get(c, &texts.arguments).is_some()
}

/// Makes the arguments object of an activation, and binds it to its name.
fn bind_arguments(alloc: Global, c: u32, h: &mut Heap, texts: &mut Texts) -> Result<(), Memory>
    ensures store { OnOk result (store_of h.new texts.new ≡ a.made_at (slice_get (plain_scopes texts.old) c) c (store_of h.old texts.old)) }
    ensures live { length h.old.list ≤ length h.new.list }
{
    let at = c as usize;
    if at >= texts.scopes.len() {
        return Ok(());
    }
    let scope = &texts.scopes[at];
    match &scope.owner {
        Owner::Activation(callee, params, args) => {
            let items = shared_items(alloc, params, args.len())?;
            let object = make_object(alloc, callee, params, args, &scope.names, h)?;
            texts.shared.push(Shared {
                object,
                scope: c,
                items,
            })?;
            let name = texts.arguments.clone()?;
            texts.put(c, &name, Value::Obj(object))
        }
        Owner::OwnName => Ok(()),
        Owner::Caught => Ok(()),
        Owner::WithObject(_) => Ok(()),
    }
}
