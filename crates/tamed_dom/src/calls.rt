//! What each method of nodes comes to.

ghost use Rattle.std.specs.Prelude.{◌≡◌, ◌≤◌, length, codes, Some, option_copied};
ghost use Rattle.es3_convert.specs.Conversions.{text_of};
ghost use Rattle.row_outcomes.specs.Comes.{Comes};
ghost use Rattle.row_outcomes.specs.Arguments.{argument};
ghost use Rattle.url_rule.specs.Table.{rows_of};
ghost use Rattle.html_urls.specs.Answers.{for_documents};
ghost use Rattle.node_deeds.specs.Told.{as_told};
ghost use Rattle.dom_facets.specs.Facets.{facets};
ghost use Rattle.dom_handlers.specs.Handlers.{kind_of};
ghost use Rattle.guard_marks.specs.Closures.{is_closure};
ghost use Rattle.tamed_dom.specs.Lent.{facet as facet_of};
ghost use Rattle.tamed_dom.specs.Ends.{done_of, Leaves};
ghost use Rattle.tamed_dom.specs.Methods.{shown, shown_all, told_turn, asked_turn, listens, on_turn, method_turn, node_turn, given};

use crate::dom::{Dom, facet};
use crate::given::given;
use crate::methods::NodeMethod;
use caja_units::Units;
use doc_tree::NodeId;
use dom_handlers::EventKind;
use es3_convert::{out_of_memory, to_text};
use es3_heap::{Heap, Stop, Value};
use guard_marks::is_closure;
use node_deeds::Told;
use row_outcomes::{Outcome, new_array, thrown, value_or};
use std::alloc::Global;
use url::Url;
use url_rule::{Asks, UriRule};

/// The value of a node.
fn show(h: &mut Heap, d: &mut Dom, n: NodeId) -> Result<Outcome, Stop>
    ensures outcome { Comes (done_of (shown (facet_of n h.old d.old))) result h.new }
    ensures dom { Leaves result (shown (facet_of n h.old d.old)).state d.new }
    ensures live { length h.old.list ≤ length h.new.list }
{
    let value = facet(h, d, n).map_err(out_of_memory)?;
    Ok(Outcome::Value(value))
}

/// A new array of the values of some nodes.
fn show_all(
    alloc: Global,
    h: &mut Heap,
    d: &mut Dom,
    by: u32,
    nodes: &[NodeId],
) -> Result<Outcome, Stop>
    ensures outcome { Comes (done_of (shown_all by (facets nodes.now d.old.doc h.old d.old.facets) d.old)) result h.new }
    ensures dom { Leaves result (shown_all by (facets nodes.now d.old.doc h.old d.old.facets) d.old).state d.new }
    ensures live { length h.old.list ≤ length h.new.list }
{
    let values = d.facets_of(alloc, h, nodes).map_err(out_of_memory)?;
    new_array(h, by, values)
}

/// What is told of a deed, as a value.
fn tell(
    alloc: Global,
    h: &mut Heap,
    d: &mut Dom,
    by: u32,
    told: Told,
    first: &Value,
) -> Result<Outcome, Stop>
    ensures outcome { Comes (done_of (told_turn (as_told told) first.now by h.old d.old)) result h.new }
    ensures dom { Leaves result (told_turn (as_told told) first.now by h.old d.old).state d.new }
    ensures live { length h.old.list ≤ length h.new.list }
{
    match told {
        Told::Undefined => Ok(Outcome::Value(Value::Undefined)),
        Told::Null => Ok(Outcome::Value(Value::Null)),
        Told::Argument => {
            let first = first.copy(alloc).map_err(out_of_memory)?;
            Ok(Outcome::Value(first))
        }
        Told::Text(text) => Ok(Outcome::Value(Value::Text(text))),
        Told::Node(n) => show(h, d, n),
        Told::Nodes(nodes) => show_all(alloc, h, d, by, &nodes),
        Told::Error(refusal) => thrown(alloc, h, by, refusal.message()),
    }
}

/// What a method but `on` comes to at a node.
fn ask<F: Asks>(
    alloc: Global,
    h: &mut Heap,
    d: &mut Dom,
    method: NodeMethod,
    by: u32,
    n: NodeId,
    args: &[Value],
    urls: &UriRule<F>,
    base: Option<&Url>,
) -> Result<Outcome, Stop>
    ensures outcome { Comes (done_of (asked_turn (for_documents (rows_of urls.now.table.items) (option_copied base.entry)) (given method args.now h.old d.old.doc) n (argument 0 args.now) by h.old d.old)) result h.new }
    ensures dom { Leaves result (asked_turn (for_documents (rows_of urls.now.table.items) (option_copied base.entry)) (given method args.now h.old d.old.doc) n (argument 0 args.now) by h.old d.old).state d.new }
    ensures live { length h.old.list ≤ length h.new.list }
{
    match given(alloc, h, &d.doc, method, args)? {
        Some(asked) => {
            let before = d.count();
            let told = d
                .perform(alloc, n, asked, urls, base)
                .map_err(out_of_memory)?;
            d.grow(h, before).map_err(out_of_memory)?;
            tell(alloc, h, d, by, told, value_or(args, 0, &Value::Undefined))
        }
        None => thrown(alloc, h, by, b"bad argument"),
    }
}

/// Registers a function that is called when this happens to a node.
fn register(
    alloc: Global,
    h: &mut Heap,
    d: &mut Dom,
    by: u32,
    n: NodeId,
    kind: EventKind,
    function: &Value,
) -> Result<Outcome, Stop>
    ensures outcome { Comes (done_of (listens (Some kind) (is_closure h.old function.now) function.now n by h.old d.old)) result h.new }
    ensures dom { Leaves result (listens (Some kind) (is_closure h.old function.now) function.now n by h.old d.old).state d.new }
    ensures live { length h.old.list ≤ length h.new.list }
{
    if !is_closure(alloc, h, function).map_err(out_of_memory)? {
        return thrown(alloc, h, by, b"bad argument");
    }
    let function = function.copy(alloc).map_err(out_of_memory)?;
    d.on(n, kind, function).map_err(out_of_memory)?;
    Ok(Outcome::Value(Value::Undefined))
}

/// Registers a function that is called when something of this name happens to a node.
fn listen(
    alloc: Global,
    h: &mut Heap,
    d: &mut Dom,
    by: u32,
    n: NodeId,
    name: &Units,
    function: &Value,
) -> Result<Outcome, Stop>
    ensures outcome { Comes (done_of (listens (kind_of name.now) (is_closure h.old function.now) function.now n by h.old d.old)) result h.new }
    ensures dom { Leaves result (listens (kind_of name.now) (is_closure h.old function.now) function.now n by h.old d.old).state d.new }
    ensures live { length h.old.list ≤ length h.new.list }
{
    match EventKind::of_name(name) {
        Some(kind) => register(alloc, h, d, by, n, kind, function),
        None => thrown(alloc, h, by, b"bad argument"),
    }
}

/// `on(k, f)`.
fn on(
    alloc: Global,
    h: &mut Heap,
    d: &mut Dom,
    by: u32,
    n: NodeId,
    args: &[Value],
) -> Result<Outcome, Stop>
    ensures outcome { Comes (done_of (on_turn (text_of h.old (argument 0 args.now)) (argument 1 args.now) n by h.old d.old)) result h.new }
    ensures dom { Leaves result (on_turn (text_of h.old (argument 0 args.now)) (argument 1 args.now) n by h.old d.old).state d.new }
    ensures live { length h.old.list ≤ length h.new.list }
{
    let absent = Value::Undefined;
    let name = to_text(alloc, h, value_or(args, 0, &absent))?;
    listen(alloc, h, d, by, n, &name, value_or(args, 1, &absent))
}

/// What a method comes to at a node.
fn call_method<F: Asks>(
    alloc: Global,
    h: &mut Heap,
    d: &mut Dom,
    method: NodeMethod,
    by: u32,
    n: NodeId,
    args: &[Value],
    urls: &UriRule<F>,
    base: Option<&Url>,
) -> Result<Outcome, Stop>
    ensures outcome { Comes (done_of (method_turn (for_documents (rows_of urls.now.table.items) (option_copied base.entry)) method n args.now by h.old d.old)) result h.new }
    ensures dom { Leaves result (method_turn (for_documents (rows_of urls.now.table.items) (option_copied base.entry)) method n args.now by h.old d.old).state d.new }
    ensures live { length h.old.list ≤ length h.new.list }
{
    if method.is_on() {
        on(alloc, h, d, by, n, args)
    } else {
        ask(alloc, h, d, method, by, n, args, urls, base)
    }
}

/// A method of a node, called by the running module. The rule says which URLs an attribute may be given, joined to the base where there is one.
///
/// First the receiver is tested: a TypeError `bad receiver` where it is no node. Then the arguments that are taken as texts are converted, from the left. Then the method does what it does
/// (docs/DOCUMENT.md), and `bad argument` is thrown where an argument is to be a node, an event or a function of a text and isn't. The line of an earlier change is gone.
///
/// # Errors
///
/// As `to_text`, and `Stop::Number` where an array would have 2^32 items or more. After `Stop::Memory` nothing is known of what is lent, and each object of the store is still there.
pub fn node_row<F: Asks>(
    alloc: Global,
    h: &mut Heap,
    d: &mut Dom,
    method: NodeMethod,
    by: u32,
    this: &Value,
    args: &[Value],
    urls: &UriRule<F>,
    base: Option<&Url>,
) -> Result<Outcome, Stop>
    ensures outcome { Comes (done_of (node_turn (for_documents (rows_of urls.now.table.items) (option_copied base.entry)) method by this.now args.now h.old d.old)) result h.new }
    ensures dom { Leaves result (node_turn (for_documents (rows_of urls.now.table.items) (option_copied base.entry)) method by this.now args.now h.old d.old).state d.new }
    ensures live { length h.old.list ≤ length h.new.list }
{
    d.take_change();
    match d.node_of(h, this) {
        Some(n) => call_method(alloc, h, d, method, by, n, args, urls, base),
        None => thrown(alloc, h, by, b"bad receiver"),
    }
}
