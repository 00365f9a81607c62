//! The prelude of Valija: the statements of Cajita that each lowered module begins with. They declare `$v`, whose functions the forms of Valija are lowered to:
//! functions with `this`, prototypes, names that nothing declares.
#![tactic(auto)]

ghost use Rattle.std.specs.Prelude.{◌≡◌, ◌<◌, ◌^◌, length, map, IfOk};
ghost use Rattle.es3_tree.specs.PlacedView.{of_stmts};
ghost use Rattle.es3_tokens.specs.Cut.{cut};
ghost use Rattle.es3_lexer.specs.Views.{placed_of};
ghost use Rattle.es3_grammar.specs.Answers.{answer};
ghost use Rattle.valija_prelude.specs.Read.{IsAccepted, prelude_statements, statements_in, spelled_in};

use caja_units::Memory;
use es3_lexer::{Tokens, tokens};
use es3_stmt::read_program;
use es3_tree::Program;
use std::alloc::Global;

/// The text of the prelude, in ASCII.
const PRELUDE: &[u8] = b"\
var $v = (function () {
  var fs = [], os = [], outers = {};
  function find(t, o) {
    for (var i = 0; i < t.length; i++) { if (t[i][0] === o) { return t[i]; } }
    return undefined;
  }
  function props(o) { var e = find(fs, o); return e === undefined ? o : e[2]; }
  function up(o) { var e = find(os, o); return e === undefined ? undefined : e[1]; }
  function holder(o, k) {
    while (o !== undefined) { if (k in o) { return o; } o = up(o); }
    return undefined;
  }
  function r(o, k) {
    var p = props(o), w;
    if (cajita.isRecord(p)) {
      w = holder(p, k);
      return w !== undefined ? w[k] : p === o ? undefined : o[k];
    }
    return o[k];
  }
  function s(o, k, v) { props(o)[k] = v; return v; }
  function d(o, k) { return delete props(o)[k]; }
  function h(k, o) {
    var p = props(o);
    return cajita.isRecord(p) ? holder(p, k) !== undefined : k in p;
  }
  function ks(o) {
    var p = props(o), out = [], seen = {}, k;
    if (!cajita.isRecord(p)) { return cajita.keys(p); }
    while (p !== undefined) {
      for (k in p) { if (!(k in seen)) { seen[k] = true; out.push(k); } }
      p = up(p);
    }
    return out;
  }
  function dis(body) {
    var f = function () { return body.apply(undefined, [undefined].concat(arguments)); };
    fs.push([f, body, {prototype: {}}]);
    return f;
  }
  function cf(f, a) {
    if (typeof f !== 'function') { throw new TypeError('not a function'); }
    return f.apply(undefined, a);
  }
  function cm(o, k, a) {
    var e = find(fs, o), m, g;
    if (e !== undefined && !(k in e[2])) {
      if (k === 'call') { return e[1].apply(undefined, a); }
      if (k === 'apply') {
        return e[1].apply(undefined,
          [a[0]].concat(a[1] === undefined || a[1] === null ? [] : a[1]));
      }
    }
    m = r(o, k);
    g = find(fs, m);
    if (g !== undefined) { return g[1].apply(undefined, [o].concat(a)); }
    if (typeof m !== 'function') { throw new TypeError('not a function'); }
    return m.apply(o, a);
  }
  function n(f, a) {
    var e = find(fs, f), o = {}, v;
    if (e === undefined) { return new f(a[0]); }
    if (cajita.isRecord(e[2].prototype)) { os.push([o, e[2].prototype]); }
    v = e[1].apply(undefined, [o].concat(a));
    return typeof v === 'function' || typeof v === 'object' && v !== null ? v : o;
  }
  function io(o, f) {
    var e = find(fs, f), p;
    if (e === undefined) { return o instanceof f; }
    p = up(o);
    while (p !== undefined) { if (p === e[2].prototype) { return true; } p = up(p); }
    return false;
  }
  function ro(x) { if (x in outers) { return outers[x]; } throw new TypeError('unbound'); }
  function so(x, v) { outers[x] = v; return v; }
  function to(x) { return typeof outers[x]; }
  return cajita.freeze({r: r, s: s, d: d, h: h, ks: ks, dis: dis, cf: cf, cm: cm,
    n: n, io: io, ro: ro, so: so, to: to});
})();
";

/// The text of the prelude is cut into tokens, which spell a program; that breaks no rule of Cajita, whatever names are granted.
#[tactic(auto, using(crate::proofs::Accepted::prelude_is_accepted))]
pub fn the_prelude_is_accepted()
    ensures { IsAccepted }
{}

// The program that tokens spell.
fn read(alloc: Global, list: &Tokens) -> Result<Program, Memory>
    ensures { IfOk result (λ p. of_stmts p.body.items ≡ statements_in (answer 128 list.now.end (map placed_of list.now.list.items))) }
{
    match read_program(alloc, list, 128) {
        Ok(program) => Ok(program),
        Err(_) => Err(Memory),
    }
}

// The program that a source spells.
fn spelled(alloc: Global, source: &[u8]) -> Result<Program, Memory>
    requires { length source.now < 2 ^ 32 }
    ensures { IfOk result (λ p. of_stmts p.body.items ≡ spelled_in source.now (cut (length source.now) source.now)) }
{
    match tokens(alloc, source, source.len()) {
        Ok(list) => read(alloc, &list),
        Err(_) => Err(Memory),
    }
}

/// The program that the text of the prelude spells.
///
/// # Errors
///
/// `Memory` where memory is wanting.
#[tactic(auto, unfolding(crate::specs::Read::prelude_statements))]
pub fn prelude(alloc: Global) -> Result<Program, Memory>
    ensures { IfOk result (λ p. of_stmts p.body.items ≡ prelude_statements) }
{
    spelled(alloc, PRELUDE)
}
