//! Pages of one module, `main`, without cells, and their logs.

ghost use Rattle.std.specs.Prelude.{◌≡◌, All, IfOk, length};
ghost use Rattle.page_runner.specs.Deeds.{DeedFits, GrantsFit};

use crate::documents::{document, no_urls};
use crate::sources::program;
use caja_units::Units;
use page_log::Names;
use page_runner::{Deed, End, Grant, Outcome, Page, run_page, run_texts};
use std::alloc::Global;
use std::test::Fail;

/// Behind the load an event calls a key of its result, and one calls what waits.
const EVENTS: bool = true;

/// Nothing is done behind the load.
const ALONE: bool = false;

/// A source, whether events follow its load, the steps, and the log, its lines and the end.
type Row = (&'static str, bool, u64, &'static str, u64, End);

static PAGES: [Row; 3] = [
    ("", ALONE, 1, "load main return undefined\n", 1, End::Done),
    ("", EVENTS, 1, LOG_OF_EVENTS, 3, End::Done),
    ("null;", ALONE, 0, "", 0, End::Steps),
];

/// The load is logged; the event throws where no object is; none waits.
const LOG_OF_EVENTS: &str = "load main return undefined
event 0 call main \"k\" throw error main#0 TypeError \"no object\"
event 1 tick main none
";

/// Sources that run as they stand.
static TEXTS: [Row; 1] = [("", ALONE, 1, "load main return undefined\n", 1, End::Done)];

/// The document of a page with a root, `a`, which its module is granted as `doc`, and that of a page without nodes.
const ROOTED: &str = "<div id=\"a\"><p id=\"out\">0</p><input id=\"in\"></div>";

const BARE: &str = "";

/// Functions that are told of clicks on the second node of the root, in their order.
const LISTENING: &str = "___.loadModule(function (___, IMPORTS___) {
  var doc = ___.readImport(IMPORTS___, 'doc');
  var out = ___.callPub(doc, 'getElementById', ['out']);
  ___.callPub(out, 'on', ['click', ___.func(function (n) { return ___.callPub(out, 'setText', ['1']); })]);
  ___.callPub(out, 'on', ['click', ___.func(function (n) { return n === out; })]);
});";

/// The second node of the root is clicked, and then a text is put into the fourth.
const LOG_OF_NODES: &str = "load main return undefined
dom a text 1 \"1\"
event 0 click out return undefined
event 0 click out return true
event 1 input in none
";

const HTML_OF_NODES: &str = "<div id=\"a\"><p id=\"out\">1</p><input id=\"in\" value=\"x\"></div>";

/// The load of a source, which is granted nothing, and the events behind it.
fn deeds(alloc: Global, source: &str, events: bool) -> Result<Vec<Deed>, Fail>
    ensures { IfOk result (λ deeds. All (DeedFits 1) deeds.items) }
{
    let load = Deed::Load(0, program(alloc, source)?, Vec::new(alloc));
    if !events {
        return Ok(Vec::from_array(alloc, [load])?);
    }
    let key = Units::from_ascii(alloc, b"k")?;
    let call = Deed::Call(0, 0, key, Vec::new(alloc));
    Ok(Vec::from_array(alloc, [load, call, Deed::Tick(1, 0)])?)
}

/// What a module is granted: the root, as `doc`.
#[tactic(auto, using(crate::proofs::Fit::doc_fits))]
fn grants(alloc: Global) -> Result<Vec<(Units, Grant)>, Fail>
    ensures { IfOk result (λ grants. GrantsFit grants.items) }
{
    let name = Units::from_ascii(alloc, b"doc")?;
    Ok(Vec::from_array(alloc, [(name, Grant::Root(0))])?)
}

/// The load of a source, which is granted the root, and the events at its nodes.
fn node_deeds(alloc: Global, source: &str) -> Result<Vec<Deed>, Fail>
    ensures { IfOk result (λ deeds. All (DeedFits 1) deeds.items) }
{
    let load = Deed::Load(0, program(alloc, source)?, grants(alloc)?);
    let click = Deed::Click(0, Units::from_ascii(alloc, b"out")?, 0, 1);
    let text = Units::from_ascii(alloc, b"x")?;
    let input = Deed::Input(1, Units::from_ascii(alloc, b"in")?, 0, 3, text);
    Ok(Vec::from_array(alloc, [load, click, input])?)
}

/// A page with these roots in its document.
fn page(alloc: Global, html: &str, ids: Vec<Units>, deeds: Vec<Deed>) -> Result<Page, Fail>
    ensures modules { IfOk result (λ p. p.modules ≡ 1) }
    ensures cells { IfOk result (λ p. p.cells ≡ 0) }
    ensures deeds { IfOk result (λ p. p.deeds ≡ deeds) }
{
    let document = document(alloc, html, &ids)?;
    let modules = Vec::from_array(alloc, [Units::from_ascii(alloc, b"main")?])?;
    Ok(Page {
        names: Names {
            modules,
            cells: Vec::new(alloc),
            roots: ids,
        },
        modules: 1,
        cells: 0,
        document,
        urls: no_urls(alloc)?,
        base: None,
        deeds,
    })
}

/// What a page without nodes shows.
fn shown(alloc: Global, row: &Row, as_texts: bool) -> Result<Outcome, Fail> {
    let (source, events, steps, _, _, _) = *row;
    let deeds = deeds(alloc, source, events)?;
    let page = page(alloc, BARE, Vec::new(alloc), deeds)?;
    if as_texts {
        Ok(run_texts(alloc, page, steps, events)?)
    } else {
        Ok(run_page(alloc, page, steps, events)?)
    }
}

/// Whether a page shows what the row wants.
fn holds(alloc: Global, row: &Row, as_texts: bool) -> Result<bool, Fail> {
    let (_, _, _, log, lines, end) = *row;
    let found = shown(alloc, row, as_texts)?;
    Ok(found.log.as_slice() == log.as_bytes() && found.lines == lines && found.end == end)
}

/// What a page with a root shows.
fn shown_with_nodes(alloc: Global) -> Result<Outcome, Fail> {
    let deeds = node_deeds(alloc, LISTENING)?;
    let ids = Vec::from_array(alloc, [Units::from_ascii(alloc, b"a")?])?;
    let page = page(alloc, ROOTED, ids, deeds)?;
    Ok(run_page(alloc, page, 1000, false)?)
}

#[test]
fn a_page_has_its_log_and_its_end(rt: HostRuntime) -> Result<(), Fail> {
    for row in PAGES.iter() {
        assert!(rt; holds(rt.alloc(), row, false)?, "{}", row.3);
    }
    for row in TEXTS.iter() {
        assert!(rt; holds(rt.alloc(), row, true)?, "{}", row.3);
    }
    Ok(())
}

#[test]
fn what_happens_to_nodes_is_told_in_order(rt: HostRuntime) -> Result<(), Fail> {
    let found = shown_with_nodes(rt.alloc())?;
    assert_eq!(rt; found.log.as_slice(), LOG_OF_NODES.as_bytes());
    assert_eq!(rt; found.html.as_slice(), HTML_OF_NODES.as_bytes());
    assert_eq!(rt; found.lines, 5);
    assert_eq!(rt; found.end, End::Done);
    Ok(())
}
