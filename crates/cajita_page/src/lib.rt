//! What a page of Cajita modules does, directly, over loads and events; and that what each module does lies in what it has.
//!
//! The definitions stand in specs/: what the log shows of a value (specs/Shown.antt), what a page does, deed by deed (specs/DirectPage.antt), and what is
//! promised of it (specs/Promises.antt). The proofs go from the laws of turns (crate cajita_laws) to whole pages (crate pages). There is no code. The
//! functions here have no bodies: their contracts are the laws.
#![tactic(auto)]

ghost use Rattle.cajita_page.specs.Promises.{PagesReach, PageItemsLie, PageNamesAreNew};

/// What the modules of a page do, wherever it is cut, lies in what they have: each touch, each object that something is got out of, and each that is passed;
/// and names are counted. From the start a module has the fixed names, its own `say` and `later` among them, and the methods of texts; all else it has made,
/// got, or been granted or passed.
pub fn what_a_page_does_lies_in_reach()
    ensures { PagesReach }
{}

/// What is said of whole pages, of each item: it lies in what was had before it, and two objects that were made have two names.
pub fn each_item_of_a_page_lies_in_what_was_had_before_it()
    ensures reached { PageItemsLie }
    ensures numbered { PageNamesAreNew }
{}
