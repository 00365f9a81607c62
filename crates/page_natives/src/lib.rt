//! The natives of a page: what its modules, and a text that runs as it stands, may call, each by its number, and what that keeps (ES3 15).
//!
//! What each native answers, and what the natives keep, is specs/Natives.antt; what a built-in function comes to, specs/BuiltIns.antt; the
//! functions that are no rows, specs/Objects.antt; that the functions of modules and cells do their rows, specs/OwnFunctions.antt; that
//! the methods of nodes do, specs/NodeMethods.antt.
#![tactic(auto)]

ghost use Rattle.rows.specs.Rows.{say, later, get, set};
ghost use Rattle.std.specs.Prelude.{ℕ};
ghost use Rattle.es3_objects.specs.declared.value.Tag.TheVariants as tag;
ghost use Rattle.heap_rows.specs.Natives.{own_number, cell_number};
ghost use Rattle.page_natives.specs.OwnFunctions.{DoesItsRow, HasItsNumber, BuiltInsDoTheirRows};
ghost use Rattle.page_natives.specs.NodeMethods.{NodeMethodsDoTheirRows, NodeMethodsHaveTheirNumbers, CalleesKeepWhole};

mod built_ins;
mod natives;
mod nodes;
mod objects;
mod waiting;

pub use built_ins::{BuiltIn, Method, Tool};
pub use natives::{Callee, LOAD_MODULE, PageNatives, answer_of};
pub use objects::{array_from, function_from, object_from, to_string, value_of};

/// What `say` and `later` of a module and `get` and `set` of a cell answer, and what they keep, is what their rows do among objects.
pub fn own_functions_do_their_rows()
    ensures say { (m : ℕ) → DoesItsRow (Callee.Say m) say (tag.Own m 0) }
    ensures later { (m : ℕ) → DoesItsRow (Callee.Later m) later (tag.Own m 1) }
    ensures get { (cell : ℕ) → DoesItsRow (Callee.Get cell) get (tag.Cell cell 1) }
    ensures set { (cell : ℕ) → DoesItsRow (Callee.Set cell) set (tag.Cell cell 2) }
{}

/// Each of them is called by its number.
pub fn own_functions_have_their_numbers()
    ensures say { (m : ℕ) → HasItsNumber (Callee.Say m) (own_number m 0) }
    ensures later { (m : ℕ) → HasItsNumber (Callee.Later m) (own_number m 1) }
    ensures get { (cell : ℕ) → HasItsNumber (Callee.Get cell) (cell_number cell 1) }
    ensures set { (cell : ℕ) → HasItsNumber (Callee.Set cell) (cell_number cell 2) }
{}

/// A built-in function that a page has from its beginning, and that is no method of nodes, comes to its row, by its number.
pub fn built_ins_do_their_rows()
    ensures { BuiltInsDoTheirRows }
{}

/// A method of nodes does what its row does, by its number, and whatever is called, what is lent of the document stays whole.
pub fn node_methods_do_their_rows()
    ensures rows { NodeMethodsDoTheirRows }
    ensures numbers { NodeMethodsHaveTheirNumbers }
    ensures whole { CalleesKeepWhole }
{
    node_rows::node_methods_do_their_rows();
}
