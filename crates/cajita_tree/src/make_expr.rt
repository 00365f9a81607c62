ghost use Rattle.std.specs.Prelude.{◌≡◌};
ghost use Rattle.cajita_tree.specs.Tree as tree;
ghost use Rattle.cajita_tree.specs.View.{expr, func, of_exprs, of_fields};

use crate::{CExpr, CFunc};
use caja_units::Units;

/// An array of these elements (ES3 11.1.4).
#[tactic(auto, using(crate::proofs::Rows::view_array))]
pub fn make_array(elements: Vec<CExpr>) -> CExpr
    ensures { expr result ≡ tree.array (of_exprs elements.items) }
{
    CExpr::Array(elements)
}

/// A record of these keys and values (ES3 11.1.5).
#[tactic(auto, using(crate::proofs::Rows::view_record))]
pub fn make_record(fields: Vec<(Units, CExpr)>) -> CExpr
    ensures { expr result ≡ tree.record_of (of_fields fields.items) }
{
    CExpr::Record(fields)
}

/// A function expression (ES3 13).
#[tactic(auto, using(crate::proofs::Rows::view_function))]
pub fn make_function(function: Box<CFunc>) -> CExpr
    ensures { expr result ≡ tree.function (func function.value) }
{
    CExpr::Func(function)
}

/// A call (ES3 11.2.3).
#[tactic(auto, using(crate::proofs::Rows::view_call))]
pub fn make_call(callee: Box<CExpr>, arguments: Vec<CExpr>) -> CExpr
    ensures { expr result ≡ tree.call (expr callee.value) (of_exprs arguments.items) }
{
    CExpr::Call(callee, arguments)
}

/// A `new` with its arguments, none where the source gives none (ES3 11.2.2).
#[tactic(auto, using(crate::proofs::Rows::view_new))]
pub fn make_new(constructor: Box<CExpr>, arguments: Vec<CExpr>) -> CExpr
    ensures { expr result ≡ tree.new (expr constructor.value) (of_exprs arguments.items) }
{
    CExpr::New(constructor, arguments)
}
