//! What a row does in a world, it does among the objects of ES3. There is no code: the functions here have no bodies, and each one's contract is a law.
//!
//! When objects stand for those of a world is specs/Correspond.antt; which rows are meant, specs/Among.antt; what is promised of a row, specs/RowLaw.antt, of an
//! operator, specs/OperatorLaw.antt, and of what a printed text does past its guards, specs/Inline.antt.
//!
//! No row has a law of its own. One induction is for all rows (proofs/Row.antt), over a law for each way in which a row ends (proofs/Ends.antt, Writes.antt,
//! Arrays.antt, Copies.antt, Lists.antt). Attributes, marks and prototypes stand in the laws of ends alone: what is left of the properties of a record after each
//! change is proofs/Props.antt, and what is left of all objects, proofs/Changes.antt and Added.antt.
//!
//! Each node of a root has an object of its name, which the page finds by the node's number; how nodes change, and that those around a node are among its root's, is
//! proofs/Within.antt, Around.antt and Nodes.antt. No object is a forwarder of a grant: the relation has none of these names.
#![tactic(auto)]

ghost use Rattle.std.specs.Prelude.{ℕ, ◌<◌, Bool, List, map};
ghost use Rattle.es3_tree.specs.declared.UnOp.{UnOp};
ghost use Rattle.es3_tree.specs.declared.BinOp.{BinOp};
ghost use Rattle.es3_heap.specs.Objects.{Objects};
ghost use Rattle.es3_heap.specs.Properties.{own, value_of};
ghost use Rattle.rows.specs.Rows.{Native, Row};
ghost use Rattle.cajita_meaning.specs.World.{Value, Object, World, empty_world};
ghost use Rattle.cajita_meaning.specs.Imports.{imported};
ghost use Rattle.heap_rows.specs.Opening.{first, place_of, begun, empty_page, imports_id, opened_for_one};
ghost use Rattle.row_simulation.specs.Correspond.{EsValue, Val, Vals, ObjectsAre};
ghost use Rattle.row_simulation.specs.Among.{IsAmongObjects, AreTablesAmong};
ghost use Rattle.row_simulation.specs.Inline.{InlineRead, InlineWrite};
ghost use Rattle.row_simulation.specs.RowLaw.{Conversions, PagesAre, RowLaw, IsFirst};
ghost use Rattle.row_simulation.specs.Roots.{RootsLaw};
ghost use Rattle.row_simulation.specs.OperatorLaw.{IsOfValues, BinaryLaw, IsTyped, UnaryLaw, NextLaw, NumberLaw, BeforeLaw, BehindLaw};

/// Whatever a row is, it comes to the same on both sides, and what corresponded corresponds.
pub fn every_row_has_its_law()
    ensures { (first : Objects) (places : Native → ℕ) (by : ℕ) → by < 64 → IsFirst first → (q : Row) → IsAmongObjects q → RowLaw first places by q }
{}

/// The rows of all guards, of all operators and of all built-ins are meant, those of nodes too, and of a call by the page itself.
#[tactic(auto, using(crate::proofs::Tables::tables))]
pub fn the_tables_are_among_objects()
    ensures { AreTablesAmong }
{}

/// Where a page begins with so many modules and so many cells, its objects stand for the empty world: the objects without names, of which the prototypes are ten, the
/// records `cajita` and `Math`, the built-in functions, each module's own `say` and `later`, and each cell's record and functions.
#[tactic(auto, using(crate::proofs::First::first_is, crate::proofs::Begun::page_corresponds))]
pub fn a_page_begins_so()
    ensures prototypes { IsFirst first }
    ensures objects { (modules cells : ℕ) → ObjectsAre first place_of empty_world.objects (begun modules cells) 0 }
    ensures page { (modules cells : ℕ) → PagesAre (begun modules cells) empty_world empty_page }
{}

/// Where roots get their nodes that had none, each with its object, what corresponded corresponds.
pub fn a_page_begins_with_its_nodes()
    ensures { (first : Objects) (places : Native → ℕ) → IsFirst first → RootsLaw first places }
{}

/// Where the page of one module begins, its objects stand for the empty world too, and what the module may import stands for what it imports directly, name by name: the
/// fixed names have their values, and any other one is undefined.
#[tactic(auto, using(crate::proofs::Imported::one_corresponds, crate::proofs::Imported::one_page, crate::proofs::Imported::one_imported))]
pub fn what_a_page_begins_with_is_imported()
    ensures objects { ObjectsAre first place_of empty_world.objects opened_for_one 0 }
    ensures page { PagesAre opened_for_one empty_world empty_page }
    ensures imports { (names : List (List ℕ)) → Vals opened_for_one (imported 0 names) (map (λ k. value_of (own opened_for_one imports_id k)) names) }
{}

/// Values that correspond have the same text and the same number.
pub fn conversions_are_the_same()
    ensures { (first : Objects) (places : Native → ℕ) → IsFirst first → (w : World) (h : Objects) (m : ℕ) → ObjectsAre first places w.objects h m → Conversions w h }
{}

/// Each operator of two values is its row (ES3 11.5 to 11.10): among objects the row comes to what the operator gives, a value or a fault, and nothing changes.
/// `instanceof` and `in` are none of these, but guards. So is each operator before a value (11.4), and so are `++` and `--` (11.3, 11.4.4, 11.4.5), by the number
/// that they write and the number before it.
#[tactic(auto, using(crate::proofs::Operators::Each::binary_comes, crate::proofs::Operators::Each::plus_comes, crate::proofs::Operators::Unary::unary_comes, crate::proofs::Operators::Steps::next_comes, crate::proofs::Operators::Steps::before_law, crate::proofs::Operators::Steps::behind_law))]
pub fn each_operator_is_its_row()
    ensures binary { (op : BinOp) → IsOfValues op → BinaryLaw op }
    ensures unary { (op : UnOp) → UnaryLaw op }
    ensures next { (up : Bool) → NextLaw up }
    ensures number { NumberLaw }
    ensures before { (up : Bool) → BeforeLaw up }
    ensures behind { (up : Bool) → BehindLaw up }
{}

/// A value that corresponds to one of a world may be called where its class is that of functions, so `typeof` of it is its row.
pub fn each_value_has_its_type()
    ensures { (first : Objects) (places : Native → ℕ) (objects : ℕ → List Object) (h : Objects) (m : ℕ) → ObjectsAre first places objects h m → (v : Value) (e : EsValue) → Val h v e → IsTyped h e }
{}

/// Where the mark for reading a key is found, reading the key itself is what the guard does.
pub fn a_read_in_line_is_its_guard()
    ensures { (first : Objects) (places : Native → ℕ) (by : ℕ) → InlineRead first places by }
{}

/// Where the mark for writing a key is found, writing the key itself is what the guard does.
pub fn a_write_in_line_is_its_guard()
    ensures { (first : Objects) (places : Native → ℕ) (by : ℕ) → IsFirst first → InlineWrite first places by }
{}
