//! A rewritten module does in the interpreter what its source does directly.
//!
//! The definitions stand in specs/ and the laws in proofs/; there is no code. The functions here have no body: their contracts are the laws.
//!
//! The direct meaning's world and the interpreter's store are related by specs/Related.antt: objects and what a page keeps by the relation of rows, scopes by their
//! tags (specs/Scopes.antt), closures by their code. A page begins related; a turn begun anywhere in this relation, a load or a call by the page, ends in it again
//! (specs/Turns.antt), so turns follow one another. A deed of a page takes no steps of its own, but an event may name an object: the relation between turns has
//! room for that.
#![tactic(auto)]

ghost use Rattle.std.specs.Prelude.{◌≡◌, ◌⊎◌, ℕ, suc, ◌<◌, ◌≤◌, Bool, List, [], ◌∷◌, ◌++◌, length};
ghost use Rattle.es3_language.specs.Store.{Store};
ghost use Rattle.html_kept.specs.Table.{Answers};
ghost use Rattle.doc_nodes.specs.Rows.{Doc};
ghost use Rattle.doc_laws.specs.Reached.{Reached};
ghost use Rattle.doc_views.specs.Seen.{nodes_seen};
ghost use Rattle.doc_views.specs.Clear.{IsClear};
ghost use Rattle.doc_views.specs.Came.{IsRuled};
ghost use Rattle.rows.specs.Nodes.{Rules};
ghost use Rattle.cajita_tree.specs.Tree as c;
ghost use Rattle.cajita_meaning.specs.World.{Value, object, facet_name, Pairs, World, empty_world};
ghost use Rattle.cajita_meaning.specs.Direct.{Item};
ghost use Rattle.page_natives.specs.Natives.{Kept, new_kept, first_kept, page_of, tells};
ghost use Rattle.heap_rows.specs.Doing.{Told};
ghost use Rattle.heap_rows.specs.Opening.{runtime_id};
ghost use Rattle.es3_heap.specs.Objects.{Objects};
ghost use Rattle.row_simulation.specs.Correspond.{EsValue, Val, Vals};
ghost use Rattle.row_simulation.specs.RowLaw.{shown};
ghost use Rattle.cajita_simulation.specs.Alike.{most_deeds};
ghost use Rattle.cajita_simulation.specs.Sides.{Lasts};
ghost use Rattle.cajita_simulation.specs.Places.{world_of, PagePlaces, ImportsAre, GrantsAre, LoadBegins};
ghost use Rattle.cajita_simulation.specs.Turns.{TurnsAlike, load_in, load_turn, load_turn', call_in, key_turn, key_turn', tick_turn, tick_turn', node_turn, node_turn', TickBegins};
ghost use Rattle.cajita_simulation.specs.Guest.{GuestModule};
ghost use Rattle.cajita_simulation.specs.Scopes.{Tags};
ghost use Rattle.cajita_simulation.specs.Related.{IsClosure, IsBare, BetweenTurns};
ghost use Rattle.module_loader.specs.Page.{first_store};
ghost use Rattle.module_loader.specs.Turns.{page_objects, page_lent, page_store};
ghost use Rattle.cajita_meaning.specs.Imports.{imported};
ghost use Rattle.cajita_simulation.specs.Correct.{Correct, MayImport, imports_of};

/// The program that stands for an accepted module, run as one of the 64 modules of a page, or with imports as its only one, does what the source does directly: it ends alike, after
/// at most 64 times as many steps; it ends only where the source ends; cut off anywhere, it has shown nothing but the source's beginning; and it
/// never ends by a conversion that would run code.
#[tactic(auto, using(crate::proofs::Theorem::correct))]
pub fn a_rewritten_module_does_what_its_source_does()
    ensures { (m : c.Tree c.program) (by : ℕ) → by < 64 → MayImport by m → GuestModule m → Correct by m }
{}

/// So it does wherever the two sides are related and what it imports corresponds, whatever ran before and however many steps that took, under any rules of a page; and where
/// both come to an end they are related again.
#[tactic(auto, using(crate::proofs::Theorem::loads))]
pub fn a_module_loads_wherever_both_sides_are_related()
    ensures { (rules : Rules) (m : c.Tree c.program) (by : ℕ) → by < 64 → GuestModule m
        → (vs : List Value) (d : ℕ) → d < most_deeds → (w : World) (z : List Item) (n : ℕ) (g : Tags) (s : Store) (y : Kept) (i : ℕ) → ImportsAre s.heap y by (imports_of m) vs → BetweenTurns rules d w z n g s y i
        → TurnsAlike rules (load_in s) (suc d) (load_turn m by vs w) z n (load_turn' m by s) y i }
{}

/// Where a page begins, with any number of modules and cells and with the objects of the nodes of its roots, the two sides are related, under the rules by which the natives change its document, or under
/// any rules where it has no nodes; and so they are in the page of one module, whose imports correspond.
#[tactic(auto, using(crate::proofs::Load::Begins::begins, crate::proofs::Load::Begins::begins_one, crate::proofs::Load::Begins::imports_begin))]
pub fn a_page_begins_related()
    ensures pages { (rules : Rules) (modules cells : ℕ) (touching : Bool) (doc : Doc) (a : Answers) → Reached doc → IsClear doc → IsBare doc ⊎ IsRuled a rules
        → BetweenTurns rules 0 (world_of (nodes_seen doc)) [] 0 [] (page_store modules cells doc) (new_kept runtime_id touching (page_lent modules cells doc) a) 0 }
    ensures one { (rules : Rules) → BetweenTurns rules 0 empty_world [] 0 [] first_store first_kept 0 }
    ensures imports { (names : List (List ℕ)) → ImportsAre first_store.heap first_kept 0 names (imported 0 names) }
{}

/// Between two turns both sides stay related where both tell the same, and where a deed is done that has no turn.
#[tactic(auto, using(crate::proofs::Sentences::telling, crate::proofs::Sentences::one_more))]
pub fn a_page_stays_related()
    ensures telling { (rules : Rules) (is : List Item) (items : List Told) → shown is ≡ items → (d : ℕ) (w : World) (z : List Item) (n : ℕ) (g : Tags) (s : Store) (y : Kept) (i : ℕ) → BetweenTurns rules d w z n g s y i
        → BetweenTurns rules d w (z ++ is) n g s (tells items y) i }
    ensures doing { (rules : Rules) (d : ℕ) (w : World) (z : List Item) (n : ℕ) (g : Tags) (s : Store) (y : Kept) (i : ℕ) → BetweenTurns rules d w z n g s y i → BetweenTurns rules (suc d) w z n g s y i }
{}

/// Where a page begins, what it begins with stands where its loads look for it; and it stays there as long as what has a name keeps it, as values that correspond still do.
#[tactic(auto, using(crate::proofs::Load::Places::places_begin, crate::proofs::Load::Places::places_last, crate::proofs::Load::Places::values_last))]
pub fn a_page_has_its_places()
    ensures first { (modules cells : ℕ) (doc : Doc) → Reached doc → IsClear doc → PagePlaces modules cells doc (page_objects modules cells doc) }
    ensures later { (modules cells : ℕ) (doc : Doc) (a b : Objects) → Lasts a b → PagePlaces modules cells doc a → PagePlaces modules cells doc b }
    ensures values { (a b : Objects) → Lasts a b → (v : Value) (e : EsValue) → Val a v e → Val b v e }
{}

/// The load of a module begins in a page with both sides related, and what the module imports corresponds: the fixed names, and what it is granted.
#[tactic(auto, using(crate::proofs::Load::Granted::load_begins))]
pub fn a_load_begins_related()
    ensures { (rules : Rules) (modules cells : ℕ) (doc : Doc) (m : ℕ) → m < modules → m < 64 → (names : List (List ℕ)) (ps : Pairs) (qs : List (List ℕ × EsValue)) (d : ℕ) (w : World) (z : List Item) (n : ℕ) (g : Tags) (s : Store) (y : Kept) (i : ℕ) → PagePlaces modules cells doc s.heap → GrantsAre s.heap ps qs → BetweenTurns rules d w z n g s y i
        → LoadBegins rules m names ps qs d w z n g s y i }
{}

/// The key of a value is called alike on both sides, wherever they are related: of any value, with arguments that correspond.
#[tactic(auto, using(crate::proofs::Turns::key_alike))]
pub fn a_key_is_called_alike()
    ensures { (rules : Rules) (m : ℕ) → m < 64 → (key : List ℕ) (vs : List Value) (es : List EsValue) (d : ℕ) → d < most_deeds → (w : World) (z : List Item) (n : ℕ) (g : Tags) (s : Store) (y : Kept) (i : ℕ) → Vals s.heap vs es → length vs < 4294967296 → BetweenTurns rules d w z n g s y i
        → TurnsAlike rules (call_in s) (suc d) (key_turn m key vs w) z n (key_turn' m key es s y) y i }
{}

/// So is a closure that waited.
#[tactic(auto, using(crate::proofs::Turns::tick_alike))]
pub fn a_closure_that_waited_is_called_alike()
    ensures { (rules : Rules) (m : ℕ) → m < 64 → (f : Value) (e : EsValue) (d : ℕ) → d < most_deeds → (w : World) (z : List Item) (n : ℕ) (g : Tags) (s : Store) (y : Kept) (i : ℕ) → IsClosure w.objects f → Val s.heap f e → BetweenTurns rules d w z n g s y i
        → TurnsAlike rules (call_in s) (suc d) (tick_turn m f w) z n (tick_turn' m e s) y i }
{}

/// So is a function that is told what happens to a node: a closure of a module, by both sides; anything else by neither. That is no deed of its own.
#[tactic(auto, using(crate::proofs::Happening::node_alike))]
pub fn a_function_is_told_alike()
    ensures { (rules : Rules) (root k : ℕ) (f : Value) (o e : EsValue) (d : ℕ) → d ≤ most_deeds → (w : World) (z : List Item) (n : ℕ) (g : Tags) (s : Store) (y : Kept) (i : ℕ) → Val s.heap (object (facet_name root k)) o → Val s.heap f e → BetweenTurns rules d w z n g s y i
        → TurnsAlike rules (call_in s) d (node_turn (facet_name root k) f w) z n (node_turn' o e s) y i }
{}

/// Where functions wait in a module, the first is a closure, and both sides take it away and are related still; where none waits directly, none waits in the interpreter.
#[tactic(auto, using(crate::proofs::Waiting::tick_begins, crate::proofs::Waiting::none_waits))]
pub fn a_tick_begins_related()
    ensures some { (rules : Rules) (m : ℕ) (f : Value) (fs : List Value) (d : ℕ) (w : World) (z : List Item) (n : ℕ) (g : Tags) (s : Store) (y : Kept) (i : ℕ) → w.queues m ≡ f ∷ fs → BetweenTurns rules d w z n g s y i
        → TickBegins rules m f fs d w z n g s y i }
    ensures none { (rules : Rules) (m d : ℕ) (w : World) (z : List Item) (n : ℕ) (g : Tags) (s : Store) (y : Kept) (i : ℕ) → w.queues m ≡ [] → BetweenTurns rules d w z n g s y i
        → (page_of y).queues m ≡ [] }
{}
