//! A page whose cells are numbered anew does the same, with its cells numbered anew.
//!
//! The definitions stand in specs/: what becomes of all that names a cell where cells are numbered anew (specs/Renumbering.antt), when two answers and two
//! plans are the same under maps of what they are made of (specs/Mapped.antt), what is promised of turns and of pages (specs/Promises.antt), of cells that
//! have names (specs/Names.antt), and of the cells that items name (specs/Cells.antt). The proofs go from the world's answers (proofs/Rows.antt for every row,
//! proofs/Calls.antt for calls, proofs/Questions.antt and proofs/Events.antt) by a law of all forms (proofs/Forms.antt) to turns and pages (proofs/Turns.antt,
//! proofs/Pages.antt). No row sees a cell's number: names of cells are compared, and a number finds what its cell keeps. There is no code. The functions here
//! have no bodies: their contracts are the laws.
#![tactic(auto)]

ghost use Rattle.cell_numbers.specs.Promises.{LoadsAnew, QuestionsAnew, CallsAnew, KeysAnew, TicksAnew, NodesAnew, PagesAnew, PageItemsAnew, PageStepsAnew, GroupItemsAnew};
ghost use Rattle.cell_numbers.specs.Names.{NumbersJoin, DeedsJoin, PagesJoin};
ghost use Rattle.cell_numbers.specs.Cells.{StaysUnmoved, NamesOwnCells, NamesOwnRoots};

/// A turn of a module does the same with the cells numbered anew: its load, and what begins with a question or with the call of a function; and what an event
/// begins, where a key is called of a value, or a function that waits.
pub fn a_turn_is_the_same_anew()
    ensures load { LoadsAnew }
    ensures question { QuestionsAnew }
    ensures call { CallsAnew }
    ensures key_event { KeysAnew }
    ensures tick { TicksAnew }
    ensures node { NodesAnew }
{}

/// A page whose cells are numbered anew does the same, with any rules about nodes and with any number of steps: it ends in the same way, with as many steps
/// left, and its results, its world and all that it told are those of the page, with the cells numbered anew.
pub fn a_page_is_the_same_anew()
    ensures page { PagesAnew }
    ensures items { PageItemsAnew }
    ensures steps { PageStepsAnew }
    ensures group { GroupItemsAnew }
{}

/// For any two lists of cells, in each of which no name stands twice, there is a numbering that gives each cell of the first list whose name both have its
/// number in the second.
pub fn the_cells_of_two_pages_join()
    ensures numbers { NumbersJoin }
    ensures deeds { DeedsJoin }
{}

/// Two pages whose deeds are the same but for the numbers of their cells, which have the same names, do the same, but for the numbers of cells.
pub fn the_order_of_cells_does_not_matter()
    ensures { PagesJoin }
{}

/// Items that a renumbering leaves as they are name no cell that it moves. So items that stay under all renumberings which leave the cells of a group where they
/// are, and the others among themselves, name cells of the group alone.
pub fn what_stays_names_no_cell_that_moves()
    ensures unmoved { StaysUnmoved }
    ensures own { NamesOwnCells }
    ensures roots { NamesOwnRoots }
{}
