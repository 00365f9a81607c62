//! Laws of what Cajita modules mean: they hold of every form, every guard and every built-in.
//!
//! A module does nothing but with what it has (reach), and a group of modules does the same whatever else there is, and changes nothing else (isolation).
//! What a module has, and what lies in it, is specs/Reach.antt; a group, its part of the world, and when two worlds are alike for it, specs/Parts.antt; what
//! is promised of a turn, specs/Turns.antt; that closures run as their makers, specs/Makers.antt. The proofs go by what may be asked of the world and not by
//! forms: one induction is for all rows (proofs/RowReach.antt, proofs/RowSame.antt), calls of closures have their own (proofs/CallReach.antt,
//! proofs/CallSame.antt), so have events (proofs/EventReach.antt, proofs/EventSame.antt), and each other question has a line or two (proofs/Reach.antt,
//! proofs/Same.antt). There is no code. The functions here have no bodies: their contracts are the laws.
#![tactic(auto)]

ghost use Rattle.cajita_laws.specs.Reach.{EachLies, EachNew, StartsReached, GrantIsHad, HaveTextMethods, from_the_start};
ghost use Rattle.cajita_laws.specs.Parts.{StartsClosed, ClosedAlike};
ghost use Rattle.cajita_laws.specs.Makers.{ClosureIsItsMakers};
ghost use Rattle.cajita_laws.specs.Turns.{LoadReaches, QuestionReaches, CallReaches, ClosureReaches, KeyReaches, TickReaches, NodeReaches, LoadIsolates, QuestionIsolates, CallIsolates, KeyIsolates, TickIsolates, NodeIsolates, LoadLeavesAlone, QuestionLeavesAlone, CallLeavesAlone, KeyLeavesAlone, TickLeavesAlone, NodeLeavesAlone};

/// A turn of a module, wherever it is cut, does nothing but with what the module has: its load, and what begins with a question or with the call of a function;
/// and what an event begins, where a key is called of what its module has, or a function that waits for the module.
pub fn a_turn_lies_in_what_its_module_has()
    ensures load { LoadReaches }
    ensures question { QuestionReaches }
    ensures call { CallReaches }
    ensures closure { ClosureReaches }
    ensures key_event { KeyReaches }
    ensures tick { TickReaches }
    ensures node { NodeReaches }
{}

/// A closure does what it does as the module that made it, whoever calls it.
pub fn a_closure_runs_as_its_maker()
    ensures { ClosureIsItsMakers }
{}

/// What is touched, what something is got out of and what is passed was had when it was.
#[tactic(auto, using(crate::proofs::Told::each_lies))]
pub fn each_item_lies_in_what_was_had_before_it()
    ensures { EachLies }
{}

/// No name is given to two objects.
pub fn each_name_is_new()
    ensures { EachNew }
{}

/// The laws of reach begin where nothing was done.
#[tactic(auto, using(crate::proofs::Turns::at_the_start))]
pub fn nothing_is_reached_at_the_start()
    ensures { StartsReached }
{}

/// They go on where something is granted, and the module then has it.
pub fn what_is_granted_is_had()
    ensures { GrantIsHad }
{}

/// Their premise can be met.
#[tactic(auto, using(crate::proofs::Everybody::everybody_has))]
pub fn everybody_can_have_the_methods_of_texts()
    ensures { HaveTextMethods from_the_start }
{}

/// A turn of a group's module does the same in two worlds that are alike for the group, and leaves the part of all others as it was.
pub fn a_turn_is_the_same_for_its_group()
    ensures load { LoadIsolates }
    ensures question { QuestionIsolates }
    ensures call { CallIsolates }
    ensures key_event { KeyIsolates }
    ensures tick { TickIsolates }
    ensures node { NodeIsolates }
{}

/// A turn of a module outside of a group leaves the group's part as it was.
pub fn a_turn_leaves_other_groups_alone()
    ensures load { LoadLeavesAlone }
    ensures question { QuestionLeavesAlone }
    ensures call { CallLeavesAlone }
    ensures key_event { KeyLeavesAlone }
    ensures tick { TickLeavesAlone }
    ensures node { NodeLeavesAlone }
{}

/// The laws of isolation begin where nothing was done.
#[tactic(auto, using(crate::proofs::Parts::closed_at_the_start))]
pub fn nothing_is_referred_to_at_the_start()
    ensures { StartsClosed }
{}

/// And they go on: a world in which a group refers to nothing of others is alike for it to each world with the same part.
#[tactic(auto, using(crate::proofs::Parts::closed_alike))]
pub fn worlds_with_the_same_part_are_alike()
    ensures { ClosedAlike }
{}
