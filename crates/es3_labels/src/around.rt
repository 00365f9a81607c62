//! What stands around a statement, as the walk comes to it.

ghost use Rattle.std.specs.Prelude.{◌≡◌};
ghost use Rattle.es3_labels.specs.Around as targets;
ghost use Rattle.es3_tree.specs.PlacedView.{word_of};
ghost use Rattle.es3_labels.specs.Misplaced.{continues, breaks};
ghost use Rattle.es3_labels.specs.View.{around_of};

use caja_units::Units;
use es3_tree::Name;

/// What stands around a statement within its program or its function, the innermost first (ES3 12.6, 12.11, 12.12, 13).
#[derive(Clone, Copy)]
pub(crate) enum Around<'a> {
    Program,
    Function,
    Loop(&'a Around<'a>),
    Switch(&'a Around<'a>),
    /// The statement of this label; the flag says that it is a loop, behind further labels or not.
    Label(&'a Units, bool, &'a Around<'a>),
}

impl Around<'_> {
    /// Whether there is what a `continue` without a label goes on with (ES3 12.7).
    pub(crate) fn has_loop(&self) -> bool
        ensures { result ≡ targets.has_loop (around_of self.now) }
    {
        match self {
            Around::Program | Around::Function => false,
            Around::Loop(_) => true,
            Around::Switch(around) | Around::Label(_, _, around) => around.has_loop(),
        }
    }

    /// Whether there is what a `break` without a label leaves (ES3 12.8).
    pub(crate) fn has_break(&self) -> bool
        ensures { result ≡ targets.has_break (around_of self.now) }
    {
        match self {
            Around::Program | Around::Function => false,
            Around::Loop(_) | Around::Switch(_) => true,
            Around::Label(_, _, around) => around.has_break(),
        }
    }

    /// Whether there is a statement of this label, which a `break` with it leaves (ES3 12.8).
    pub(crate) fn has_label(&self, label: &Units) -> bool
        ensures { result ≡ targets.has_label (around_of self.now) label.now }
    {
        match self {
            Around::Program | Around::Function => false,
            Around::Loop(around) | Around::Switch(around) => around.has_label(label),
            Around::Label(outer, _, around) => label.same(outer) || around.has_label(label),
        }
    }

    /// Whether there is a loop of this label, which a `continue` with it goes on with (ES3 12.7).
    pub(crate) fn has_loop_label(&self, label: &Units) -> bool
        ensures { result ≡ targets.has_loop_label (around_of self.now) label.now }
    {
        match self {
            Around::Program | Around::Function => false,
            Around::Loop(around) | Around::Switch(around) => around.has_loop_label(label),
            Around::Label(outer, is_loop, around) => {
                (*is_loop && label.same(outer)) || around.has_loop_label(label)
            }
        }
    }

    /// Whether there is a function, which a `return` leaves (ES3 12.9).
    pub(crate) fn has_function(&self) -> bool
        ensures { result ≡ targets.has_function (around_of self.now) }
    {
        match self {
            Around::Program => false,
            Around::Function => true,
            Around::Loop(around) | Around::Switch(around) | Around::Label(_, _, around) => {
                around.has_function()
            }
        }
    }

    /// Whether there is what a `continue` goes on with, by its label if it has one (ES3 12.7).
    pub(crate) fn continues(&self, label: &Option<Name>) -> bool
        ensures { result ≡ continues (around_of self.now) (word_of label.now) }
    {
        match label {
            Some(label) => self.has_loop_label(&label.text),
            None => self.has_loop(),
        }
    }

    /// Whether there is what a `break` leaves, by its label if it has one (ES3 12.8).
    pub(crate) fn breaks(&self, label: &Option<Name>) -> bool
        ensures { result ≡ breaks (around_of self.now) (word_of label.now) }
    {
        match label {
            Some(label) => self.has_label(&label.text),
            None => self.has_break(),
        }
    }
}
