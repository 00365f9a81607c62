//! A page as its manifest tells of it: cells and modules are known by their names, and elements of its document by their ids.

ghost use Rattle.std.specs.Prelude.{◌≤◌, vec_len};

use crate::{Lang, Style};
use caja_units::Units;
use host_rules::Plain;
use url::Url;

/// What a module wants to be granted.
#[derive(Drop)]
pub enum Wish {
    Root(Units),
    Cell(Units),
    Module(Units),
    Value(Plain),
}

/// A module, with its wishes under the names by which it imports them.
#[derive(Drop)]
pub struct Told {
    pub name: Units,
    pub lang: Lang,
    pub source: Vec<u8>,
    pub wishes: Vec<(Units, Wish)>,
}

/// An event.
#[derive(Drop)]
pub enum Plan {
    /// The module, the key and the arguments.
    Call(Units, Units, Vec<Plain>),
    Click(Units),
    /// The id and the text.
    Input(Units, Units),
    Tick(Units),
}

/// A page.
#[derive(Drop)]
pub struct Manifest {
    pub html: Vec<u8>,
    pub base: Option<Url>,
    pub styles: Vec<Style>,
    pub cells: Vec<Units>,
    pub modules: Vec<Told>,
    pub events: Vec<Plan>,
    ghost few_styles: { vec_len styles ≤ 64 },
    ghost few_cells: { vec_len cells ≤ 64 },
    ghost few_modules: { vec_len modules ≤ 64 },
    ghost few_events: { vec_len events ≤ 10000 },
}
