//! Services, and what they answer.

ghost use Rattle.std.specs.Prelude.{◌≡◌, ◌≤◌, ℕ, List, [], All, IsTrue, map, option_map};
ghost use Rattle.std.specs.List.{IsDistinct};
ghost use Rattle.std.proofs.Props.{props};
ghost use Rattle.caja_units.specs.Units.{same_units};
ghost use Rattle.page_deeds.specs.Deeds.{Plain as PlainValue};
ghost use Rattle.host_rules.specs.Plain.{plain};
ghost use Rattle.manifest_names.specs.Names.{is_name};
ghost use Rattle.host_services.specs.Services as s;
ghost use Rattle.host_services.specs.Services.{place_of, value_of};
ghost use Rattle.host_services.specs.View.{rows_of};

use crate::picks::Picks;
use caja_units::Units;
use host_rules::Plain;
use std::alloc::Global;

/// A row of a service: arguments, and what is answered for them.
#[derive(Debug, Drop)]
pub struct Row {
    pub args: Vec<Plain>,
    pub value: Plain,
}

/// A service: its name, its rows, what it answers where no row has the arguments, and what the embedder picks rows by. It keeps that this may be asked with any
/// arguments and gives the place of the first row that has them, or the number of the rows.
#[derive(Drop)]
pub struct Service<P: Picks> {
    pub name: Units,
    pub rows: Vec<Row>,
    pub other: Plain,
    pub by: P,
    ghost answers: { (args : List PlainValue) → P.picks by args ≡ place_of (rows_of rows.items) args },
}

impl<P: Picks> Service<P> {
    /// The service of rows that `by` picks from.
    pub fn new(name: Units, rows: Vec<Row>, other: Plain, by: P) -> Service<P>
        requires { (args : List PlainValue) → P.picks by args ≡ place_of (rows_of rows.items) args }
        ensures name { result.name ≡ name }
        ensures rows { rows_of result.rows.items ≡ rows_of rows.items }
        ensures other { plain result.other ≡ plain other }
    {
        Service {
            name,
            rows,
            other,
            by,
        }
    }

    /// What it answers.
    fn value(&self, args: &[Plain]) -> &Plain
        ensures { plain result.now ≡ value_of (rows_of self.now.rows.items) (plain self.now.other) (map plain args.now) }
    {
        match self.rows.get(self.by.pick(args)) {
            Some(row) => &row.value,
            None => &self.other,
        }
    }
}

/// The services of an embedder, each of a name that a cell could have, and no two of one name.
#[derive(Drop)]
pub struct Services<P: Picks> {
    pub list: Vec<Service<P>>,
    ghost named: { All (λ v. IsTrue (is_name v.name)) list.items },
    ghost once: { IsDistinct same_units (map (λ v. v.name) list.items) } by { Prim.hlevel props },
}

impl<P: Picks> Services<P> {
    /// These services.
    pub fn new(list: Vec<Service<P>>) -> Services<P>
        requires named { All (λ v. IsTrue (is_name v.name)) list.items }
        requires once { IsDistinct same_units (map (λ v. v.name) list.items) }
        ensures { result.list ≡ list }
    {
        Services { list }
    }

    /// No services.
    pub fn none(alloc: Global) -> Services<P>
        ensures { result.list.items ≡ [] }
    {
        Services::new(Vec::new(alloc))
    }

    /// What the service of this name answers for these arguments, and None exactly where there is no such service.
    pub fn answer(&self, name: &Units, args: &[Plain]) -> Option<&Plain>
        ensures { option_map (λ v. plain v.now) result
            ≡ s.answer (map (λ v. record { name = v.name; rows = rows_of v.rows.items; other = plain v.other }) self.now.list.items) name.now (map plain args.now) }
    {
        for service in &self.list {
            if name.same(&service.name) {
                return Some(service.value(args));
            }
        }
        None
    }
}
