//! The service `rate`: 7 for 1, and null for all else.

ghost use Rattle.std.specs.Prelude.{◌≡◌, [], ◌∷◌, pos, map, IfOk, IsTrue};
ghost use Rattle.page_deeds.specs.Deeds.{number};
ghost use Rattle.host_rules.specs.Plain.{plain};
ghost use Rattle.host_services.specs.View.{rows_of};
ghost use Rattle.manifest_names.specs.Names.{is_name};
ghost use Rattle.service_tests.specs.Rates.{rates};

use caja_num::Whole;
use caja_units::{Memory, Units};
use host_rules::Plain;
use host_services::{Picks, Row, Service, Services};
use std::alloc::Global;
use std::test::Fail;

/// What picks, without a look at the rows.
#[derive(Drop)]
struct Rates;

impl Picks for Rates {
    ghost use Rattle.host_services.specs.Services.{place_of};
    ghost use Rattle.service_tests.specs.Rates.{rates};

    ghost picks = { λ _ args. place_of rates args };

    fn pick(&self, args: &[Plain]) -> usize {
        match args {
            [Plain::Num(n)] if n.get() == 1 => 0,
            _ => 1,
        }
    }
}

/// A number as a plain value; want of memory for none of those here.
fn number(value: i64) -> Result<Plain, Memory>
    ensures { IfOk result (λ p. plain p ≡ number value) }
{
    Ok(Plain::Num(Whole::new(value).ok_or(Memory)?))
}

/// The rows.
fn rate_rows(alloc: Global) -> Result<Vec<Row>, Memory>
    ensures { IfOk result (λ rows. rows_of rows.items ≡ rates) }
{
    let mut args = Vec::new(alloc);
    args.push(number(1)?)?;
    let mut rows = Vec::new(alloc);
    rows.push(Row {
        args,
        value: number(7)?,
    })?;
    Ok(rows)
}

/// The service of this name.
fn service(alloc: Global) -> Result<Service<Rates>, Memory>
    ensures { IfOk result (λ s. IsTrue (is_name s.name)) }
{
    Ok(Service::new(
        Units::from_ascii(alloc, b"rate")?,
        rate_rows(alloc)?,
        Plain::Null,
        Rates,
    ))
}

/// The services of the embedder: this one.
fn services(alloc: Global) -> Result<Services<Rates>, Memory> {
    let mut list = Vec::new(alloc);
    list.push(service(alloc)?)?;
    Ok(Services::new(list))
}

#[test]
fn a_service_answers_by_its_rows(rt: HostRuntime) -> Result<(), Fail> {
    let alloc = rt.alloc();
    let services = services(alloc)?;
    let rate = Units::from_ascii(alloc, b"rate")?;
    let one = [number(1)?];
    let two = [number(2)?];
    assert!(rt; matches!(services.answer(&rate, &one), Some(Plain::Num(n)) if n.get() == 7));
    assert!(rt; matches!(services.answer(&rate, &two), Some(Plain::Null)));
    assert!(rt;
        services
            .answer(&Units::from_ascii(alloc, b"x")?, &one)
            .is_none()
    );
    Ok(())
}
