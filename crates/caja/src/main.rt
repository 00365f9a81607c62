//! Caja's program: the words behind its name, standard input and output, a rule that lets pages name any URL by `https`, no services, and an exit status.
#![tactic(auto)]

use caja_cli::{Status, caja};
use caja_io::{StdSink, StdSource};
use caja_units::Memory;
use host_services::{Row, Services};
use std::alloc::Global;
use std::process::ExitCode;
use std::rt::Env;
use std::{env, io};
use url_rule::{UriRow, UriRule};

fn main(rt: HostRuntime) -> ExitCode {
    let status = match (words(&rt), secure(rt.alloc())) {
        (Ok(words), Ok(rule)) => {
            let mut source = StdSource::new(rt.stdin());
            let mut sink = StdSink::new(rt.stdout());
            let services = no_services(rt.alloc());
            caja(&words, &mut source, &mut sink, &rule, &services, rt.alloc())
        }
        _ => Status::Memory,
    };
    ExitCode::from(status.code())
}

/// The words behind the program's name; none where one of them isn't UTF-8, since no command has such a word.
///
/// # Errors
///
/// Want of memory.
fn words<R: Env + AllocGlobal>(rt: &R) -> io::Result<Vec<String>> {
    match env::args(rt) {
        Ok(words) => Ok(words.skip(1).collect(rt.alloc())?),
        Err(error) if error.kind() == io::ErrorKind::OutOfMemory => Err(error),
        Err(_) => Ok(Vec::new(rt.alloc())),
    }
}

/// The rule of the program: any URL by `https` may be named, for whatever it is named.
fn secure(alloc: Global) -> Result<UriRule<Vec<UriRow>>, Memory> {
    let row = UriRow {
        kind: None,
        scheme: String::from_str(alloc, "https")?,
        host: None,
        sub: false,
    };
    UriRule::of_table(alloc, vec![in alloc; row]?)
}

/// No services.
fn no_services(alloc: Global) -> Services<Vec<Row>> {
    Services::none(alloc)
}
