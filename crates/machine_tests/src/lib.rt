//! Worked rows of objects, conversions, guards, the machine and the loader, with what the standard or the rules give for them.
//! They stand in a crate of their own, so that no crate below is proved a second time for its rows.
#![tactic(auto)]

#[cfg(test)]
mod answers;
#[cfg(test)]
mod control_rows;
#[cfg(test)]
mod convert_rows;
#[cfg(test)]
mod documents;
#[cfg(test)]
mod guard_rows;
#[cfg(test)]
mod loader_rows;
#[cfg(test)]
mod machine_rows;
#[cfg(test)]
mod object_rows;
#[cfg(test)]
mod runner_rows;
#[cfg(test)]
mod samples;
#[cfg(test)]
mod sources;
