//! Pages with bases and sheets, each with what it writes: what is kept of sheets, which URLs stay, what is refused, and guests who try to write what isn't theirs.
#![tactic(auto)]

#[cfg(test)]
mod guest_tables;
#[cfg(test)]
mod sheet_tables;
