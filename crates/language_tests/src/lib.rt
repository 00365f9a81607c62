//! Worked rows of numbers, texts, tokens, trees, programs, rules and rewriting: sources and trees, with what the standard or the rules give for them.
//! They stand in a crate of their own, so that no crate below is proved a second time for its rows.
#![tactic(auto)]

#[cfg(test)]
mod grouping_rows;
#[cfg(test)]
mod io_rows;
#[cfg(test)]
mod joined_rows;
#[cfg(test)]
mod lexer_rows;
#[cfg(test)]
mod lexer_tables;
#[cfg(test)]
mod number_rows;
#[cfg(test)]
mod phrase_rows;
#[cfg(test)]
mod rewrite_rows;
#[cfg(test)]
mod rule_rows;
#[cfg(test)]
mod rule_tables;
#[cfg(test)]
mod statement_rows;
#[cfg(test)]
mod statement_tables;
#[cfg(test)]
mod tree_rows;
#[cfg(test)]
mod unit_rows;
