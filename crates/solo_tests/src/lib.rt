//! Worked rows of modules of expressions: the cajoled text of each, its log, and how it ended.
#![tactic(auto)]

#[cfg(test)]
mod change_rows;
#[cfg(test)]
mod member_rows;
#[cfg(test)]
mod statement_rows;
#[cfg(test)]
mod value_rows;
