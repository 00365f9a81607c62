//! Texts of HTML: what they are read as, what is kept of them, and how that is written.
#![tactic(auto)]

#[cfg(test)]
mod attack_tables;
#[cfg(test)]
mod cleaning;
#[cfg(test)]
mod cleaning_rows;
#[cfg(test)]
mod cleaning_tables;
#[cfg(test)]
mod large_rows;
#[cfg(test)]
mod link_rows;
#[cfg(test)]
mod link_tables;
#[cfg(test)]
mod page_tables;
#[cfg(test)]
mod reading_rows;
#[cfg(test)]
mod reading_tables;
