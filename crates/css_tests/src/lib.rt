//! Texts of CSS: what they are read as, what is kept of them, and how that is written.
#![tactic(auto)]

#[cfg(test)]
mod attack_tables;
#[cfg(test)]
mod cleaning_rows;
#[cfg(test)]
mod cleaning_tables;
#[cfg(test)]
mod image_tables;
#[cfg(test)]
mod neighbour_tables;
#[cfg(test)]
mod reading_rows;
#[cfg(test)]
mod reading_tables;
