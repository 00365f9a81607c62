//! Documents: what is read of them, what changes and refuses to change them, how they are written, and that large ones take little time and stack.
#![tactic(auto)]

#[cfg(test)]
mod change_tables;
#[cfg(test)]
mod deed_rows;
#[cfg(test)]
mod deed_tables;
#[cfg(test)]
mod document_rows;
#[cfg(test)]
mod large_documents;
#[cfg(test)]
mod link_tables;
#[cfg(test)]
mod reading_tables;
#[cfg(test)]
mod steps;
