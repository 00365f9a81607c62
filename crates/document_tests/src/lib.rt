//! Pages with documents, each with what it writes: what is refused, what nodes answer, what events do, and guests that try to leave their root.
#![tactic(auto)]

#[cfg(test)]
mod click_tables;
#[cfg(test)]
mod event_rows;
#[cfg(test)]
mod guest_tables;
#[cfg(test)]
mod hostile_rows;
#[cfg(test)]
mod method_rows;
#[cfg(test)]
mod node_tables;
#[cfg(test)]
mod refusal_rows;
#[cfg(test)]
mod specified_rows;
#[cfg(test)]
mod tree_tables;
