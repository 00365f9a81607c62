//! Faults in turn: a manifest that ends too early, each read that fails, and each write that fails, of one page with a document, clicks and a
//! queue.
#![tactic(auto)]

#[cfg(test)]
mod fault_rows;
