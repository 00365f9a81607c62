//! A portal that embeds Caja: its own rule for URLs, and the pages that it runs by it.
#![tactic(auto)]

#[cfg(test)]
mod guest_pages;
#[cfg(test)]
mod rule;
