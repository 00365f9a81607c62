//! Pages, each with what it writes: grants, cells, events, functions that wait, touches, groups, refusals, and how pages end.
#![tactic(auto)]

#[cfg(test)]
mod call_rows;
#[cfg(test)]
mod cell_rows;
#[cfg(test)]
mod ending_rows;
#[cfg(test)]
mod grant_rows;
#[cfg(test)]
mod group_rows;
#[cfg(test)]
mod long_rows;
#[cfg(test)]
mod queue_rows;
#[cfg(test)]
mod refusal_rows;
#[cfg(test)]
mod specified_rows;
#[cfg(test)]
mod text_rows;
#[cfg(test)]
mod touch_rows;
