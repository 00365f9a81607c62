//! A step of reading a sheet: what a unit makes of what is read so far.
#![tactic(auto)]

mod important;
mod insides;
mod numbers;
mod places;
mod steps;

pub use steps::step;
