//! GeoJSON read: what the parts of a feature say.
#![tactic(auto)]

mod brackets;
mod coordinate;
mod decimal;
mod digits;
pub mod laws;
mod long_decimal;
mod nesting;
mod runs;
#[cfg(test)]
mod tests;

pub use coordinate::nearest_coordinate;
pub use nesting::{Nesting, Place};
