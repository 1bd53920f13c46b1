//! The conversions as one list of values.
#![tactic(auto)]

mod conversion;

pub use conversion::{CONVERSIONS, Conversion, Words, convert};
