//! Encoded polylines: lists of points as text, and back.
#![tactic(auto)]

mod decoded_points;
mod encoded_text;
mod fault;
pub mod laws;
mod piece;
mod spelled_numbers;
mod whole;

pub use decoded_points::{count_points, decode, decode_into, decode_one};
pub use encoded_text::{encode, encode_into, encode_point};
pub use fault::{PolyFault, PolyReason};
