//! A column of a CSV with TWKB as hexadecimal digits in place of polylines, and back.
#![tactic(auto)]

mod causes;
mod digits;
mod found;
mod header;
mod last_flush;
pub mod laws;
mod packed_field;
mod packed_records;
mod packing;
mod records;
mod report;
mod row_text;
mod unpacked_field;
mod unpacked_records;

pub use packed_records::pack_hex;
pub use packing::{Packing, Unpacking};
pub use report::{HexCause, HexFault, HexReason, HexReport};
pub use unpacked_records::unpack_hex;
