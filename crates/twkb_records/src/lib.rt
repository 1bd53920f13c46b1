//! The records of a CSV, one after another, their text with one field replaced, and the blob of a
//! polyline.
#![tactic(auto)]

mod found;
mod line;
mod records;
mod row_text;
mod words;

pub use found::{Found, find};
pub use line::{LineFault, LineRoom, pack_line};
pub use records::{NotRead, new_reader, read_next};
pub use row_text::{append_row, field_at};
pub use words::{is_among, is_missing};
