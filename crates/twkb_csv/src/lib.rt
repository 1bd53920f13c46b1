//! A column of a CSV, read as the table of linestrings that it names.
#![tactic(auto)]

mod column;
mod column_reader;
mod field_text;
mod found;
pub mod laws;
mod machine;
mod row_text;
mod runs;
mod scan;
mod unmarked;

pub use column::Column;
pub use column_reader::ColumnReader;
pub use unmarked::Unmarked;
