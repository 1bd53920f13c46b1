//! Tables of geometries as CSV text: their fields and rows, read and written, and the laws of both.
#![tactic(auto)]

mod decimal;
mod fields;
mod first_row;
mod flat_text;
mod geometry_text;
mod head;
mod header;
mod kind_word;
pub mod laws;
mod numbered_records;
mod open_rows;
mod places;
mod point_roots;
mod reason;
mod record_verdict;
mod record_writer;
mod row_line;
mod row_reader;
mod table_fault;
mod table_reader;

pub use decimal::{
    parse_depth, parse_id, parse_optional_id, parse_optional_precision, parse_precision,
    push_decimal,
};
pub use flat_text::put_flat_rows;
pub use geometry_text::{put_rows, rows_text};
pub use header::header_text;
pub use kind_word::{parse_kind, push_kind};
pub use numbered_records::RECORD_CAP;
pub use places::reason_of;
pub use reason::RowReason;
pub use record_verdict::judge;
pub use table_fault::TableFault;
pub use table_reader::TableReader;
