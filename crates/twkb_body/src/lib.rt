//! What a reader of one geometry keeps and reads at once: the outline of what is open, with its
//! laws; what is complete at the start of bytes; a header, the ids of members, and rows in a flat
//! form.
#![tactic(auto)]

mod head;
mod header;
pub mod laws;
mod list_points;
mod member_ids;
mod numbers;
mod optional_parts;
mod points;
mod rows;
mod whole;

pub use head::Head;
pub use header::{FrontHeader, front_header};
pub use list_points::{Taken, take_members, take_row};
pub use member_ids::MemberIds;
pub use numbers::{FrontNumber, front_number};
pub use optional_parts::OptionalParts;
pub use points::front_point;
pub use rows::{line_row, own_row, push_point_row, push_row, put_point, ring_list_row};
pub use whole::{SIZED, Whole, whole_point};
