//! The resumable reader of TWKB blobs: bytes in, rows of a flat form or the first fault out, in
//! whatever pieces the bytes come.
#![tactic(auto)]

mod blob_reason;
mod body_items;
mod end;
mod engine;
mod header_items;
mod member_items;
mod next_item;
mod open_collections;
mod piece_items;
mod span_notes;
mod stop;
mod whole_items;

pub use blob_reason::BlobReason;
pub use engine::Engine;
pub use span_notes::{NoSpans, SpanNotes};
pub use stop::Stop;
