//! Why a reader stops.
use crate::blob_reason::BlobReason;

/// Why an item was not taken.
pub type Stop = twkb_flat::Stop<BlobReason>;
