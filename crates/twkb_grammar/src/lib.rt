//! The grammar of TWKB blobs: definitions, laws and samples; and the type byte and the metadata
//! byte, each made and read in one place.
#![tactic(auto)]

pub mod laws;
mod metadata;
pub mod samples;
mod span;
mod style;
mod type_byte;

pub use metadata::{Metadata, MetadataFlags};
pub use span::Span;
pub use style::Style;
pub use type_byte::TypeByte;
