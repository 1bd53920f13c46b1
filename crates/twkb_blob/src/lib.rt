//! TWKB blobs: readers that take bytes from a device, or in pieces; canonical blobs of geometries
//! and of flat forms.
#![tactic(auto)]

mod fault;
pub mod laws;
mod reader;
mod session;
mod spans;
mod stream_reader;

pub use fault::BlobFault;
pub use reader::Reader;
pub use session::Session;
pub use spans::{Located, Spans};
pub use stream_reader::{StreamReader, StreamRoom};
pub use twkb_engine::BlobReason;
pub use twkb_grammar::{Span, Style};
pub use twkb_writer::{
    EncodeFault, Sizes, encode, encode_styled, measure, measure_flat, write_flat,
};
