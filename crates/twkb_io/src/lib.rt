//! Devices that count their failures, readers and writers over them, and sinks for bytes.
#![tactic(auto)]

mod bytes;
mod count;
mod ending;
mod fuse;
mod input;
mod output;
mod sink;
mod tap;

pub use bytes::Bytes;
pub use count::{Count, CountFull};
pub use ending::Ending;
pub use fuse::{Fuse, FuseEnd};
pub use input::{InFault, Input};
pub use output::{OutFault, Output};
pub use sink::Sink;
pub use tap::Tap;

/// The most bytes that an input gives out, a count counts or an output sends: 2^62.
pub const MAX_BYTES: u64 = 1 << 62;
