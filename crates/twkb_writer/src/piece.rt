//! The piece in which the bytes of a blob are gathered.

/// Gathers the bytes of blobs on their way to a sink, up to 4096 at once. A contract sees the
/// bytes that it holds.
pub type Piece = twkb_num::Piece<4096>;
