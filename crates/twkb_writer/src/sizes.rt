//! The sizes of a flat form.
ghost use Rattle.std.specs.Prelude.{◌≡◌, [], length};

use std::alloc::Global;
use std::marker::Model;
use twkb_points::Bounds;

// The numbers of a TWKB geometry that are needed before its header can be written.
#[derive(Clone, Copy)]
pub(crate) struct Entry {
    // The number of bytes of its box and body: all that comes after the size, if there is a size.
    pub(crate) size: u64,
    // The bounds of all its points, if it has a box.
    pub(crate) bounds: Option<Bounds>,
    // The number of its members or rings.
    pub(crate) members: u32,
    // Whether its members have ids.
    pub(crate) named: bool,
}

/// The sizes of a flat form in a style: one entry for each TWKB geometry, in preorder. A contract
/// sees the list of these entries.
#[derive(Drop)]
pub struct Sizes {
    pub(crate) entries: Vec<Entry>,
}

impl Model for Sizes {
    ghost use Rattle.std.specs.Prelude.{List};
    ghost use Rattle.twkb_writer.specs.declared.sizes.Entry.{Entry};

    ghost Value = { List Entry };

    ghost view = { λ s. s.entries.items };
}

impl Sizes {
    /// Makes sizes without entries. Takes no memory.
    pub fn new(alloc: Global) -> Sizes
        ensures { result ≡ [] }
    {
        Sizes {
            entries: Vec::new(alloc),
        }
    }

    /// The number of entries: one for each TWKB geometry of the form that was measured last, and 0
    /// if none was. It means nothing if that call returned an `Err`. Takes no memory.
    pub fn len(&self) -> usize
        ensures { result ≡ length self.now }
    {
        self.entries.len()
    }
}
