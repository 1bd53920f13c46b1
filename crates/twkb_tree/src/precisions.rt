//! The test that a geometry's members have its precision.
ghost use Rattle.std.specs.Prelude.{◌≡◌};
ghost use Rattle.twkb_tree.specs.Tree.{trees};
ghost use Rattle.twkb_tree.specs.Limits.{has_precision, have_precision, uniform};

use crate::geometry::{Geometry, Members, Shape};

impl Members {
    // Whether each of the members has this precision, and also each member, at any depth, of a
    // collection among them.
    #[cycle(uniform)]
    fn have_precision(&self, precision: i8) -> bool
        ensures { result ≡ have_precision precision (trees self.now) }
    {
        for member in self.as_slice() {
            if !member.has_precision(precision) {
                return false;
            }
        }
        true
    }
}

impl Geometry {
    // Whether the geometry, and each member of a collection in it at any depth, has this precision.
    #[cycle(uniform)]
    fn has_precision(&self, precision: i8) -> bool
        ensures { result ≡ has_precision precision self.now }
    {
        if self.precision() != precision {
            return false;
        }
        match self.shape() {
            Shape::Collection(members, _) => members.have_precision(precision),
            _ => true,
        }
    }

    /// Whether each member of a collection in the geometry, at any depth, has the precision of the
    /// geometry (profile: if not, a written blob has no box). Takes no memory.
    pub fn uniform(&self) -> bool
        ensures { result ≡ uniform self.now }
    {
        self.has_precision(self.precision())
    }
}
