//! The test of a geometry against limits.
ghost use Rattle.std.specs.Prelude.{◌≡◌, ◌↔◌, IsTrue};
ghost use Rattle.twkb_tree.specs.Tree.{saturated, trees, nest, nest_all};
ghost use Rattle.twkb_tree.specs.Limits.{IsValid};

use crate::geometry::{Geometry, Members, Shape};
use crate::limits::Limits;

impl Members {
    // The most collections that a member at any depth is in, the collection of these members
    // included; 0 if there are no members. At most `u64::MAX`.
    #[cycle(nest)]
    fn nest(&self) -> u64
        ensures { result ≡ saturated (nest_all (trees self.now)) }
    {
        let mut deepest = 0u64;
        for member in self.as_slice() {
            deepest = deepest.max(member.nest().saturating_add(1));
        }
        deepest
    }
}

impl Geometry {
    // The most collections that a member of a collection in the geometry is in; 0 if there is no
    // such member. At most `u64::MAX`.
    #[cycle(nest)]
    fn nest(&self) -> u64
        ensures { result ≡ saturated (nest self.now) }
    {
        match self.shape() {
            Shape::Collection(members, _) => members.nest(),
            _ => 0,
        }
    }

    /// Whether the geometry keeps the limits on the nesting of its collections, its rows and its
    /// points. Takes no memory.
    #[tactic(auto, using(crate::proofs::InRange::validity))]
    pub fn within(&self, limits: &Limits) -> bool
        ensures { IsTrue result ↔ IsValid limits.now self.now }
    {
        // lets proofs know that it is a tree with its points in range
        let _learnt = self.precision();
        self.nest() <= u64::from(limits.nest())
            && self.count_nodes() <= u64::from(limits.nodes())
            && self.points() <= u64::from(limits.points())
    }
}
