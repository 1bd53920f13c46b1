//! Lists of points, lines, polygons and ids. A contract sees each as the list of its elements.
ghost use Rattle.std.specs.Prelude.{◌≡◌, ◌↔◌, IsTrue, IfOk};
ghost use Rattle.std.specs.List.{AllByRecursion};
ghost use Rattle.twkb_points.specs.Point.{IsInRange};
ghost use Rattle.twkb_tree.specs.Tree.{IsId};

use std::alloc::{AllocError, Global};
use std::marker::Model;
use twkb_points::Pt;

/// The argument of `look`. It is not exported, so no other crate can add types of elements.
#[derive(Clone, Copy)]
pub struct Look;

/// What a list may hold: a point, an id, or another list, and nothing else.
pub trait Element: Drop {
    // The fact that is known of each element.
    ghost Fits: { Self → Type 0 };

    /// Lets a proof know that the element fits. Does nothing at run time.
    fn look(&self, look: Look)
        ensures { Fits self.now };

    /// Whether the two elements are equal. Takes no memory.
    fn same(&self, other: &Self) -> bool
        ensures { IsTrue result ↔ (self.now ≡ other.now) };

    /// Makes an element equal to this one. A list takes memory for its elements; an `Err` says that
    /// memory was refused.
    fn copy(&self, alloc: Global) -> Result<Self, AllocError>
        ensures { IfOk result (λ copy. copy ≡ self.now) };
}

impl Element for Pt {
    ghost Fits = { IsInRange };

    fn look(&self, _look: Look) {
        // lets proofs know that the point is in range
        let _learnt = self.x();
    }

    fn same(&self, other: &Pt) -> bool {
        self == other
    }

    fn copy(&self, _alloc: Global) -> Result<Pt, AllocError> {
        Ok(*self)
    }
}

impl Element for i64 {
    ghost Fits = { IsId };

    fn look(&self, _look: Look) {
        // lets proofs know that the id is in range, by its type
        let _learnt = *self;
    }

    fn same(&self, other: &i64) -> bool {
        self == other
    }

    fn copy(&self, _alloc: Global) -> Result<i64, AllocError> {
        Ok(*self)
    }
}

/// Elements in their order, possibly none.
#[derive(Debug, Drop)]
pub struct Elements<T: Element> {
    items: Vec<T>,
}

impl<T: Element> Model for Elements<T> {
    ghost use Rattle.std.specs.Prelude.{List};
    ghost use Rattle.std.specs.List.{AllByRecursion};

    ghost Value = { List T };

    ghost view = { λ a. a.items.items };

    ghost invariant = { λ a. AllByRecursion T.Fits a.items.items };
}

impl<T: Element> Elements<T> {
    /// Makes a list of the elements of a vector, in their order. Takes no memory.
    pub fn from_vec(items: Vec<T>) -> Elements<T>
        ensures { result ≡ items.items }
    {
        for item in &items {
            // lets proofs know that the element fits
            let _learnt = item.look(Look);
        }
        Elements { items }
    }

    /// The elements as a vector. Takes no memory.
    pub fn into_vec(self) -> Vec<T>
        ensures { result.items ≡ self }
    {
        self.items
    }

    /// The elements as a slice. Takes no memory.
    pub fn as_slice(&self) -> &[T]
        ensures items { result.now ≡ self.now }
        ensures fit { AllByRecursion T.Fits self.now }
    {
        self.items.as_slice()
    }
}

impl<T: Element> Element for Elements<T> {
    ghost Fits = { AllByRecursion T.Fits };

    fn look(&self, _look: Look) {
        // lets proofs know that each of its elements fits
        let _learnt = self.as_slice();
    }

    fn same(&self, other: &Elements<T>) -> bool {
        let items = self.as_slice();
        let others = other.as_slice();
        if items.len() != others.len() {
            return false;
        }
        for index in 0..items.len() {
            if !items[index].same(&others[index]) {
                return false;
            }
        }
        true
    }

    fn copy(&self, alloc: Global) -> Result<Elements<T>, AllocError> {
        let own = self.as_slice();
        let mut items = Vec::with_capacity(alloc, own.len())?;
        for item in own {
            items.push_reserved(item.copy(alloc)?);
        }
        Ok(Elements { items })
    }
}

/// The points of a line or ring, or of a multipoint.
pub type Pts = Elements<Pt>;

/// Lines, or the rings of a polygon.
pub type Lines = Elements<Pts>;

/// Polygons, each a list of its rings.
pub type Areas = Elements<Lines>;

/// The ids of members, in the order of the members.
pub type IdList = Elements<i64>;

/// The ids of members, if they have any.
pub type Ids = Option<IdList>;
