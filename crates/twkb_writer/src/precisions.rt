//! The precisions of several geometries, and whether they are equal.
ghost use Rattle.std.specs.Prelude.{◌≡◌};
ghost use Rattle.twkb_writer.specs.Sizes.{agreed, all_are};

// The precisions of some geometries, as far as a box needs them.
#[derive(Clone, Copy)]
pub(crate) enum Precisions {
    // There is no geometry.
    Absent,
    // All geometries have this one.
    One(i8),
    // At least two geometries have different precisions.
    Several,
}

impl Precisions {
    // Whether no geometry has another precision than this one; true if there is no geometry.
    pub(crate) fn all_are(self, precision: i8) -> bool
        ensures { result ≡ all_are precision self }
    {
        match self {
            Precisions::Absent => true,
            Precisions::One(other) => precision == other,
            Precisions::Several => false,
        }
    }

    // The precisions of two groups of geometries taken together.
    pub(crate) fn and(self, others: Precisions) -> Precisions
        ensures { result ≡ agreed self others }
    {
        match (self, others) {
            (Precisions::Absent, others) => others,
            (own, Precisions::Absent) => own,
            (Precisions::One(a), Precisions::One(b)) if a == b => Precisions::One(a),
            _ => Precisions::Several,
        }
    }
}
