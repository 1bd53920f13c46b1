//! Limits on the size of a geometry.
ghost use Rattle.std.specs.Prelude.{◌≡◌, ◌↔◌, IsSome, IfSome};
ghost use Rattle.twkb_tree.specs.Limits.{IsAllowance, standard_limits, largest_limits};

use std::marker::Model;

/// Limits on one geometry with its members: the levels of collections, the rows and the points
/// (profile).
#[derive(Clone, Copy, Debug, PartialEq, Eq)]
pub struct Limits {
    nest: u32,
    nodes: u32,
    points: u32,
}

impl Model for Limits {
    ghost use Rattle.twkb_tree.specs.Limits.{Allowance, IsAllowance};

    ghost Value = { Allowance };

    ghost view = { λ a. record { nest = a.nest; nodes = a.nodes; points = a.points } };

    ghost invariant = { λ a. IsAllowance (record { nest = a.nest; nodes = a.nodes; points = a.points }) };

    ghost inverse = { λ l. record { nest = l.nest; nodes = l.nodes; points = l.points } };
}

/// The levels of collections in the standard limits (profile).
pub const NEST_STANDARD: u32 = 16;

/// The most levels of collections that limits allow (profile).
pub const NEST_CAP: u32 = 32;

/// The most rows of a geometry that limits allow (profile).
pub const NODES_CAP: u32 = 1 << 20;

/// The most points of a geometry that limits allow (profile).
pub const POINTS_CAP: u32 = 1 << 24;

impl Limits {
    /// Makes limits of `nest` levels of collections, 0 to 32, `nodes` rows, 1 to 2^20, and `points`
    /// points, 0 to 2^24; `None` if one is out of its range. Takes no memory.
    pub fn try_new(nest: u32, nodes: u32, points: u32) -> Option<Limits>
        ensures accepted { IsSome result ↔ IsAllowance (record { nest = nest; nodes = nodes; points = points }) }
        ensures value { IfSome result (λ l. l ≡ record { nest = nest; nodes = nodes; points = points }) }
    {
        if nest > NEST_CAP || nodes == 0 || nodes > NODES_CAP || points > POINTS_CAP {
            return None;
        }
        Some(Limits {
            nest,
            nodes,
            points,
        })
    }

    /// The standard limits: sixteen levels of collections, 2^20 rows and 2^24 points. Takes no
    /// memory.
    pub fn standard() -> Limits
        ensures { result ≡ standard_limits }
    {
        Limits {
            nest: NEST_STANDARD,
            nodes: NODES_CAP,
            points: POINTS_CAP,
        }
    }

    /// The largest limits: 32 levels of collections, 2^20 rows and 2^24 points. Takes no memory.
    pub fn largest() -> Limits
        ensures { result ≡ largest_limits }
    {
        Limits {
            nest: NEST_CAP,
            nodes: NODES_CAP,
            points: POINTS_CAP,
        }
    }

    /// The most collections that a member may be in, 0 to 32: a collection inside that many cannot
    /// have members. Takes no memory.
    pub fn nest(&self) -> u32
        ensures value { result ≡ self.now.nest }
        ensures sound { IsAllowance self.now }
    {
        self.nest
    }

    /// The most rows that a geometry may have, its own row included: 1 to 2^20. Takes no memory.
    pub fn nodes(&self) -> u32
        ensures { result ≡ self.now.nodes }
    {
        self.nodes
    }

    /// The most points that a geometry may have, its members' points included: 0 to 2^24. Takes no
    /// memory.
    pub fn points(&self) -> u32
        ensures { result ≡ self.now.points }
    {
        self.points
    }
}
