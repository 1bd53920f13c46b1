//! Laws of the flat form, each stated as the contract of an empty function.
ghost use Rattle.std.specs.Prelude.{◌≡◌, ℕ, ◌≤◌, ◌++◌, ◌∷◌, List, length};
ghost use Rattle.twkb_tree.specs.declared.limits.TheConstants.{NODES_CAP, POINTS_CAP};
ghost use Rattle.twkb_tree.specs.Limits.{largest_limits, IsValid};
ghost use Rattle.twkb_tree.specs.Tree.{Tree};
ghost use Rattle.twkb_tree.specs.Rows.{Row as TableRow, rows, row_points, AreValidRowsOfOne};
ghost use Rattle.twkb_tree.specs.Admits.{Continues};
ghost use Rattle.twkb_flat.specs.declared.node.Node.{Node};
ghost use Rattle.twkb_flat.specs.Rows.{IsNode};

/// The rows of a flat form are at most 2^20, and their points at most 2^24, so that the places of
/// both fit `u32`.
pub fn caps()
    ensures nodes { (rs : List TableRow) → AreValidRowsOfOne largest_limits rs → length rs ≤ NODES_CAP }
    ensures points { (rs : List TableRow) → AreValidRowsOfOne largest_limits rs → length (row_points rs) ≤ POINTS_CAP }
{}

/// Each row of a geometry within `Limits::largest()` may be pushed after those before it, so a flat
/// form can be filled row by row.
pub fn every_geometry()
    ensures { (g : Tree) (front : List TableRow) (r : TableRow) (more : List TableRow)
        → IsValid largest_limits g → rows 0 g ≡ front ++ r ∷ more
        → Continues largest_limits front r }
{}

/// The rows of a flat form and a place determine the node at that place.
pub fn one_node()
    ensures { (rs : List TableRow) (i : ℕ) (m n : Node) → IsNode rs i m → IsNode rs i n → m ≡ n }
{}
