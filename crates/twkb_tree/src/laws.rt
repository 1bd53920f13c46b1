//! Laws of the rows of geometries, each stated as the contract of an empty function. What a clause
//! calls valid, accepted or refused is so under the same limits, whatever they are.
ghost use Rattle.std.specs.Prelude.{◌≡◌, ◌↔◌, ◌<◌, ◌≤◌, ◌+◌, ◌++◌, ◌∷◌, [], List, length, reverse, true, None};
ghost use Rattle.twkb_tree.specs.declared.open_rows.OpenRow.{OpenRow};
ghost use Rattle.twkb_tree.specs.Limits.{Allowance, IsValid};
ghost use Rattle.twkb_tree.specs.Tree.{Tree, IsTree, nodes, flat};
ghost use Rattle.twkb_tree.specs.Rows.{Row, rows, rows_of, row_points, AreGeometries, AreValid, AreRows};
ghost use Rattle.twkb_tree.specs.Rows.{AreRowsOfOne, AreValidRows, AreValidRowsOfOne, BeginValidRows, IsAtRoot};
ghost use Rattle.twkb_tree.specs.Rows.{AreShallow};
ghost use Rattle.twkb_tree.specs.Admits.{admits, steps_to, Accepts, AreAccepted, Continues, IsOneRoot, since_root};
ghost use Rattle.twkb_tree.specs.Admits.{geometry_rows, point_count};
ghost use Rattle.twkb_tree.specs.Refusal.{refusal, refusal_after, accepts, continues};
ghost use Rattle.twkb_tree.specs.Open.{AreOpen, opened, open_refusal, open_continues};
ghost use Rattle.twkb_tree.specs.RowSamples.{MemberRows, PolygonRows, TwoRings, PointsWithIds};
ghost use Rattle.twkb_tree.specs.RowSamples.{MembersWithIds, TwoPrecisions, EmptyLine};
ghost use Rattle.twkb_tree.specs.RowSamples.{PolygonsWithIds, TwoRoots, IdsOnSome, NoLevel};
ghost use Rattle.twkb_tree.specs.RowSamples.{NineLevels, TwoNodes, OnePoint, Precisions, FirstRows};
ghost use Rattle.twkb_tree.specs.RowSamples.{PrecisionRange, CoordinateRanges, IdRange, SecondRoot};

// ---- rows and geometries

/// A geometry has as many rows as nodes, and its points are those of its rows, in order.
pub fn nodes_are_rows()
    ensures nodes { (g : Tree) → length (rows 0 g) ≡ nodes g }
    ensures points { (g : Tree) → row_points (rows 0 g) ≡ flat g }
{}

/// The rows of a list of geometries determine the list, and those of one geometry determine it.
pub fn one_reading()
    ensures list { (gs hs : List Tree) → AreGeometries gs → AreGeometries hs → rows_of gs ≡ rows_of hs → gs ≡ hs }
    ensures one { (g h : Tree) → IsTree g → IsTree h → rows 0 g ≡ rows 0 h → g ≡ h }
{}

/// A geometry's rows continue below its root: if the rows of one geometry begin with all rows of
/// another, the next row is no root. If the rows of a list of geometries begin with all rows of a
/// geometry, and the next row is a root, or there is none, the list begins with that geometry, and
/// the other rows are those of the rest of the list.
pub fn ends()
    ensures below { (g h : Tree) (r : Row) (more : List Row) → IsTree g → IsTree h
        → rows 0 g ++ r ∷ more ≡ rows 0 h → 0 < r.depth }
    ensures whole { (g : Tree) (more : List Row) (hs : List Tree) → IsTree g → AreGeometries hs
        → IsAtRoot more → rows 0 g ++ more ≡ rows_of hs → (rest : List Tree) × (hs ≡ g ∷ rest)
        × (rows_of rest ≡ more) }
{}

/// Each prefix of rows of geometries is rows of geometries. The same is true of valid geometries,
/// and of one valid geometry if the prefix has a row.
pub fn fronts()
    ensures geometries { (front more : List Row) → AreRows (front ++ more) → AreRows front }
    ensures valid { (l : Allowance) (front more : List Row) → AreValidRows l (front ++ more) → AreValidRows l front }
    ensures one { (l : Allowance) (front more : List Row) → AreValidRowsOfOne l (front ++ more)
        → AreValidRowsOfOne l front }
{}

/// No row of valid geometries is deeper than the levels of collections in the limits, plus two.
pub fn depths()
    ensures { (l : Allowance) (rs : List Row) → AreValidRows l rs → AreShallow (l.nest + 2) rs }
{}

// ---- when a row may come next

/// By the rules of a table, except its limits and the range of coordinates, a row may come after
/// rows of geometries exactly if the rows with it are rows of geometries. After rows of one
/// geometry, or none, it may come and is no second root exactly if the rows with it are rows of one
/// geometry.
pub fn admitted()
    ensures list { (rs : List Row) (r : Row) → AreRows rs → (admits rs r ≡ true) ↔ AreRows (rs ++ r ∷ []) }
    ensures one { (rs : List Row) (r : Row) → AreRowsOfOne rs
        → ((admits rs r ≡ true) × IsOneRoot rs r) ↔ AreRowsOfOne (rs ++ r ∷ []) }
{}

/// Rows are accepted one by one exactly if they are rows of valid geometries. After rows of valid
/// geometries one more is accepted exactly if the rows with it are rows of valid geometries, and
/// exactly if rows of valid geometries begin with those rows and that one. After any rows, the test
/// `accepts` holds exactly if the next row is accepted.
pub fn accepted()
    ensures one_by_one { (l : Allowance) (rs : List Row) → AreAccepted l (reverse rs) ↔ AreValidRows l rs }
    ensures next { (l : Allowance) (rs : List Row) (r : Row) → AreValidRows l rs
        → Accepts l (reverse rs) r ↔ AreValidRows l (rs ++ r ∷ []) }
    ensures begins { (l : Allowance) (rs : List Row) (r : Row) → AreValidRows l rs
        → Accepts l (reverse rs) r ↔ BeginValidRows l (rs ++ r ∷ []) }
    ensures test { (l : Allowance) (rs : List Row) (r : Row) → (accepts l rs r ≡ true) ↔ Accepts l (reverse rs) r }
{}

/// After rows of one valid geometry, or after none, a row continues them exactly if the rows with
/// it are rows of one valid geometry. After any rows, the test `continues` holds exactly if the
/// next row continues them. After rows of one geometry, or none, the rows so far of the geometry
/// that a row belongs to are all rows so far, if the row is a root exactly when it is the first.
pub fn continued()
    ensures next { (l : Allowance) (rs : List Row) (r : Row) → AreValidRowsOfOne l rs
        → Continues l rs r ↔ AreValidRowsOfOne l (rs ++ r ∷ []) }
    ensures test { (l : Allowance) (rs : List Row) (r : Row) → (continues l rs r ≡ true) ↔ Continues l rs r }
    ensures counted { (rs : List Row) (r : Row) → AreRowsOfOne rs → IsOneRoot rs r
        → geometry_rows r.depth (reverse rs) ≡ reverse rs }
{}

/// An accepted root begins a new geometry, which is valid with this row alone. After rows of valid
/// geometries, any other accepted row is one more row of the last geometry, which is valid with it.
pub fn grows()
    ensures root { (l : Allowance) (gs : List Tree) (r : Row) → Accepts l (reverse (rows_of gs)) r
        → r.depth ≡ 0 → (h : Tree) × IsValid l h × (rows 0 h ≡ r ∷ []) }
    ensures below { (l : Allowance) (gs : List Tree) (g : Tree) (r : Row)
        → AreValid l (gs ++ g ∷ []) → Accepts l (reverse (rows_of (gs ++ g ∷ []))) r → 0 < r.depth
        → (h : Tree) × IsValid l h × (rows 0 h ≡ rows 0 g ++ r ∷ []) }
{}

/// A row is judged by the rows of the last geometry alone, and a root by no row at all.
pub fn last_geometry()
    ensures local { (l : Allowance) (earlier : List Row) (s : Row) (rs : List Row) (r : Row)
        → AreRowsOfOne (s ∷ rs) → refusal l (earlier ++ s ∷ rs) r ≡ refusal l (s ∷ rs) r }
    ensures root { (l : Allowance) (rs : List Row) (r : Row) → r.depth ≡ 0 → refusal l rs r ≡ refusal l [] r }
{}

/// A row has a reason to be refused exactly if it is not accepted. No rows of valid geometries
/// begin with some rows and a row that is refused after them.
pub fn refused()
    ensures reasons { (l : Allowance) (rs : List Row) (r : Row) → (refusal l rs r ≡ None) ↔ Accepts l (reverse rs) r }
    ensures dead { (l : Allowance) (rs : List Row) (r : Row) (more : List Row)
        → (¬ Accepts l (reverse rs) r) → ¬ AreValidRows l (rs ++ r ∷ more) }
{}

/// Before any row no row is open, and a row that skips no depth changes the open rows as `opened`
/// states. A row and its points are added to the numbers of rows and points from the last root on,
/// which begin at 0 for a root; after accepted rows both numbers are within the limits. The open
/// rows and these two numbers decide why a row is refused and, after rows of one geometry or none,
/// whether it continues them.
pub fn open_rows()
    ensures none { AreOpen [] [] }
    ensures more { (before : List Row) (os : List OpenRow) (r : Row)
        → steps_to r.depth before ≡ true → AreOpen before os
        → AreOpen (r ∷ before) (opened r.depth os r) }
    ensures nodes { (before : List Row) (r : Row)
        → length (since_root (r ∷ before)) ≡ length (geometry_rows r.depth before) + 1 }
    ensures points { (before : List Row) (r : Row)
        → point_count (since_root (r ∷ before)) ≡ point_count (geometry_rows r.depth before)
        + length r.points }
    ensures kept { (l : Allowance) (before : List Row) → AreAccepted l before
        → (length (since_root before) ≤ l.nodes) × (point_count (since_root before) ≤ l.points) }
    ensures decide { (l : Allowance) (before : List Row) (os : List OpenRow) (r : Row)
        → AreOpen before os → open_refusal l os (length (since_root before))
        (point_count (since_root before)) r ≡ refusal_after l before r }
    ensures decide_one { (l : Allowance) (rs : List Row) (os : List OpenRow) (r : Row)
        → AreRowsOfOne rs → AreOpen (reverse rs) os → open_continues l os (length rs)
        (point_count rs) r ≡ continues l rs r }
{}

// ---- worked tables

/// Checks by computation that a collection and a multipolygon, both with ids, have the rows of two
/// worked tables.
pub fn table_rows()
    ensures members { MemberRows }
    ensures polygons { PolygonRows }
{}

/// Checks by computation that all rows of seven worked tables are accepted.
pub fn accepted_tables()
    ensures two_rings { TwoRings }
    ensures points_with_ids { PointsWithIds }
    ensures members_with_ids { MembersWithIds }
    ensures two_precisions { TwoPrecisions }
    ensures empty_line { EmptyLine }
    ensures polygons_with_ids { PolygonsWithIds }
    ensures two_roots { TwoRoots }
{}

/// Checks by computation that rows of worked tables are refused, each at its place and for its
/// reason; and that nine nested collections are accepted at eight levels, and a member of the
/// innermost at sixteen.
pub fn refused_tables()
    ensures ids_on_some { IdsOnSome }
    ensures no_level { NoLevel }
    ensures nine_levels { NineLevels }
    ensures two_nodes { TwoNodes }
    ensures one_point { OnePoint }
    ensures precisions { Precisions }
    ensures first_rows { FirstRows }
{}

/// Checks by computation that precisions, coordinates and ids at the ends of their ranges are
/// accepted, and those just outside are refused; and that a second root may come next in a table,
/// but is no row of the first geometry.
pub fn ranges_of_rows()
    ensures precisions { PrecisionRange }
    ensures coordinates { CoordinateRanges }
    ensures ids { IdRange }
    ensures second_root { SecondRoot }
{}
