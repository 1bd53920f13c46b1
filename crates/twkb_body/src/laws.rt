//! Laws of outlines, each stated as the contract of an empty function.
ghost use Rattle.std.specs.Prelude.{◌≡◌, ◌≢◌, ◌≤◌, ℕ, List, [], ◌∷◌, ◌++◌, length, Some, None, Ok};
ghost use Rattle.twkb_points.specs.Point.{Point};
ghost use Rattle.twkb_tree.specs.Rows.{Row, rows, AreValidRowsOfOne};
ghost use Rattle.twkb_tree.specs.Tree.{Tree};
ghost use Rattle.twkb_tree.specs.Limits.{Allowance, IsAllowance, largest_limits};
ghost use Rattle.twkb_tree.specs.Admits.{Continues};
ghost use Rattle.twkb_grammar.specs.Roles.{Role, HasBytes, Item};
ghost use Rattle.twkb_grammar.specs.Items.{Blob};
ghost use Rattle.twkb_grammar.specs.Fault.{Reason, Truncated, BadVarint, FirstFault, IsPart, IsCut, IsTooLong};
ghost use Rattle.twkb_grammar.specs.Machine.{Sums, nothing, Stack, Finished, role_at, advanced};
ghost use Rattle.twkb_grammar.specs.Reading.{Reached, FaultAt, AtNumber, ends, frame_count};
ghost use Rattle.twkb_grammar.specs.Noting.{Notes, note_byte, IsCalm};
ghost use Rattle.twkb_body.specs.Reading.{note_stage, IsCalmStage, NotedOutline, Outlined, OutlinedBehind, Wants};
ghost use Rattle.twkb_body.specs.Reading.{WithItem, OutlineLanded, StageFits, open_count, AtPoint, change_after};
ghost use Rattle.twkb_body.specs.Outline.{Outline, OnHeader, stage_of, OnFinished, outline_of, outline_role};
ghost use Rattle.twkb_body.specs.Outline.{outline_advanced, outline_in, outline_ends};
ghost use Rattle.twkb_body.specs.Growing.{rows_so_far, change_of, applied, Takes, Admits};

/// The outline and the sums of the items so far determine the role of the next item.
pub fn role()
    ensures { (e : Sums) (st : Stack) → role_at e st ≡ outline_role e (outline_of st) }
{}

/// The outline before an item, the number of bytes up to the item's end and its number determine
/// the outline after it (`item`). The outline before the ends of geometries and the number of bytes
/// determine the one after them, or that a size is not exact (`ends`).
pub fn steps()
    ensures item { (p : Point) (bytes n : ℕ) (st : Stack)
        → outline_of (advanced p bytes n st.0 st.1) ≡ outline_advanced bytes n (outline_of st) }
    ensures ends { (bytes : ℕ) (st : Stack) → outline_in (ends bytes st.0 st.1) ≡ outline_ends bytes (outline_of st) }
{}

/// The rows after an item are those before it with at most one change, which the outline before the
/// item, its number and the position that it leads to determine. The ends of geometries change no
/// row, and at the end of the blob the rows are those of the geometry.
pub fn grows()
    ensures item { (p : Point) (bytes n : ℕ) (st : Stack)
        → rows_so_far (advanced p bytes n st.0 st.1) ≡ applied (change_of p n (outline_of st))
        (rows_so_far st) }
    ensures ends { (bytes : ℕ) (st last : Stack) → ends bytes st.0 st.1 ≡ Ok last → rows_so_far last ≡ rows_so_far st }
    ensures whole { (g : Tree) → rows_so_far ([], Finished g) ≡ rows 0 g }
{}

/// Within the limits, the rows so far are always those of a valid geometry, or there are none. A
/// point that is added to an existing row goes into that of a line or ring.
pub fn valid()
    ensures rows { (limits : Allowance) (bytes : List ℕ) (e : Sums) (st : Stack)
        → Reached limits bytes e st → AreValidRowsOfOne limits (rows_so_far st) }
    ensures takes { (p : Point) (n : ℕ) (st : Stack) → Takes (change_of p n (outline_of st)) (rows_so_far st) }
{}

/// What holds of a reader that keeps an outline and rows. They are those of the items read: at the
/// start, after an expected item without objection, and after the ends of geometries with exact
/// sizes. If the expected item is refused, a size is not exact, a number is cut or too long, or,
/// after at least one byte, the bytes end before an item that is no end, that is the first fault.
/// At a blob's end the bytes are a blob of a geometry with these rows. Always the bytes read begin
/// a blob, and the sums count them; the rows are those of a valid geometry, or there are none; no
/// more collections are open than the limits allow; the open lists are those of the body's form;
/// and a point that is added to an existing row goes into that of a line or ring. Three clauses
/// need limits that are within their caps and allow a node: `starts`; `largest`, by which the rows
/// are also valid under the largest limits; and `row`, by which the last row continues those before
/// it under the largest limits.
pub fn reading()
    ensures starts { (limits : Allowance) → IsAllowance limits → Outlined limits [] nothing ([], OnHeader) [] }
    ensures item { (limits : Allowance) (bytes : List ℕ) (e : Sums) (o : Outline) (rs : List Row)
        (i : Item) → Outlined limits bytes e o rs
        → WithItem limits e o i None (OutlinedBehind limits bytes e o rs i) }
    ensures refused { (limits : Allowance) (bytes : List ℕ) (e : Sums) (o : Outline) (rs : List Row)
        (i : Item) (reason : Reason) → Outlined limits bytes e o rs
        → WithItem limits e o i (Some reason) (FaultAt limits bytes e i reason) }
    ensures ends { (limits : Allowance) (bytes : List ℕ) (e : Sums) (o : Outline) (rs : List Row)
        → Outlined limits bytes e o rs → OutlineLanded limits bytes e rs (outline_ends e.bytes o) }
    ensures blob { (limits : Allowance) (bytes : List ℕ) (e : Sums) (rs : List Row)
        → Outlined limits bytes e ([], OnFinished) rs → (g : Tree) × Blob limits bytes g
        × (rows 0 g ≡ rs) }
    ensures valid { (limits : Allowance) (bytes : List ℕ) (e : Sums) (o : Outline) (rs : List Row)
        → Outlined limits bytes e o rs → AreValidRowsOfOne limits rs }
    ensures largest { (limits : Allowance) → IsAllowance limits
        → (bytes : List ℕ) (e : Sums) (o : Outline) (rs : List Row) → Outlined limits bytes e o rs
        → AreValidRowsOfOne largest_limits rs }
    ensures row { (limits : Allowance) → IsAllowance limits
        → (bytes : List ℕ) (e : Sums) (o : Outline) (rs : List Row) (row : Row)
        → Outlined limits bytes e o (rs ++ row ∷ []) → Continues largest_limits rs row }
    ensures takes { (limits : Allowance) (bytes : List ℕ) (e : Sums) (o : Outline) (rs : List Row)
        (p : Point) (n : ℕ) → Outlined limits bytes e o rs → Takes (change_of p n o) rs }
    ensures fits { (limits : Allowance) (bytes : List ℕ) (e : Sums) (o : Outline) (rs : List Row)
        → Outlined limits bytes e o rs → StageFits o.1 }
    ensures offset { (limits : Allowance) (bytes : List ℕ) (e : Sums) (o : Outline) (rs : List Row)
        → Outlined limits bytes e o rs → length bytes ≡ e.bytes }
    ensures depth { (limits : Allowance) (bytes : List ℕ) (e : Sums) (o : Outline) (rs : List Row)
        → Outlined limits bytes e o rs → length o.0 ≤ limits.nest }
    ensures part { (limits : Allowance) (bytes : List ℕ) (e : Sums) (o : Outline) (rs : List Row)
        → Outlined limits bytes e o rs → IsPart limits bytes }
    ensures cut { (limits : Allowance) (bytes : List ℕ) (e : Sums) (o : Outline) (rs : List Row)
        → AtNumber (Outlined limits bytes e o rs) (outline_role e o) (λ rest. IsCut rest
        → FirstFault limits (bytes ++ rest) e.bytes Truncated) }
    ensures long { (limits : Allowance) (bytes : List ℕ) (e : Sums) (o : Outline) (rs : List Row)
        → AtNumber (Outlined limits bytes e o rs) (outline_role e o) (λ rest. IsTooLong rest
        → FirstFault limits (bytes ++ rest) e.bytes BadVarint) }
    ensures missing { (limits : Allowance) (bytes : List ℕ) (e : Sums) (o : Outline) (rs : List Row)
        (role : Role) → Outlined limits bytes e o rs → Wants e o role
        → bytes ≢ [] → HasBytes role → FirstFault limits bytes e.bytes Truncated }
{}

/// The rows so far can take the change of the next item, within the largest limits, if there is no
/// objection to the item, whether or not the sizes that end with it are exact (`item`). If a point
/// is expected, and its two numbers lead to a point in range, they can also take the change of both
/// at once (`point`). Both need limits that are within their caps and allow a node.
pub fn admitting()
    ensures item { (limits : Allowance) → IsAllowance limits
        → (bytes : List ℕ) (e : Sums) (o : Outline) (rs : List Row) (i : Item)
        → Outlined limits bytes e o rs
        → WithItem limits e o i None (Admits (change_after e i o) rs) }
    ensures point { (limits : Allowance) → IsAllowance limits
        → AtPoint (Outlined limits) (λ bytes e o change rs. Admits change rs) }
{}

/// If a point is expected (inside a list, at the end of lists, or at the end of a geometry), and
/// its two numbers lead to a point in range, both may be taken at once. The sums, the outline and
/// the rows are then those after one number and then the other (`taken`), and the notes of spans
/// are those before them (`noted`). A point that goes into an existing row goes into that of a line
/// or ring (`takes`).
pub fn points()
    ensures taken { (limits : Allowance) → AtPoint (Outlined limits)
        (λ bytes e o change rs. Outlined limits bytes e o (applied change rs)) }
    ensures takes { (limits : Allowance) → AtPoint (Outlined limits) (λ bytes e o change rs. Takes change rs) }
    ensures noted { (limits : Allowance) (told : ℕ → Notes)
        → AtPoint (λ bytes e o rs. NotedOutline limits bytes e o rs told)
        (λ bytes e o change rs. NotedOutline limits bytes e o (applied change rs) told) }
{}

/// The outline determines the notes that a reader makes of spans (`note`), and the number of open
/// geometries (`count`). If the outline expects no header or end as an optional part, neither does
/// the state that it outlines (`calm`).
pub fn noting()
    ensures note { (st : Stack) (offset points byte : ℕ) (w : Notes)
        → note_byte st.1 offset points byte w ≡ note_stage (stage_of st.1) offset points byte w }
    ensures calm { (st : Stack) → IsCalmStage (stage_of st.1) → IsCalm st.1 }
    ensures count { (st : Stack) → frame_count st ≡ open_count (outline_of st) }
{}
