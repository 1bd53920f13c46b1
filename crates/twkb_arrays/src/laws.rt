//! Laws of streams that are read into arrays and written from them, each stated as the contract of
//! an empty function. The calls that a law names have the same limits, and the geometries that it
//! names are within them.
ghost use Rattle.std.specs.Prelude.{◌≡◌, ◌≢◌, ◌≤◌, ◌⊎◌, ℕ, List, [], ◌∷◌, ◌++◌, IfSome, Some, drop, length};
ghost use Rattle.std.specs.Prelude.{reverse, take};
ghost use Rattle.twkb_io.specs.declared.TheConstants.{MAX_BYTES};
ghost use Rattle.twkb_tree.specs.Tree.{IsId, Tree};
ghost use Rattle.twkb_tree.specs.Limits.{Allowance, IsAllowance};
ghost use Rattle.twkb_tree.specs.Refusal.{refusal};
ghost use Rattle.twkb_tree.specs.declared.row_checks.Refusal.{Refusal};
ghost use Rattle.twkb_tree.specs.declared.row_checks.Refusal.TheVariants.{CoordinateRange, TooManyPoints};
ghost use Rattle.twkb_tree.specs.Rows.{Row as TableRow};
ghost use Rattle.twkb_table.specs.Judged.{Judged, Refused, Verdict, rule_reason};
ghost use Rattle.twkb_table.specs.Record.{record_of};
ghost use Rattle.twkb_grammar.specs.Items.{BlobInFront, Stream};
ghost use Rattle.twkb_grammar.specs.declared.style.Style.{Style};
ghost use Rattle.twkb_convert.specs.declared.report.Cause.{Cause};
ghost use Rattle.twkb_conversions.specs.Conversions.{IsRefusal, outputs_of};
ghost use Rattle.twkb_conversions.specs.declared.conversion.Conversion.TheVariants.{Unpack};
ghost use Rattle.twkb_buffer.specs.Calls.{Tells};
ghost use Rattle.twkb_buffer.specs.declared.point.BufferPoint.{BufferPoint as InPoint};
ghost use Rattle.twkb_buffer.specs.declared.report.BufferReport.{BufferReport as InReport};
ghost use Rattle.twkb_arrays.specs.declared.row.BufferRow.{BufferRow as InRow};
ghost use Rattle.twkb_arrays.specs.declared.filled_arrays.BufferCounts.{BufferCounts as InCounts};
ghost use Rattle.twkb_arrays.specs.ReadBack.{Arrays, BeginAs, IsRoundTrip, RestGoesOn};
ghost use Rattle.twkb_arrays.specs.FilledArrays.{ReadsArrays};
ghost use Rattle.twkb_arrays.specs.Pieces.{AddUpTo, Call, HasPlaces, HasPlacesFor, HaveRead, HaveReadAll, IsCall};
ghost use Rattle.twkb_arrays.specs.Pieces.{IsLast, IsStoppingCall, PassesOver, ReadInPieces, done_by, points_by};
ghost use Rattle.twkb_arrays.specs.Pieces.{rows_by, taken_by};
ghost use Rattle.twkb_arrays.specs.Rows.{AreSameRows, LacksPlaces};
ghost use Rattle.twkb_arrays.specs.WrittenArrays.{AreArrays, WritesArrays, WritesWithinRoom};

/// If at most 2^62 bytes are a stream, the geometries that `read_arrays` reads from them are those
/// of the stream, and it refuses nothing, unless memory is refused.
pub fn one_answer()
    ensures { (l : Allowance) (bytes : List ℕ) (old_rows new_rows : List InRow)
        (old_points new_points : List InPoint) (old_ends new_ends : List ℕ)
        (counts : InCounts) (gs : List Tree)
        (read : ReadsArrays l bytes old_rows old_points old_ends new_rows new_points new_ends counts)
        → Stream l bytes gs → length bytes ≤ MAX_BYTES
        → (counts.status ≡ 4) ⊎ ((read.given ++ read.later ≡ gs) × (counts.status ≢ 1)) }
{}

/// If both `read_arrays` and `unpack` refuse an item of the same bytes, at most 2^62 of them, both
/// report the same reason and place.
pub fn one_refusal()
    ensures { (l : Allowance) (bytes : List ℕ) (old_rows new_rows : List InRow)
        (old_points new_points : List InPoint) (old_ends new_ends : List ℕ)
        (counts : InCounts) (text : List ℕ) (done taken : ℕ)
        (why : Cause) (report : InReport)
        → ReadsArrays l bytes old_rows old_points old_ends new_rows new_points new_ends counts → counts.status ≡ 1
        → length bytes ≤ MAX_BYTES → (outputs_of Unpack l bytes).IsFront text done taken why
        → IsRefusal why → Tells report why → (counts.reason ≡ report.reason) × (counts.place ≡ report.place) }
{}

/// If `read_arrays` reads a whole stream with status 0, its arrays begin with the rows of the table
/// to which the stream is unpacked, and with their points; later places are unchanged.
pub fn same_rows()
    ensures { (l : Allowance) (bytes : List ℕ) (old_rows new_rows : List InRow)
        (old_points new_points : List InPoint) (old_ends new_ends : List ℕ)
        (counts : InCounts) (text : List ℕ) (done taken : ℕ)
        → ReadsArrays l bytes old_rows old_points old_ends new_rows new_points new_ends counts → counts.status ≡ 0
        → (outputs_of Unpack l bytes).IsWhole text done taken
        → AreSameRows text old_rows old_points new_rows new_points }
{}

/// A row that is refused after others, or none, is refused after them as a record of a table too,
/// under the same limits and for the same reason, if its depth is at most 999, its id and
/// precision, if any, are from -2^63 to 2^63 - 1, and the reason is not that its points are out of
/// range or too many.
pub fn one_reason()
    ensures { (l : Allowance) (rs : List TableRow) (r : TableRow) (why : Refusal) (v : Verdict)
        → r.depth ≤ 999 → IfSome r.id IsId → IfSome r.precision IsId
        → why ≢ CoordinateRange → why ≢ TooManyPoints → refusal l rs r ≡ Some why
        → Judged l (reverse rs) (record_of r) v → v ≡ Refused (rule_reason why) }
{}

/// If arrays are those of valid geometries, `write_arrays` writes or counts the blobs of exactly
/// these geometries, and refuses nothing, unless memory is refused.
pub fn one_writing()
    ensures { (l : Allowance) (style : Style) (in_rows : List InRow) (in_points : List InPoint)
        (old old_ends new new_ends : List ℕ) (report : InReport) (gs : List Tree)
        (wrote : WritesArrays l style in_rows in_points old old_ends new new_ends report) → IsAllowance l
        → AreArrays l gs in_rows in_points
        → (report.status ≡ 4) ⊎ ((wrote.given ++ wrote.later ≡ gs) × (report.status ≢ 1)) }
{}

/// At most 2^62 bytes that `write_arrays` wrote with status 0 are read back by `read_arrays`, with
/// status 0, to the same rows and points at the start of arrays that have room for them, and later
/// places are unchanged, unless memory is refused.
pub fn read_back()
    ensures { (l : Allowance) (given old new : Arrays) (counts : InCounts) → IsAllowance l
        → IsRoundTrip l given old new counts
        → (counts.status ≡ 4) ⊎ ((counts.status ≡ 0) × BeginAs given old new) }
{}

/// If `write_arrays` writes the arrays that `read_arrays` read from a stream with status 0, it
/// writes or counts the blobs of the stream's geometries, and refuses nothing, unless memory is
/// refused.
pub fn written_again()
    ensures { (l : Allowance) (style : Style) (bytes : List ℕ) (old_rows new_rows : List InRow)
        (old_points new_points : List InPoint) (old_ends new_ends : List ℕ)
        (counts : InCounts) (gs : List Tree)
        (old before_ends new after_ends : List ℕ) (report : InReport) → IsAllowance l
        → ReadsArrays l bytes old_rows old_points old_ends new_rows new_points new_ends counts → counts.status ≡ 0
        → Stream l bytes gs → (wrote : WritesArrays l style (take counts.rows new_rows)
        (take counts.points new_points) old before_ends new after_ends report)
        → (report.status ≡ 4) ⊎ ((wrote.given ++ wrote.later ≡ gs) × (report.status ≢ 1)) }
{}

/// Bytes may be read in pieces: the window of each call begins at the first byte that the calls before
/// it did not take, and may end anywhere, inside a blob too. Arrays may have any length, and memory may
/// be refused. At any time the calls wrote the rows, points and ends of exactly the geometries whose
/// blobs they took. If the last call leaves nothing to be read, these are the geometries of all bytes,
/// or those before the first refused item. Then the calls wrote and reported what one call over all
/// bytes does that has places and memory enough, if places count from the start of the bytes.
pub fn in_pieces()
    ensures so_far { (l : Allowance) (bytes : List ℕ) (calls : List Call) → ReadInPieces l bytes calls
        → (gs : List Tree) × HaveRead l bytes calls gs }
    ensures ended { (l : Allowance) (bytes : List ℕ) (before : List Call) (last : Call)
        → ReadInPieces l bytes (before ++ last ∷ []) → IsLast (drop (taken_by before) bytes) last
        → length last.window ≤ MAX_BYTES → (gs : List Tree) × HaveReadAll l bytes before last gs }
    ensures as_one { (l : Allowance) (bytes : List ℕ) (before : List Call) (last one : Call)
        → ReadInPieces l bytes (before ++ last ∷ []) → IsLast (drop (taken_by before) bytes) last
        → length bytes ≤ MAX_BYTES → IsCall l one → one.window ≡ bytes → one.counts.status ≢ 4
        → HasPlaces one (length (rows_by (before ++ last ∷ []))) (length (points_by (before ++ last ∷ [])))
        (done_by (before ++ last ∷ [])) → AddUpTo one before last }
{}

/// A call takes at least the blobs that are whole at the start of a window of at most 2^62 bytes, if
/// its arrays have places for them and memory is not refused. So a caller gets on that doubles what
/// was too short if a call took nothing: with status 5 the arrays, which lack places for the first
/// geometry; else the window, in which no blob is whole. A call that stops reads at most one whole
/// geometry that it does not take, the next one of the window; its needed rows and points are those
/// that it wrote and those of this one.
pub fn progress()
    ensures takes { (l : Allowance) (c : Call) (front rest : List ℕ) (gs : List Tree) → IsCall l c
        → c.counts.status ≢ 4 → length c.window ≤ MAX_BYTES → c.window ≡ front ++ rest → Stream l front gs
        → HasPlacesFor c gs → (length front ≤ c.counts.taken) × (length gs ≤ c.counts.done) }
    ensures no_places { (l : Allowance) (c : Call) → IsCall l c → c.counts.status ≡ 5 → c.counts.taken ≡ 0
        → (g : Tree) × (rest : List ℕ) × BlobInFront l c.window g rest
        × LacksPlaces c.old_rows c.old_points c.old_ends (g ∷ []) }
    ensures no_whole_blob { (l : Allowance) (c : Call) (g : Tree) (rest : List ℕ) → IsCall l c
        → c.counts.status ≢ 4 → c.counts.status ≢ 5 → length c.window ≤ MAX_BYTES → c.counts.taken ≡ 0
        → BlobInFront l c.window g rest → ⊥ }
    ensures one_more { (l : Allowance) (c : Call) → IsStoppingCall l c
        → (gs later : List Tree) × (length later ≤ 1) × PassesOver l c gs later }
{}

/// The blobs in an output took exactly the rows and points that the report counts as taken, however
/// the call ended. If those after them are the arrays of more geometries, all are the arrays of
/// both, in this order, and the canonical stream of both is what was sent and then the canonical
/// stream of the others.
pub fn rest_of_arrays()
    ensures all { (l : Allowance) (style : Style) (in_rows : List InRow) (in_points : List InPoint)
        (old old_ends new new_ends : List ℕ) (report : InReport)
        (wrote : WritesArrays l style in_rows in_points old old_ends new new_ends report)
        → RestGoesOn l style wrote.given in_rows in_points new report }
    ensures stopped { (l : Allowance) (style : Style) (in_rows : List InRow) (in_points : List InPoint)
        (old old_ends new new_ends : List ℕ) (report : InReport)
        (wrote : WritesWithinRoom l style in_rows in_points old old_ends new new_ends report)
        → RestGoesOn l style wrote.writes.given in_rows in_points new report }
{}
