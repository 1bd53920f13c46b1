//! Samples of the definitions, checked by computation: bytes, rows and points worked by hand from
//! TWKB.
ghost use Rattle.std.specs.Prelude.{◌≡◌, ℕ, List, [], ◌∷◌, ◌++◌, drop, take};
ghost use Rattle.twkb_grammar.specs.Items.{Stream};
ghost use Rattle.twkb_grammar.specs.Samples.{standard};
ghost use Rattle.twkb_grammar.specs.Written.{canonical_stream};
ghost use Rattle.twkb_grammar.specs.declared.style.Style.TheVariants.{Full};
ghost use Rattle.twkb_buffer.specs.declared.point.BufferPoint.{BufferPoint as InPoint};
ghost use Rattle.twkb_buffer.specs.declared.report.BufferReport.{BufferReport as InReport};
ghost use Rattle.twkb_arrays.specs.declared.row.BufferRow.{BufferRow as InRow};
ghost use Rattle.twkb_arrays.specs.declared.filled_arrays.BufferCounts.{BufferCounts as InCounts};
ghost use Rattle.twkb_arrays.specs.FilledArrays.{ReadsArrays};
ghost use Rattle.twkb_arrays.specs.PieceSamples.{first_call, second_call, two_points, whole_call};
ghost use Rattle.twkb_arrays.specs.Pieces.{AddUpTo, IsCall, IsLast, ReadInPieces, taken_by};
ghost use Rattle.twkb_arrays.specs.Rows.{array_points, array_rows};
ghost use Rattle.twkb_arrays.specs.Samples.{each_kind, each_kind_points, each_kind_rows, each_kind_stream};
ghost use Rattle.twkb_arrays.specs.WrittenArrays.{WritesArrays};

/// The geometries of `each_kind`, one of each kind, have the rows `each_kind_rows` and the points
/// `each_kind_points` in arrays. The bytes `each_kind_stream` are their canonical stream in full
/// style, and within the standard limits a stream of them.
pub fn each_kind()
    ensures rows { array_rows each_kind ≡ each_kind_rows }
    ensures points { array_points each_kind ≡ each_kind_points }
    ensures bytes { canonical_stream Full each_kind ≡ each_kind_stream }
    ensures stream { Stream standard each_kind_stream each_kind }
{}

/// If `read_arrays`, with the standard limits, reads the bytes of `each_kind` with status 0, the
/// arrays begin with the rows and points of `each_kind`, and their later places are unchanged.
pub fn read()
    ensures { (old_rows new_rows : List InRow) (old_points new_points : List InPoint)
        (old_ends new_ends : List ℕ) (counts : InCounts)
        → ReadsArrays standard each_kind_stream old_rows old_points old_ends new_rows new_points new_ends counts
        → counts.status ≡ 0 → (new_rows ≡ each_kind_rows ++ drop 19 old_rows)
        × (new_points ≡ each_kind_points ++ drop 16 old_points) }
{}

/// If `write_arrays`, in full style and with the standard limits, writes the rows and points of
/// `each_kind` with status 0, the first `sent` bytes of its output are those of `each_kind`.
pub fn written()
    ensures { (old old_ends new new_ends : List ℕ) (report : InReport)
        → WritesArrays standard Full each_kind_rows each_kind_points old old_ends new new_ends report
        → report.status ≡ 0 → take report.sent new ≡ each_kind_stream }
{}

/// The two calls of `PieceSamples` read the bytes of two points in pieces, though the first window
/// ends inside the second blob. Together they give what the one call over all bytes gives.
pub fn in_pieces()
    ensures pieces { ReadInPieces standard two_points (first_call ∷ second_call ∷ []) }
    ensures last { IsLast (drop (taken_by (first_call ∷ [])) two_points) second_call }
    ensures whole { IsCall standard whole_call }
    ensures same { AddUpTo whole_call (first_call ∷ []) second_call }
{}
