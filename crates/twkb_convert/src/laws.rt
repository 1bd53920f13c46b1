//! Laws of the conversions, each stated as the contract of an empty function.
ghost use Rattle.std.specs.Prelude.{◌≡◌, ◌≢◌, ◌++◌, ◌∷◌, [], ℕ, List, drop, length, Some};
ghost use Rattle.twkb_io.specs.Inputs.{BeginsWith};
ghost use Rattle.twkb_tree.specs.Tree.{Tree};
ghost use Rattle.twkb_tree.specs.Limits.{Allowance, IsAllowance};
ghost use Rattle.twkb_grammar.specs.Bits.{AreBytes};
ghost use Rattle.twkb_grammar.specs.Items.{Stream};
ghost use Rattle.twkb_grammar.specs.Written.{canonical_stream};
ghost use Rattle.twkb_grammar.specs.declared.style.Style.{Style};
ghost use Rattle.twkb_table.specs.Record.{Record, header};
ghost use Rattle.twkb_table.specs.RowFault.{NamesNone, AreComplete};
ghost use Rattle.twkb_table.specs.Text.{BeginAtRoot, csvtext};
ghost use Rattle.twkb_table.specs.declared.reason.RowReason.{RowReason};
ghost use Rattle.twkb_table.specs.CsvRecords.{AreRecordsOf};
ghost use Rattle.twkb_blob.specs.declared.spans.Located.{Located};
ghost use Rattle.twkb_convert.specs.Parts.{FrontOfBlobs, AreMovedLines, PackApart, RowsName, all_moved};
ghost use Rattle.twkb_convert.specs.Parts.{IsRefusedText, TakesBlobs, records_of};
ghost use Rattle.twkb_convert.specs.Listings.{LocatedStream, ShowTo, geometries_of, lines_text};
ghost use Rattle.twkb_convert.specs.Outputs.{IsTable, PackTextTo, PackTo, TextTo, UnpackTo, geojson_text};
ghost use Rattle.twkb_convert.specs.Outputs.{table_text};

/// If a table's records are those of geometries valid under given limits, packing the table, in
/// either style, and unpacking the result, both under these limits, gives a table from which `csv`
/// reads the same records.
pub fn unpack_of_pack()
    ensures { (style : Style) (l : Allowance) (table bytes text : List ℕ) (records : List Record) → IsAllowance l
        → IsTable l table records → PackTo style l records bytes → UnpackTo l bytes text → AreRecordsOf text records }
{}

/// Unpacking a stream of geometries valid under given limits and packing the result, in either
/// style, both under these limits, gives the canonical stream of the geometries in that style.
pub fn pack_of_unpack()
    ensures { (style : Style) (l : Allowance) (bytes text packed : List ℕ) (gs : List Tree) → IsAllowance l
        → Stream l bytes gs → UnpackTo l bytes text → PackTextTo style l text packed
        → packed ≡ canonical_stream style gs }
{}

/// Any records have exactly one packed output in each style, under given limits.
pub fn one_packed_output()
    ensures some { (style : Style) (l : Allowance) (records : List Record) → IsAllowance l
        → (bytes : List ℕ) × PackTo style l records bytes }
    ensures one { (style : Style) (l : Allowance) (records : List Record) (a b : List ℕ)
        → IsAllowance l → PackTo style l records a → PackTo style l records b → a ≡ b }
{}

/// The refused record that `pack` reports is the first one refused in the whole table under the
/// same limits, and the geometries that it has written are those complete before that record. So
/// the records of the whole table name no geometries valid under these limits.
pub fn refused_table()
    ensures complete { (l : Allowance) (text : List ℕ) (records : List Record) (number : ℕ)
        (reason : RowReason) (gs : List Tree)
        → IsRefusedText l text records number reason gs → AreComplete l records number reason gs }
    ensures none { (l : Allowance) (text : List ℕ) (records : List Record) (number : ℕ)
        (reason : RowReason) (gs : List Tree)
        → IsRefusedText l text records number reason gs → NamesNone l records }
{}

/// The packed output of a table with a refused record, in either style and under the limits that
/// refuse it, is the canonical stream, in that style, of the geometries that are complete before
/// that record.
pub fn refused_output()
    ensures { (style : Style) (l : Allowance) (text : List ℕ) (records : List Record) (number : ℕ)
        (reason : RowReason) (gs : List Tree)
        → IsRefusedText l text records number reason gs → PackTo style l records (canonical_stream style gs) }
{}

/// The bytes that `pack` has written when it stops, some blobs or none and a prefix of the next
/// one, are a prefix of the output for the whole table in the same style and under the same limits.
pub fn pack_front()
    ensures { (style : Style) (l : Allowance) (text written bytes : List ℕ) → IsAllowance l
        → FrontOfBlobs style l (Some text) written → PackTextTo style l text bytes → BeginsWith (Some bytes) written }
{}

/// Any bytes have exactly one unpacked output under given limits.
pub fn one_unpacked_output()
    ensures some { (l : Allowance) (bytes : List ℕ) → IsAllowance l → AreBytes bytes
        → (text : List ℕ) × UnpackTo l bytes text }
    ensures one { (l : Allowance) (bytes a b : List ℕ) → UnpackTo l bytes a → UnpackTo l bytes b → a ≡ b }
{}

/// The text that `unpack` has written when it stops, a prefix of the table of the first blobs or of
/// none, is a prefix of the output for all bytes under the same limits.
pub fn unpack_front()
    ensures { (l : Allowance) (all bytes text written : List ℕ) (gs : List Tree)
        → BeginsWith (Some all) bytes → Stream l bytes gs
        → BeginsWith (Some (table_text gs)) written → UnpackTo l all text → BeginsWith (Some text) written }
{}

/// A stream has exactly one list of blobs with their spans, given the limits and the offset at
/// which it begins; the geometries of the list are those of the stream.
pub fn one_located_stream()
    ensures some { (l : Allowance) (offset : ℕ) (bytes : List ℕ) (gs : List Tree)
        → Stream l bytes gs → (bs : List Located) × LocatedStream l offset bytes bs
        × (geometries_of bs ≡ gs) }
    ensures one { (l : Allowance) (offset : ℕ) (bytes : List ℕ) (bs cs : List Located)
        → LocatedStream l offset bytes bs → LocatedStream l offset bytes cs → bs ≡ cs }
{}

/// Any bytes have exactly one output of `show` under given limits.
pub fn one_shown_output()
    ensures some { (l : Allowance) (bytes : List ℕ) → IsAllowance l → AreBytes bytes
        → (text : List ℕ) × ShowTo l bytes text }
    ensures one { (l : Allowance) (bytes a b : List ℕ) → ShowTo l bytes a → ShowTo l bytes b → a ≡ b }
{}

/// The text that `show` has written when it stops, a prefix of the lines of the first blobs or of
/// none, is a prefix of the output for all bytes under the same limits.
pub fn show_front()
    ensures { (l : Allowance) (all bytes text written : List ℕ) (bs : List Located)
        → BeginsWith (Some all) bytes → LocatedStream l 0 bytes bs
        → BeginsWith (Some (lines_text bs)) written → ShowTo l all text → BeginsWith (Some text) written }
{}

// ---- parts, converted separately

/// Two tables of geometries valid under the same limits may be packed separately, in one style and
/// under these limits: their outputs, joined, are the output of the rows of both below one header.
/// So may the two parts of one such table that is cut before a row of depth 0 or at its end, the
/// second part below a header of its own.
pub fn packed_parts()
    ensures joined { (style : Style) (l : Allowance) (rows more : List Record) → IsAllowance l
        → RowsName l rows → RowsName l more → PackApart style l rows more }
    ensures cut { (style : Style) (l : Allowance) (rows more : List Record) → IsAllowance l
        → BeginAtRoot more → RowsName l (rows ++ more) → PackApart style l rows more }
{}

/// Bytes that begin with a stream may be unpacked in two parts under the same limits: the output is
/// the stream's table, and then the table of the other bytes without the header's line.
pub fn unpacked_parts()
    ensures { (l : Allowance) (a b : List ℕ) (gs : List Tree) (table rows : List ℕ) → Stream l a gs
        → UnpackTo l a table → UnpackTo l b (csvtext (header ∷ []) ++ rows) → UnpackTo l (a ++ b) (table ++ rows) }
{}

/// Bytes that begin with a stream may be written as GeoJSON in two parts under the same limits: the
/// output is the stream's lines, and then those of the other bytes.
pub fn geojson_parts()
    ensures { (l : Allowance) (a b : List ℕ) (gs : List Tree) (lines : List ℕ) → Stream l a gs
        → TextTo geojson_text l b lines → TextTo geojson_text l (a ++ b) (geojson_text gs ++ lines) }
{}

/// Bytes that begin with a stream may be shown in two parts under the same limits: the output is
/// the stream's lines, and then those of the other bytes, with the stream's length added to each
/// offset. If the other bytes are a stream too, all bytes have the blobs and spans of the first
/// stream, and then those of the other one, with the same number added to each offset.
pub fn shown_parts()
    ensures blobs { (l : Allowance) (a b : List ℕ) (bs cs : List Located) → LocatedStream l 0 a bs
        → LocatedStream l 0 b cs → LocatedStream l 0 (a ++ b) (bs ++ all_moved (length a) cs) }
    ensures text { (l : Allowance) (a b : List ℕ) (gs : List Tree) (first second : List ℕ)
        → Stream l a gs → ShowTo l a first
        → ShowTo l b second → (later : List ℕ) × AreMovedLines (length a) second later
        × ShowTo l (a ++ b) (first ++ later) }
{}

/// What is left of an input after what a conversion took is converted to the rest of the output. Of
/// a stream that is unpacked, these are the rows below the header's line; of one that is shown, the
/// lines with the number of bytes taken added to each offset; of a table that names geometries, the
/// blobs of the other records below its header, if the blob of one geometry or more is whole.
pub fn rest_of_input()
    ensures unpacked { (l : Allowance) (stream rows : List ℕ) (whole : List Tree) (taken : ℕ)
        → TakesBlobs (Stream l) stream whole taken
        → UnpackTo l (drop taken stream) (csvtext (header ∷ []) ++ rows)
        → UnpackTo l stream (table_text whole ++ rows) }
    ensures shown { (l : Allowance) (stream lines : List ℕ) (whole : List Located) (taken : ℕ)
        → TakesBlobs (LocatedStream l 0) stream whole taken → ShowTo l (drop taken stream) lines
        → (later : List ℕ) × AreMovedLines taken lines later × ShowTo l stream (lines_text whole ++ later) }
    ensures packed { (style : Style) (l : Allowance) (text written rest : List ℕ) (records : List Record)
        → IsAllowance l → IsTable l text records → (part : FrontOfBlobs style l (Some text) written)
        → part.whole ≢ [] → PackTo style l (header ∷ drop (records_of part.whole) records) rest
        → PackTo style l records (canonical_stream style part.whole ++ rest) }
{}
