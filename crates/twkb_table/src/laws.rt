//! Laws of tables: which geometries records name, when they are refused, and how their text is
//! read.
ghost use Rattle.std.specs.Prelude.{◌≡◌, ◌≢◌, ◌↔◌, ◌≤◌, ◌⊎◌, ◌++◌, ◌∷◌, [], ℕ, List, reverse};
ghost use Rattle.csv.specs.Reading.{AreRecords, default_config, strip_bom};
ghost use Rattle.csv.specs.declared.parser.State.TheVariants.{StartRecord};
ghost use Rattle.twkb_tree.specs.Tree.{Tree};
ghost use Rattle.twkb_tree.specs.Limits.{Allowance, IsAllowance};
ghost use Rattle.twkb_tree.specs.Rows.{Row, AreValidRows};
ghost use Rattle.twkb_tree.specs.Admits.{Accepts};
ghost use Rattle.twkb_table.specs.Record.{Record, header, record_of};
ghost use Rattle.twkb_table.specs.RowFault.{Named, NamesNone, NameMore, JudgedBehind, RowFault, AreComplete};
ghost use Rattle.twkb_table.specs.RowFault.{read_table, Judges, IsReading};
ghost use Rattle.twkb_table.specs.Text.{BeginAtRoot, NameApart, csvtext};
ghost use Rattle.twkb_table.specs.Judged.{Judged, Verdict, Accepted, Refused};
ghost use Rattle.twkb_table.specs.Samples.{PointTable, PointText, PolygonTable, CollectionTable};
ghost use Rattle.twkb_table.specs.declared.reason.RowReason.{RowReason};

/// Under the same limits, records name at most one list of geometries.
pub fn one_reading()
    ensures { (l : Allowance) (records : List Record) (gs hs : List Tree) → IsAllowance l
        → Named l records gs → Named l records hs → gs ≡ hs }
{}

/// Each prefix of a table of valid geometries is such a table under the same limits, except the
/// empty prefix.
pub fn fronts()
    ensures { (l : Allowance) (front more : List Record) (gs : List Tree) → front ≢ []
        → Named l (front ++ more) gs → (hs : List Tree) × Named l front hs }
{}

/// Under the same limits, the rows of two tables of valid geometries, one after the other below one
/// header, name the geometries of both. A table of valid geometries that is cut before a row of
/// depth 0, or at its end, is two such tables, each below a header: of the first geometries, and of
/// the others.
pub fn parts()
    ensures joined { (l : Allowance) (rows more : List Record) (gs hs : List Tree)
        → Named l (header ∷ rows) gs → Named l (header ∷ more) hs
        → Named l (header ∷ (rows ++ more)) (gs ++ hs) }
    ensures cut { (l : Allowance) (rows more : List Record) (ks : List Tree) → IsAllowance l
        → BeginAtRoot more → Named l (header ∷ (rows ++ more)) ks → NameApart l rows more ks }
{}

/// The reader of `csv`, set to no header row, flexible lengths and no trimming, reads the records
/// of a table of valid geometries from their text.
pub fn read_back()
    ensures { (l : Allowance) (records : List Record) (gs : List Tree) → IsAllowance l
        → Named l records gs → AreRecords default_config StartRecord
        (strip_bom (csvtext records)) records }
{}

/// After rows that are valid under the same limits, a record is accepted as a row exactly if it is
/// that row's record and the row may come next.
pub fn judged_rows()
    ensures { (l : Allowance) (rows : List Row) (fields : Record) (row : Row) → IsAllowance l
        → AreValidRows l rows → Judged l (reverse rows) fields (Accepted row)
        ↔ ((fields ≡ record_of row) × Accepts l (reverse rows) row) }
{}

/// After given rows and under given limits, each record has exactly one verdict.
pub fn one_verdict()
    ensures some { (l : Allowance) (before : List Row) (fields : Record) → (v : Verdict) × Judged l before fields v }
    ensures one { (l : Allowance) (before : List Row) (fields : Record) (v w : Verdict)
        → Judged l before fields v → Judged l before fields w → v ≡ w }
{}

/// Under the same limits, records that name geometries, and after them a record that is accepted as
/// a row, name geometries that have the same rows and then that row; with a record that is refused
/// they name none.
pub fn judged()
    ensures grows { (l : Allowance) (records : List Record) (fields : Record) (gs : List Tree)
        (row : Row) → Named l records gs → JudgedBehind l gs fields (Accepted row)
        → NameMore l records fields gs row }
    ensures refused { (l : Allowance) (records : List Record) (fields : Record) (gs : List Tree)
        (reason : RowReason) → IsAllowance l → Named l records gs
        → JudgedBehind l gs fields (Refused reason) → NamesNone l (records ++ fields ∷ []) }
{}

/// Under the same limits, records name geometries or have a fault, and never both; the fault has
/// one place and one reason.
pub fn faults()
    ensures decided { (l : Allowance) (records : List Record) → IsAllowance l
        → ((gs : List Tree) × Named l records gs) ⊎ ((number : ℕ) × (reason : RowReason)
        × RowFault l records number reason) }
    ensures none { (l : Allowance) (records : List Record) (number : ℕ) (reason : RowReason)
        → RowFault l records number reason → NamesNone l records }
    ensures one { (l : Allowance) (records : List Record) (m n : ℕ) (why reason : RowReason)
        → IsAllowance l → RowFault l records m why → RowFault l records n reason → (m ≡ n)
        × (why ≡ reason) }
{}

/// Under the same limits, exactly one list of geometries is complete before a fault; it is empty if
/// the fault is at one of the first two records.
pub fn complete()
    ensures some { (l : Allowance) (records : List Record) (number : ℕ) (reason : RowReason)
        → RowFault l records number reason → (gs : List Tree)
        × AreComplete l records number reason gs }
    ensures one { (l : Allowance) (records : List Record) (m n : ℕ) (why reason : RowReason)
        (gs hs : List Tree) → IsAllowance l → AreComplete l records m why gs
        → AreComplete l records n reason hs → gs ≡ hs }
    ensures early { (l : Allowance) (records : List Record) (number : ℕ) (reason : RowReason)
        (gs : List Tree) → number ≤ 2 → AreComplete l records number reason gs → gs ≡ [] }
{}

/// The plain reader `read_table`, with a judge that gives each record after accepted rows its
/// verdict, reads from records the rows of the geometries that they name under the same limits, or
/// their fault and the rows before it.
pub fn plain_reading()
    ensures { (l : Allowance) (judge : List Row → Record → Verdict) (records : List Record)
        → IsAllowance l → Judges l judge → IsReading l records (read_table judge records) }
{}

/// The definitions give the records of worked tables, and the text of one of them, which is checked
/// by computation.
pub fn samples()
    ensures point { PointTable }
    ensures text { PointText }
    ensures polygon { PolygonTable }
    ensures collection { CollectionTable }
{}
