//! Laws of the columns of CSVs, each stated as the contract of an empty function.
ghost use Rattle.std.specs.Prelude.{◌≡◌, ℕ, List, Some, None, is_some};
ghost use Rattle.twkb_io.specs.Inputs.{BeginsWith};
ghost use Rattle.twkb_csv.specs.Named.{Record, named, text_of};
ghost use Rattle.twkb_csv.specs.declared.column.Column.{Column};
ghost use Rattle.twkb_tree.specs.Tree.{Tree};
ghost use Rattle.twkb_tree.specs.Limits.{Allowance, IsAllowance};
ghost use Rattle.twkb_grammar.specs.declared.style.Style.{Style};
ghost use Rattle.twkb_table.specs.CsvRecords.{AreRecordsOf};
ghost use Rattle.twkb_table.specs.RowFault.{AreComplete, Named};
ghost use Rattle.twkb_table.specs.declared.reason.RowReason.{RowReason};
ghost use Rattle.twkb_convert.specs.Outputs.{PackTextTo};
ghost use Rattle.twkb_convert.specs.Parts.{FrontOfBlobs, IsRefusedAt};
ghost use Rattle.twkb_column.specs.Causes.{refused_as};
ghost use Rattle.twkb_column.specs.CsvFaults.{IsFirst, csv_fault};
ghost use Rattle.twkb_column.specs.Packing.{AreRecordsOfCsv, NamesText, PackColumnTo};
ghost use Rattle.twkb_column.specs.declared.fault.ColumnCause.TheVariants.{Csv};
ghost use Rattle.twkb_column.specs.declared.fault.ColumnReason.{ColumnReason};

/// Any bytes are a CSV with exactly one list of records, which names exactly one text of a table,
/// and from this text `csv` reads the records that it names.
pub fn one_table()
    ensures some { (column : Column) (csv : List ℕ) → (records : List Record) × AreRecordsOfCsv column csv records }
    ensures one { (column : Column) (csv text : List ℕ) (records : List Record)
        → AreRecordsOfCsv column csv records → NamesText column (Some csv) (Some text)
        → (text ≡ text_of (named column records)) × AreRecordsOf text (named column records) }
{}

/// Any CSV has exactly one packed output in each style, under given limits: that of the table that
/// it names, by its text.
pub fn one_packed_output()
    ensures some { (style : Style) (l : Allowance) (column : Column) (csv : List ℕ) → IsAllowance l
        → (bytes : List ℕ) × PackColumnTo style l column csv bytes }
    ensures one { (style : Style) (l : Allowance) (column : Column) (csv text bytes other : List ℕ)
        → IsAllowance l → NamesText column (Some csv) (Some text) → PackTextTo style l text bytes
        → PackColumnTo style l column csv other → other ≡ bytes }
{}

/// The bytes that `pack_column` has written when it stops are a prefix of the output for the whole
/// CSV in the same style and under the same limits.
pub fn pack_front()
    ensures { (style : Style) (l : Allowance) (column : Column) (csv text written bytes : List ℕ)
        → IsAllowance l → NamesText column (Some csv) (Some text) → FrontOfBlobs style l (Some text) written
        → PackColumnTo style l column csv bytes → BeginsWith (Some bytes) written }
{}

/// A refusal that `pack_column` reports in the words of the CSV is that of the first record that the
/// rules of the CSV refuse. If they refuse one, that is reported, or a row before it is refused for
/// a reason of its own; and if they refuse one, the records name no geometries.
pub fn refused_record()
    ensures told { (l : Allowance) (column : Column) (csv text : List ℕ) (records : List Record) (number : ℕ)
        (reason : RowReason) (gs : List Tree) → AreRecordsOfCsv column csv records
        → NamesText column (Some csv) (Some text) → IsRefusedAt l (Some text) number reason gs
        → IsFirst (is_some column.ids) (csv_fault column records) number reason }
    ensures one { (l : Allowance) (column : Column) (csv text : List ℕ) (records : List Record) (number first : ℕ)
        (reason : RowReason) (why : ColumnReason) (gs : List Tree) → AreRecordsOfCsv column csv records
        → NamesText column (Some csv) (Some text) → IsRefusedAt l (Some text) number reason gs
        → refused_as (is_some column.ids) number reason ≡ Csv first why → csv_fault column records ≡ Some (first, why) }
    ensures none { (l : Allowance) (column : Column) (records : List Record) (gs : List Tree)
        → Named l (named column records) gs → csv_fault column records ≡ None }
{}
