//! Laws of the table that a CSV names.
ghost use Rattle.std.specs.Prelude.{◌≡◌, ℕ, List};
ghost use Rattle.csv.specs.Reading.{AreRecords, default_config, strip_bom};
ghost use Rattle.csv.specs.declared.parser.State.TheVariants.{StartRecord};
ghost use Rattle.twkb_csv.specs.Machine.{config};
ghost use Rattle.twkb_csv.specs.Named.{Record, named, text_of};
ghost use Rattle.twkb_csv.specs.Scan.{begin, rest_text};
ghost use Rattle.twkb_csv.specs.declared.column.Column.{Column};

/// The text that a reader of a column gives is that of the table which the records of the CSV name.
pub fn named_text()
    ensures { (column : Column) (bytes : List ℕ) (records : List Record)
        → AreRecords (config column.delimiter) StartRecord bytes records
        → rest_text column begin bytes ≡ text_of (named column records) }
{}

/// The reader of `csv`, set to no header row, flexible lengths and no trimming, reads the records of
/// the table from this text.
pub fn read_back()
    ensures { (column : Column) (records : List Record)
        → AreRecords default_config StartRecord (strip_bom (text_of (named column records))) (named column records) }
{}
