//! Laws of columns, each stated as the contract of an empty function.
ghost use Rattle.std.specs.Prelude.{◌≡◌, ℕ, List};
ghost use Rattle.std.specs.List.{AllByRecursion};
ghost use Rattle.csv.specs.Reading.{AreRecords};
ghost use Rattle.csv.specs.declared.parser.State.TheVariants.{StartRecord};
ghost use Rattle.twkb_tree.specs.Tree.{Tree};
ghost use Rattle.twkb_tree.specs.Limits.{Allowance, IsAllowance};
ghost use Rattle.twkb_grammar.specs.Items.{Stream};
ghost use Rattle.twkb_grammar.specs.declared.style.Style.{Style};
ghost use Rattle.twkb_csv.specs.Machine.{config};
ghost use Rattle.twkb_csv.specs.declared.column.Column.{Column};
ghost use Rattle.twkb_rest.specs.Written.{HasField, IsSeparator, Record, records_text};
ghost use Rattle.twkb_rest.specs.Columns.{AreOf, IsPackedAgain};

/// Records that are written with a delimiter, each with a field at least, are read back with it: as
/// `csv` reads them without looking for a byte order mark.
pub fn read_back()
    ensures { (delimiter : ℕ) (records : List Record) → IsSeparator delimiter → AllByRecursion HasField records
        → AreRecords (config delimiter) StartRecord (records_text delimiter records) records }
{}

/// Packing the column that a stream of linestrings is unpacked to, in either style, gives the
/// canonical stream of its geometries, if they have the column's precision, and no polyline is a
/// word for a missing one.
pub fn pack_of_unpack()
    ensures { (style : Style) (l : Allowance) (column : Column) (stream : List ℕ) (gs : List Tree) → IsAllowance l
        → IsSeparator column.delimiter → Stream l stream gs → AreOf column gs → IsPackedAgain style l column gs }
{}
