//! Laws of columns that are packed with their rest, each stated as the contract of an empty function.
ghost use Rattle.std.specs.Prelude.{◌≡◌, ℕ, List, Some, None};
ghost use Rattle.twkb_tree.specs.Limits.{Allowance, IsAllowance};
ghost use Rattle.twkb_grammar.specs.declared.style.Style.{Style};
ghost use Rattle.twkb_csv.specs.declared.column.Column.{Column};
ghost use Rattle.twkb_column.specs.Packing.{PackColumnTo};
ghost use Rattle.twkb_split.specs.Pieces.{stream_of};
ghost use Rattle.twkb_split.specs.Results.{WholeCsv, packing_of};

/// The stream that `pack_rest` writes of a whole CSV is the packed output of its column, in the same
/// style and under the same limits: that of the table that the CSV names.
pub fn same_stream()
    ensures { (style : Style) (l : Allowance) (column : Column) (csv : List ℕ) → IsAllowance l → column.ids ≡ None
        → (whole : WholeCsv (packing_of style l column) (Some csv))
        → PackColumnTo style l column csv (stream_of whole.pieces) }
{}
