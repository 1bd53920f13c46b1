//! Laws of sizes, each stated as the contract of an empty function.
ghost use Rattle.std.specs.Prelude.{◌≡◌, List, length};
ghost use Rattle.twkb_tree.specs.Tree.{Tree, IsTree};
ghost use Rattle.twkb_tree.specs.Rows.{Row, rows};
ghost use Rattle.twkb_grammar.specs.Noting.{geometries};
ghost use Rattle.twkb_grammar.specs.declared.style.Style.{Style};
ghost use Rattle.twkb_writer.specs.declared.sizes.Entry.{Entry};
ghost use Rattle.twkb_writer.specs.Sizes.{AreSizes};

/// In each style, the sizes of a geometry have one entry for each of its TWKB geometries: itself,
/// and the members of each collection in it.
pub fn one_size_each()
    ensures { (style : Style) (g : Tree) (flat : List Row) (sizes : List Entry) → IsTree g
        → rows 0 g ≡ flat → AreSizes style flat sizes → length sizes ≡ geometries g }
{}
