//! Writing flat forms as canonical blobs.
ghost use Rattle.std.specs.Prelude.{◌≡◌, ◌*◌, [], length, OnOk, IfErr, IsOk};
ghost use Rattle.twkb_tree.specs.Tree.{Tree, IsTree};
ghost use Rattle.twkb_tree.specs.Rows.{rows, row_points};
ghost use Rattle.twkb_io.specs.Sinks.{TookFront};
ghost use Rattle.twkb_grammar.specs.Written.{canonical_blob};
ghost use Rattle.twkb_writer.specs.Sizes.{AreSizes};
ghost use Rattle.twkb_writer.specs.Nodes.{Reads};

use crate::gatherer::Gatherer;
use crate::job::Job;
use crate::piece::Piece;
use crate::rows::put_rows;
use crate::sizes::Sizes;
use twkb_flat::{Flat, Work};
use twkb_grammar::Style;
use twkb_io::Sink;

/// Writes the canonical blob of a flat form in a style; `sizes` must be its sizes in that style.
/// Without rows it returns `Ok`, and the sink gets nothing; after an `Err` the sink got a prefix of
/// the blob. Counts only reads: on `Ok` at most as many of points as there are points, and at most
/// twice as many of nodes as there are nodes. The bytes go through the piece, whatever it holds.
/// Takes no memory itself.
pub fn write_through<S: Sink>(
    flat: &Flat,
    style: Style,
    sizes: &Sizes,
    piece: &mut Piece,
    sink: &mut S,
    work: &mut Work,
) -> Result<(), S::Fault>
    requires { AreSizes style flat.now sizes.now }

    // the blob, or a prefix of it
    ensures ok { OnOk result ((g : Tree) → IsTree g → rows 0 g ≡ flat.now
        → S.took sink.old (canonical_blob style g) sink.new) }
    ensures err { IfErr result (λ fault. (g : Tree) → IsTree g → rows 0 g ≡ flat.now
        → TookFront S.refused sink.old (canonical_blob style g) fault sink.new) }
    ensures nothing { flat.now ≡ [] → (IsOk result) × (sink.new ≡ sink.old) }

    // the work that is counted
    ensures reads { OnOk result (Reads work.old (2 * length flat.now) (length (row_points flat.now)) work.new) }
{
    if flat.is_empty() {
        return Ok(());
    }
    piece.clear();
    let job = Job { flat, style, sizes };
    let mut fault = None;
    let mut gatherer = Gatherer {
        sink,
        piece,
        fault: &mut fault,
    };
    put_rows(&job, &mut gatherer, work);
    gatherer.flush();
    match fault {
        Some(fault) => Err(fault),
        None => Ok(()),
    }
}

/// Writes the canonical blob of a flat form in a style; `sizes` must be its sizes in that style.
/// Without rows it returns `Ok`, and the sink gets nothing; after an `Err` the sink got a prefix of
/// the blob. Counts only reads: on `Ok` at most as many of points as there are points, and at most
/// twice as many of nodes as there are nodes. Takes no memory itself.
pub fn write_flat<S: Sink>(
    flat: &Flat,
    style: Style,
    sizes: &Sizes,
    sink: &mut S,
    work: &mut Work,
) -> Result<(), S::Fault>
    requires { AreSizes style flat.now sizes.now }

    // the blob, or a prefix of it
    ensures ok { OnOk result ((g : Tree) → IsTree g → rows 0 g ≡ flat.now
        → S.took sink.old (canonical_blob style g) sink.new) }
    ensures err { IfErr result (λ fault. (g : Tree) → IsTree g → rows 0 g ≡ flat.now
        → TookFront S.refused sink.old (canonical_blob style g) fault sink.new) }
    ensures nothing { flat.now ≡ [] → (IsOk result) × (sink.new ≡ sink.old) }

    // the work that is counted
    ensures reads { OnOk result (Reads work.old (2 * length flat.now) (length (row_points flat.now)) work.new) }
{
    write_through(flat, style, sizes, &mut Piece::new(), sink, work)
}
