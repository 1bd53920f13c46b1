//! Characters gathered on the stack, and moved to the text when their piece is full.
ghost use Rattle.std.specs.Prelude.{◌≡◌, ◌≤◌, ◌+◌, ◌++◌, [], length, OnOk, OnErr};
ghost use Rattle.twkb_geojson.specs.Text.{Grows};

use std::alloc::AllocError;
use twkb_num::Piece;

// Appends the characters that the piece holds to the text, and empties the piece; changes nothing
// if memory is refused.
#[inline(always)]
pub(crate) fn flush(piece: &mut Piece<256>, text: &mut Vec<u8>) -> Result<(), AllocError>
    ensures appended { OnOk result (text.new.items ≡ text.old.items ++ piece.old) }
    ensures emptied { OnOk result (piece.new ≡ []) }
    ensures same { OnErr result (text.new.items ≡ text.old.items) }
{
    text.extend_from_slice(piece.as_slice())?;
    piece.clear();
    Ok(())
}

// Makes room in the piece for `count` more characters, at most 256: if it has too little, moves the
// characters that it holds to the text. Changes nothing if memory is refused.
#[inline(always)]
pub(crate) fn make_room(
    count: usize,
    piece: &mut Piece<256>,
    text: &mut Vec<u8>,
) -> Result<(), AllocError>
    requires { count ≤ 256 }
    ensures held { OnOk result (text.new.items ++ piece.new ≡ text.old.items ++ piece.old) }
    ensures room { OnOk result (length piece.new + count ≤ 256) }
    ensures grown { Grows text.old.items text.new.items }
{
    if !piece.has_room(count) {
        return flush(piece, text);
    }
    Ok(())
}
