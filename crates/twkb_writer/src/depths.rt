//! The totals of the rows at each depth, reused from one flat form to the next.
ghost use Rattle.std.specs.Prelude.{◌≡◌, ◌<◌, ◌≤◌, ◌+◌, slice_index_or, slice_set};
ghost use Rattle.twkb_flat.specs.Rows.{row_depth_cap};
ghost use Rattle.twkb_writer.specs.declared.depths.TheConstants.{DEPTHS};
ghost use Rattle.twkb_writer.specs.Totals.{blank};

use crate::totals::RowTotals;
use std::marker::Model;
use twkb_tree::NEST_CAP;

// The number of depths that rows may have, NEST_CAP + 3, and one more below them.
const DEPTHS: usize = NEST_CAP as usize + 4;

/// The totals of the rows at each depth, reused to measure one flat form after another. A
/// contract sees the list of these totals.
#[derive(Drop)]
pub struct Depths {
    by_depth: [RowTotals; DEPTHS],
    // From this depth on there are no rows.
    used: usize,
}

impl Model for Depths {
    ghost use Rattle.std.specs.Prelude.{List};
    ghost use Rattle.twkb_writer.specs.declared.totals.RowTotals.{RowTotals};
    ghost use Rattle.twkb_writer.specs.Depths.{IsBlankFrom};

    ghost Value = { List RowTotals };

    ghost view = { λ d. d.by_depth };

    ghost invariant = { λ d. IsBlankFrom d.used d.by_depth };
}

impl Depths {
    ghost use Rattle.twkb_writer.specs.Depths.{IsBlankFrom};

    /// Makes the totals of no rows at each depth. Takes no memory.
    pub fn new() -> Depths
        ensures { IsBlankFrom 0 result }
    {
        Depths {
            by_depth: [RowTotals::blank(); DEPTHS],
            used: 0,
        }
    }

    // Sets the totals at each depth to those of no rows.
    pub(crate) fn clear(&mut self)
        ensures { IsBlankFrom 0 self.new }
    {
        while self.used > 0 {
            let last = self.used - 1;
            self.by_depth[last] = RowTotals::blank();
            self.used = last;
        }
    }

    // The totals of the rows at a depth, which must be from 0 to 35.
    #[inline(always)]
    pub(crate) fn at(&self, depth: usize) -> &RowTotals
        requires { depth < DEPTHS }
        ensures { result.now ≡ slice_index_or self.now depth blank }
    {
        &self.by_depth[depth]
    }

    // Sets the totals at a depth, which must be from 0 to 35, to those of no rows.
    #[inline(always)]
    fn blank_at(&mut self, depth: usize)
        requires { depth < DEPTHS }
        ensures { self.new ≡ slice_set self.old depth blank }
    {
        if self.used > depth {
            self.by_depth[depth] = RowTotals::blank();
        }
    }

    // Sets the totals of the rows at a depth, which must be from 0 to 34, to `own`, and those at
    // the depth below it to those of no rows.
    #[inline(always)]
    pub(crate) fn put(&mut self, depth: usize, own: RowTotals)
        requires { depth ≤ row_depth_cap }
        ensures { self.new ≡ slice_set (slice_set self.old (depth + 1) blank) depth own }
    {
        self.blank_at(depth + 1);
        self.by_depth[depth] = own;
        if self.used <= depth {
            self.used = depth + 1;
        }
    }
}
