//! Roots that are points, given without a flat form.
ghost use Rattle.std.specs.Prelude.{◌≡◌, ◌↔◌, ◌≢◌, [], ◌∷◌, None, Ok, Err};
ghost use Rattle.std.specs.Prelude.{true, false, is_err, IfOk, IfErr, IfSome, IsTrue};

use crate::table_fault::TableFault;
use crate::table_reader::TableReader;
use std::io::Read;
use twkb_points::Pt;

impl<'a, R: Read> TableReader<'a, R> {
    ghost use Rattle.twkb_table.specs.TableReading.{Gives, Faults, HasPoint, is_spent};
    ghost use Rattle.twkb_table.specs.Waiting.{point_row};

    /// Whether the next geometry is known to be a point that is not empty, which `next_point`
    /// gives: its row was read when the geometry before it was returned. False after an `Err`.
    /// Takes no memory.
    #[inline(always)]
    pub fn has_point(&self) -> bool
        ensures { IsTrue result ↔ HasPoint self.now }
    {
        self.rows.waiting_point().is_some()
    }

    /// Fast path: if `has_point`, returns the precision and the point of the next geometry, after
    /// the next root was accepted or the table ended, as `next_flat` does; else `None`, reading
    /// nothing. Calls of both may be mixed. An `Err` is as with `next_flat`, and after it each call
    /// returns `Spent`. Takes memory for the reader of `csv`, one record, and the points of the
    /// next root if its text has at most 1 MiB.
    #[inline(always)]
    pub fn next_point(&mut self) -> Result<Option<(i8, Pt)>, TableFault>
        ensures gives { IfOk result (λ found. IfSome found
            (λ point. Gives R.remaining self.old (point_row point.0 point.1 ∷ []) self.new)) }
        ensures fault { IfErr result (λ fault. Faults R.remaining self.old fault) }
        ensures some { HasPoint self.old → result ≢ Ok None }
        ensures other { is_spent self.old ≡ false → (HasPoint self.old → ⊥) → result ≡ Ok None }

        // what stays
        ensures none { result ≡ Ok None → self.new ≡ self.old }
        ensures spent { (result ≡ Err TableFault.Spent) ↔ (is_spent self.old ≡ true) }
        ensures unchanged { is_spent self.old ≡ true → self.new ≡ self.old }
        ensures stays { is_spent self.new ≡ is_err result }
    {
        let is_spent = self.is_spent();
        if is_spent {
            return Err(TableFault::Spent);
        }
        let Some((precision, point)) = self.rows.waiting_point() else {
            return Ok(None);
        };
        match self.next_root() {
            Ok(_) => Ok(Some((precision, point))),
            Err(fault) => Err(fault),
        }
    }
}
