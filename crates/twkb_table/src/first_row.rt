//! The first row of a geometry, from the root that waited.
ghost use Rattle.std.specs.Prelude.{◌≡◌, ◌<◌, List, [], length, true, OnOk, IfErr};
ghost use Rattle.csv.specs.Records.{fields_of};
ghost use Rattle.twkb_tree.specs.Rows.{Row as TableRow};
ghost use Rattle.twkb_flat.specs.Taking.{IfRefused};
ghost use Rattle.twkb_table.specs.Waiting.{IsOfRoot, has_its_points, is_waiting};

use crate::reason::RowReason;
use crate::record_verdict::judge_head;
use crate::row_reader::{RowReader, State};
use csv::ByteRecord;
use std::alloc::AllocError;
use twkb_flat::{Flat, Row, Stop};

impl RowReader {
    ghost use Rattle.twkb_table.specs.RowReading.{limits_of, waiting, Awaits, Keeps};

    // Moves the root that waits, of which there must be one, into a flat form, which must be empty;
    // its geometry is then being read. The root's points are decoded now if it waits in its record,
    // which must be the one given. Takes memory. An `Err` is want of memory; after it nothing is
    // known of the form.
    #[inline(always)]
    pub(crate) fn begin(
        &mut self,
        csv_record: &ByteRecord,
        flat: &mut Flat,
    ) -> Result<(), Stop<RowReason>>
        requires waits { is_waiting self.old.state ≡ true }
        requires empty { flat.old ≡ [] }
        ensures put { OnOk result ((rows : List TableRow) → Awaits self.old (fields_of csv_record.now) rows
            → rows ≡ flat.new) }
        ensures keeps { OnOk result (Keeps self.new flat.new) }
        ensures memory { IfErr result (IfRefused (λ reason. (rows : List TableRow)
            → Awaits self.old (fields_of csv_record.now) rows → ⊥)) }
        ensures state { self.new.state ≡ State.Spent }
        ensures limits { limits_of self.new ≡ limits_of self.old }
    {
        if self.has_its_points() {
            return match self.begin_kept(flat) {
                Ok(()) => Ok(()),
                Err(_) => Err(Stop::Memory),
            };
        }
        match self.begin_decoded(csv_record, flat) {
            Ok(()) => Ok(()),
            Err(stop) => Err(stop),
        }
    }

    // Whether a root waits with its points.
    #[inline(always)]
    fn has_its_points(&self) -> bool
        ensures { result ≡ has_its_points self.now.state }
    {
        matches!(self.state, State::Waiting(_))
    }

    // Does what `begin` does for a root that waits with its points.
    #[inline(always)]
    fn begin_kept(&mut self, flat: &mut Flat) -> Result<(), AllocError>
        requires waits { 0 < length (waiting self.old) }
        ensures put { OnOk result (flat.new ≡ waiting self.old) }
        ensures keeps { OnOk result (Keeps self.new flat.new) }
        ensures state { self.new.state ≡ State.Spent }
        ensures limits { limits_of self.new ≡ limits_of self.old }
    {
        let State::Waiting(root) = self.state else {
            unreachable!()
        };
        self.state = State::Spent;
        let row = Row {
            depth: 0,
            kind: root.kind,
            id: None,
            precision: root.precision,
        };
        self.open_rows.open_row(&row)?;
        flat.begin(row, &mut self.points)?;
        Ok(())
    }

    // Does what `begin` does for a root that waits in its record.
    #[cold]
    #[inline(never)]
    fn begin_decoded(
        &mut self,
        csv_record: &ByteRecord,
        flat: &mut Flat,
    ) -> Result<(), Stop<RowReason>>
        requires empty { flat.old ≡ [] }
        ensures put { OnOk result ((rows : List TableRow)
            → IsOfRoot (limits_of self.old) (fields_of csv_record.now) rows → rows ≡ flat.new) }
        ensures keeps { OnOk result (Keeps self.new flat.new) }
        ensures memory { IfErr result (IfRefused (λ reason. (rows : List TableRow)
            → IsOfRoot (limits_of self.old) (fields_of csv_record.now) rows → ⊥)) }
        ensures state { self.new.state ≡ State.Spent }
        ensures limits { limits_of self.new ≡ limits_of self.old }
    {
        self.state = State::Spent;
        let head = match judge_head(&self.limits, &[], 0, 0, csv_record) {
            Ok(head) => head,
            Err(reason) => return Err(Stop::Refused(reason)),
        };
        let row = head.row();
        flat.push_from(row, &head)?;
        let Ok(()) = self.open_rows.open_row(&row) else {
            return Err(Stop::Memory);
        };
        Ok(())
    }
}
