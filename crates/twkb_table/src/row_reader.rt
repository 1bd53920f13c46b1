//! Rows of a table, read into the flat form one geometry after another.
ghost use Rattle.std.specs.Prelude.{◌≡◌, List, [], ◌∷◌, true, OnOk, OnErr, IfErr, IfSome, IsSome};
ghost use Rattle.csv.specs.Records.{fields_of};
ghost use Rattle.twkb_tree.specs.Limits.{IsAllowance};
ghost use Rattle.twkb_table.specs.Head.{JudgedAs, JudgedBy, head_row};
ghost use Rattle.twkb_table.specs.Judged.{Accepted, Refused};
ghost use Rattle.twkb_table.specs.Waiting.{may_wait, point_row, IsAlone, IsPoint};
ghost use Rattle.twkb_flat.specs.Rows.{row_with};
ghost use Rattle.twkb_flat.specs.Taking.{IfRefused};
ghost use Rattle.twkb_points.specs.Point.{Point};
ghost use Rattle.twkb_tree.specs.Admits.{Continues};

use crate::head::RowHead;
use crate::open_rows::OpenRows;
use crate::reason::RowReason;
use crate::record_verdict::{judge, judge_head};
use csv::ByteRecord;
use std::alloc::Global;
use twkb_flat::{Flat, PointSource, Row, Stop};
use twkb_points::Pt;
use twkb_tree::{Kind, Limits};

// The most bytes of a root's text that is decoded while the geometry before it is still in the flat
// form. A longer one is judged first, without its points being kept, and decoded when that geometry
// was given back. To judge it takes a fifth more instructions (21 in 100, for a line of two
// characters a point), but two lines of 4,000,000 points take 72 MB in place of 134. A point has
// two characters or more, so those of a text of this length take at most 8 MiB.
pub(crate) const LONGEST_KEPT: usize = 1 << 20;

// The root of the next geometry, kept until the call that returns that geometry. A root is at depth
// 0 and has no id.
#[derive(Clone, Copy)]
pub(crate) struct Root {
    pub(crate) kind: Kind,
    pub(crate) precision: Option<i8>,
}

// How far the rows of a table were read.
#[derive(Clone, Copy)]
pub(crate) enum State {
    // No record was read.
    Fresh,
    // The root of the next geometry was read, and waits.
    Waiting(Root),
    // The root of the next geometry was judged, and waits in its record, whose text is long.
    InRecord,
    // The table's end was reached, and all its geometries were returned.
    Over,
    // A header or a geometry is being read, or a call returned an error.
    Spent,
}

// A reader of rows: the open rows of the geometry that it reads, and the root of the next geometry
// while that waits, with its points in a buffer that all roots share.
#[derive(Drop)]
pub(crate) struct RowReader {
    pub(crate) limits: Limits,
    pub(crate) open_rows: OpenRows,
    pub(crate) state: State,
    pub(crate) points: Vec<Pt>,
    ghost sound: { IsAllowance limits },
    ghost waits: { may_wait limits state points.items ≡ true },
}

// Whether a root is to wait in its record. A point is not: a text so long is not that of one, so it
// is refused. The kind is tested first, since most texts are those of points.
#[inline(always)]
fn is_long(head: &RowHead) -> bool {
    head.kind != Kind::Point && head.text.len() > LONGEST_KEPT
}

impl RowReader {
    ghost use Rattle.twkb_table.specs.RowReading.{limits_of, waiting, JudgedAfter};
    ghost use Rattle.twkb_table.specs.RowReading.{Keeps, KeepsRoot, ReadsRoot, ReadsRow};

    // Makes a reader that has read no row, and refuses a geometry past these limits when it reads
    // it. Takes no memory.
    pub(crate) fn new(alloc: Global, limits: Limits) -> RowReader
        ensures limits { limits_of result ≡ limits }
        ensures fresh { result.state ≡ State.Fresh }
    {
        RowReader {
            limits,
            open_rows: OpenRows::new(alloc),
            state: State::Fresh,
            points: Vec::new(alloc),
        }
    }

    // Sets the state, which must be `Over` or `Spent`.
    #[inline(always)]
    pub(crate) fn stop(&mut self, state: State)
        requires none { (root : Root) → state ≡ State.Waiting root → ⊥ }
        ensures state { self.new.state ≡ state }
        ensures limits { limits_of self.new ≡ limits_of self.old }
    {
        self.state = state;
    }

    // Reads a record as the root of the next geometry, which then waits with its points, however long
    // its text is. Before, no root may wait but that of a point that is not empty, so that no row can
    // be its child. Takes memory. An `Err` is the first reason to refuse the record, or want of memory
    // for its points, and makes the state `Spent`.
    #[inline(always)]
    pub(crate) fn read_root(&mut self, csv_record: &ByteRecord) -> Result<(), Stop<RowReason>>
        requires { IsAlone (waiting self.old) }
        ensures root { ReadsRoot self.old (fields_of csv_record.now) result self.new }
        ensures limits { limits_of self.new ≡ limits_of self.old }
    {
        self.state = State::Spent;
        let row = judge(&self.limits, &[], 0, 0, csv_record, &mut self.points)?;
        self.state = State::Waiting(Root {
            kind: row.kind,
            precision: row.precision,
        });
        Ok(())
    }

    // Lets a root wait: in its record if it `is_long`, otherwise with its points. Takes memory. An
    // `Err` is the first reason to refuse its points, or want of memory.
    #[inline(always)]
    fn keep_root(&mut self, head: &RowHead) -> Result<(), Stop<RowReason>>
        requires spent { self.old.state ≡ State.Spent }
        requires begins { (own : List Point) → JudgedAs head.now (Accepted (row_with (head_row head.now) own))
            → Continues (limits_of self.old) [] (row_with (head_row head.now) own) }
        ensures kept { OnOk result (KeepsRoot head.now self.new) }
        ensures refused { IfErr result (IfRefused (λ reason. JudgedAs head.now (Refused reason))) }
        ensures state { OnErr result (self.new.state ≡ State.Spent) }
        ensures limits { limits_of self.new ≡ limits_of self.old }
    {
        if is_long(head) {
            head.judge_points(&mut self.points)?;
            self.state = State::InRecord;
            return Ok(());
        }
        self.points.clear();
        head.append_to(&mut self.points)?;
        let row = head.row();
        self.state = State::Waiting(Root {
            kind: row.kind,
            precision: row.precision,
        });
        Ok(())
    }

    // The precision and the point of the root that waits, if it is a point that is not empty; else
    // `None`.
    #[inline(always)]
    pub(crate) fn waiting_point(&self) -> Option<(i8, Pt)>
        ensures point { IfSome result (λ found. waiting self.now ≡ point_row found.0 found.1 ∷ []) }
        ensures some { IsPoint (waiting self.now) → IsSome result }
    {
        let State::Waiting(root) = self.state else {
            return None;
        };
        let precision = root.precision?;
        if root.kind == Kind::Point && self.points.len() == 1 {
            Some((precision, self.points[0]))
        } else {
            None
        }
    }

    // Reads a record after the rows of a flat form, which must be those that `begin` and earlier
    // calls put there. Appends a row of the same geometry to them and returns true, or keeps the
    // root of the next geometry, which then waits, and returns false. Takes memory. An `Err` is the
    // first reason to refuse the record, or want of memory; after it nothing is known of the form.
    // `R` is the reader's type: a copy for each is inlined, since it has one caller.
    #[inline(always)]
    pub(crate) fn read_row<R>(
        &mut self,
        csv_record: &ByteRecord,
        flat: &mut Flat,
    ) -> Result<bool, Stop<RowReason>>
        requires { Keeps self.old flat.old }
        ensures row { ReadsRow self.old flat.old (fields_of csv_record.now) result self.new flat.new }
        ensures limits { limits_of self.new ≡ limits_of self.old }
    {
        let head = match self.judge_next(csv_record, flat) {
            Ok(head) => head,
            Err(reason) => return Err(Stop::Refused(reason)),
        };
        let row = head.row();
        if row.depth == 0 {
            self.keep_root(&head)?;
            return Ok(false);
        }
        flat.push_from(row, &head)?;
        let Ok(()) = self.open_rows.open_row(&row) else {
            return Err(Stop::Memory);
        };
        Ok(true)
    }

    // Judges a record, except for its points, after the rows of a flat form, which must be those of
    // the open geometry: returns its row, or the first reason to refuse it.
    #[inline(always)]
    fn judge_next<'a>(
        &self,
        csv_record: &'a ByteRecord,
        flat: &Flat,
    ) -> Result<RowHead<'a>, RowReason>
        requires { Keeps self.now flat.now }
        ensures { JudgedBy (JudgedAfter (limits_of self.now) flat.now (fields_of csv_record.now)) result }
    {
        let nodes = flat.node_count();
        let count = flat.point_count();
        judge_head(
            &self.limits,
            self.open_rows.as_slice(),
            nodes,
            count,
            csv_record,
        )
    }
}
