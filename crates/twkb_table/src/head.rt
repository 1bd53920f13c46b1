//! A row that was read except for its points.
use crate::places::refused_count;
use crate::reason::RowReason;
use twkb_flat::{PointSource, Row, Stop};
use twkb_points::{PointTail, Pt};
use twkb_polyline::{PolyFault, count_points, decode_into, decode_one};
use twkb_tree::row_rules::has_points;
use twkb_tree::{Kind, Limits, RowPlace};

// A row that was read except for its points: its place, its fields, and the text of its points.
#[derive(Clone, Copy)]
pub(crate) struct RowHead<'a> {
    pub(crate) limits: Limits,
    pub(crate) row_place: RowPlace,
    pub(crate) kind: Kind,
    pub(crate) id: Option<i64>,
    pub(crate) precision: Option<i8>,
    pub(crate) text: &'a [u8],
}

impl RowHead<'_> {
    ghost use Rattle.std.specs.Prelude.{◌≡◌, ◌↔◌, ◌∷◌, [], IfSome, IsTrue, OnOk, IfErr};
    ghost use Rattle.twkb_flat.specs.Taking.{IfRefused};
    ghost use Rattle.twkb_flat.specs.Rows.{row_with};
    ghost use Rattle.twkb_table.specs.Judged.{Accepted, Refused};
    ghost use Rattle.twkb_table.specs.Head.{head_row, HasNeedlessText, IsAccepted, JudgedAs};

    // The row without its points.
    #[inline(always)]
    pub(crate) fn row(&self) -> Row
        ensures { result ≡ head_row self.now }
    {
        Row {
            depth: self.row_place.depth,
            kind: self.kind,
            id: self.id,
            precision: self.precision,
        }
    }

    // Whether the row's kind has no points, but its text is not empty.
    #[inline(always)]
    fn has_needless_text(&self) -> bool
        ensures { IsTrue result ↔ HasNeedlessText self.now }
    {
        !self.text.is_empty() && !has_points(self.kind)
    }

    // Fast path: the point of a row of kind point whose text is exactly one point, if its place
    // allows a point and the limits leave room for it. `None` does not say that the row is refused.
    #[inline(always)]
    #[tactic(auto, using(crate::proofs::RowReaderLemmas::one_judged))]
    fn one_point(&self) -> Option<Pt>
        ensures { IfSome result (λ point. JudgedAs self.now (Accepted (row_with (head_row self.now) (point ∷ [])))) }
    {
        if self.kind != Kind::Point
            || self.limits.points() <= self.row_place.points
            || refused_count(&self.row_place, self.kind, 1).is_some()
        {
            return None;
        }
        decode_one(self.text)
    }

    // Judges the points of the row as `append_to` does, but keeps none: `room` is for a few of them
    // at a time, in place of those in it. An `Err` is the first reason against them, or want of
    // memory for these few.
    #[inline(always)]
    pub(crate) fn judge_points(&self, room: &mut Vec<Pt>) -> Result<(), Stop<RowReason>>
        ensures accepted { OnOk result (IsAccepted self.now) }
        ensures refused { IfErr result (IfRefused (λ reason. JudgedAs self.now (Refused reason))) }
    {
        if self.has_needless_text() {
            return Err(Stop::Refused(RowReason::PolylineNotAllowed));
        }
        let left = self.limits.points().saturating_sub(self.row_place.points);
        let count = match count_points(self.text, left, room) {
            Ok(count) => count,
            Err(PolyFault::Memory) => return Err(Stop::Memory),
            Err(PolyFault::At { offset, reason }) => {
                return Err(Stop::Refused(RowReason::Polyline(offset, reason)));
            }
        };
        match refused_count(&self.row_place, self.kind, count) {
            Some(reason) => Err(Stop::Refused(reason)),
            None => Ok(()),
        }
    }
}

impl PointSource for RowHead<'_> {
    ghost use Rattle.twkb_flat.specs.Rows.{row_with};
    ghost use Rattle.twkb_flat.specs.Taking.{IfRefused};
    ghost use Rattle.twkb_table.specs.Judged.{Accepted, Refused};
    ghost use Rattle.twkb_table.specs.Head.{head_row, JudgedAs};

    type Fault = Stop<RowReason>;

    ghost gives = { λ head own. JudgedAs head (Accepted (row_with (head_row head) own)) };

    ghost refuses = { λ head. IfRefused (λ reason. JudgedAs head (Refused reason)) };

    #[inline(always)]
    fn append_to<L: PointTail>(&self, points: &mut L) -> Result<(), Stop<RowReason>> {
        if let Some(point) = self.one_point() {
            return match points.put(point) {
                Ok(()) => Ok(()),
                Err(_) => Err(Stop::Memory),
            };
        }
        if self.has_needless_text() {
            return Err(Stop::Refused(RowReason::PolylineNotAllowed));
        }
        let left = self.limits.points().saturating_sub(self.row_place.points);
        let start = points.count();
        match decode_into(self.text, left, points) {
            Ok(()) => {}
            Err(PolyFault::Memory) => return Err(Stop::Memory),
            Err(PolyFault::At { offset, reason }) => {
                return Err(Stop::Refused(RowReason::Polyline(offset, reason)));
            }
        }
        if let Some(reason) = refused_count(&self.row_place, self.kind, points.count() - start) {
            points.cut(start);
            return Err(Stop::Refused(reason));
        }
        Ok(())
    }

    #[inline(always)]
    fn want_of_memory(&self) -> Stop<RowReason> {
        Stop::Memory
    }
}
