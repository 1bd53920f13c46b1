//! The geometries of a table, one after another.
ghost use Rattle.std.specs.Prelude.{◌≡◌, ◌⊎◌, ◌↔◌, ◌<◌, [], length, None, Ok, Err};
ghost use Rattle.std.specs.Prelude.{true, false, is_err, IfOk, IfErr, IfSome};
ghost use Rattle.twkb_io.specs.Taps.{device_of};

use crate::header::is_header;
use crate::numbered_records::{fault_at, new_reader, next_record, read_next};
use crate::reason::RowReason;
use crate::row_reader::{RowReader, State};
use crate::table_fault::TableFault;
use csv::{ByteRecord, Reader};
use std::alloc::Global;
use std::io::Read;
use std::mem::replace;
use twkb_flat::{Flat, Stop};
use twkb_io::Tap;
use twkb_tree::{Geometry, Limits};

/// The geometries of a table, read from a tap one after another (profile; RFC 4180). Take
/// `next_flat` for rows that are needed only until the next call, and `next` for geometries to
/// keep. If most geometries are points, it is quicker to try `next_point` before each `next_flat`.
#[derive(Drop)]
pub struct TableReader<'a, R> {
    alloc: Global,
    pub(crate) reader: Reader<&'a mut Tap<R>>,
    // The last record read.
    pub(crate) last: ByteRecord,
    // The number of records read after the header.
    pub(crate) number: u32,
    pub(crate) rows: RowReader,
    // The flat form into which `next` reads rows.
    kept: Flat,
}

impl<'a, R: Read> TableReader<'a, R> {
    ghost use Rattle.twkb_table.specs.Waiting.{IsAlone};
    ghost use Rattle.twkb_table.specs.RowReading.{waiting, Keeps};
    ghost use Rattle.twkb_table.specs.TableReading.{StandsAfter, Gives, GivesGeometry, Ends, Faults};
    ghost use Rattle.twkb_table.specs.TableReading.{IsOver, is_ended, is_spent, progress, ReadsGeometry};
    ghost use Rattle.twkb_table.specs.TableReading.{ReadsNextRow, FindsRoot, ReadsHeader, ReadsNextRoot};

    /// Makes a reader of the table that the tap still has, which has read nothing. It refuses a
    /// geometry past the limits when it reads it. Takes no memory.
    pub fn new(alloc: Global, tap: &'a mut Tap<R>, limits: Limits) -> TableReader<'a, R>
        ensures { StandsAfter limits R.remaining (R.remaining (device_of tap.old)) [] [] result }
    {
        TableReader {
            alloc,
            reader: new_reader(alloc, tap),
            last: ByteRecord::new(alloc),
            number: 0,
            rows: RowReader::new(alloc, limits),
            kept: Flat::new(alloc),
        }
    }

    /// Reads the next geometry into a flat form, in place of its rows, and returns whether there
    /// was one. It also reads the next root, so an `Err` may be about that root. The form is empty
    /// after false or an `Err`. An `Err` is a refused record with its number, `TooManyRecords`,
    /// `Source` or `Memory`, and after one each call returns `Spent`. Takes memory for the reader
    /// of `csv`, one record, the open rows, the form, and the points of the next root if its text
    /// has at most 1 MiB.
    pub fn next_flat(&mut self, flat: &mut Flat) -> Result<bool, TableFault>
        ensures gives { IfOk result (λ found. found ≡ true → Gives R.remaining self.old flat.new self.new) }
        ensures ends { IfOk result (λ found. found ≡ false → Ends R.remaining self.old self.new) }
        ensures fault { IfErr result (λ fault. Faults R.remaining self.old fault) }
        ensures cleared { (result ≡ Ok true) ⊎ (flat.new ≡ []) }
        ensures some { result ≡ Ok true → 0 < length flat.new }

        // the end and a refusal are final
        ensures over { IsOver self.old → is_spent self.old ≡ false → result ≡ Ok false }
        ensures ended { result ≡ Ok false → IsOver self.new }
        ensures spent { (result ≡ Err TableFault.Spent) ↔ (is_spent self.old ≡ true) }
        ensures unchanged { IsOver self.old ⊎ (is_spent self.old ≡ true) → self.new ≡ self.old }
        ensures stays { is_spent self.new ≡ is_err result }
    {
        flat.clear();
        if self.is_spent() {
            return Err(TableFault::Spent);
        }
        if self.is_over() {
            return Ok(false);
        }
        match self.read_geometry(flat) {
            Ok(found) => Ok(found),
            Err(fault) => {
                flat.clear();
                Err(fault)
            }
        }
    }

    /// Reads the next geometry as `next_flat` does, with the same faults, and returns it, or `None`
    /// at the table's end. Calls of the two may be mixed. Takes memory as `next_flat` does, and for
    /// the geometry.
    pub fn next(&mut self) -> Result<Option<Geometry>, TableFault>
        ensures gives { IfOk result (λ found. IfSome found
            (λ geometry. GivesGeometry R.remaining self.old geometry self.new)) }
        ensures ends { result ≡ Ok None → Ends R.remaining self.old self.new }
        ensures fault { IfErr result (λ fault. Faults R.remaining self.old fault) }

        // the end and a refusal are final
        ensures over { IsOver self.old → is_spent self.old ≡ false → result ≡ Ok None }
        ensures ended { result ≡ Ok None → IsOver self.new }
        ensures spent { (result ≡ Err TableFault.Spent) ↔ (is_spent self.old ≡ true) }
        ensures unchanged { IsOver self.old ⊎ (is_spent self.old ≡ true) → self.new ≡ self.old }
        ensures stays { is_spent self.new ≡ is_err result }
    {
        if self.is_spent() {
            return Err(TableFault::Spent);
        }
        if self.is_over() {
            return Ok(None);
        }
        let mut flat = replace(&mut self.kept, Flat::new(self.alloc));
        let found = self.next_tree(&mut flat);
        self.kept = flat;
        found
    }

    // Whether the table's end was reached, and all its geometries were returned.
    #[inline(always)]
    fn is_over(&self) -> bool
        ensures { result ≡ is_ended self.now }
    {
        matches!(self.rows.state, State::Over)
    }

    // Whether a call returned an error.
    #[inline(always)]
    pub(crate) fn is_spent(&self) -> bool
        ensures { result ≡ is_spent self.now }
    {
        matches!(self.rows.state, State::Spent)
    }

    // Reads the next geometry into a flat form, in place of its rows, and returns it as a tree;
    // `None` at the table's end. Takes memory. An `Err` is a refused record with its number,
    // `TooManyRecords`, `Source`, `Memory`, for the tree too, or `Spent` after an earlier one; it
    // leaves the reader spent.
    #[inline(never)]
    fn next_tree(&mut self, flat: &mut Flat) -> Result<Option<Geometry>, TableFault>
        ensures gives { IfOk result (λ found. IfSome found
            (λ geometry. GivesGeometry R.remaining self.old geometry self.new)) }
        ensures ends { result ≡ Ok None → Ends R.remaining self.old self.new }
        ensures fault { IfErr result (λ fault. Faults R.remaining self.old fault) }
        ensures ended { result ≡ Ok None → IsOver self.new }
        ensures spent { (result ≡ Err TableFault.Spent) ↔ (is_spent self.old ≡ true) }
        ensures stays { is_spent self.new ≡ is_err result }
    {
        if !self.next_flat(flat)? {
            return Ok(None);
        }
        let Ok(geometry) = flat.to_geometry(self.alloc) else {
            self.rows.stop(State::Spent);
            return Err(TableFault::Memory);
        };
        Ok(Some(geometry))
    }

    // Reads the next geometry into a flat form, which must be empty, and returns whether there was
    // one. The reader must be neither at the end nor spent. Takes memory. An `Err` marks the reader
    // as spent: a refused record with its number, `TooManyRecords`, `Source` or `Memory`; nothing
    // is then known of the form.
    #[inline(always)]
    fn read_geometry(&mut self, flat: &mut Flat) -> Result<bool, TableFault>
        requires more { is_ended self.old ≡ false }
        requires unspent { is_spent self.old ≡ false }
        requires empty { flat.old ≡ [] }
        ensures { ReadsGeometry R.remaining self.old result flat.new self.new }
    {
        if !self.find_root()? {
            return Ok(false);
        }
        match self.rows.begin(&self.last, flat) {
            Ok(()) => {}
            Err(stop) => return Err(fault_at(self.number, stop)),
        }
        while self.next_row(flat)? {}
        Ok(true)
    }

    // Reads the next record after the rows of a flat form, which must be those of the geometry that
    // is being read. Appends a row of that geometry to them and returns true, or returns false if
    // the record is the root of the next geometry, which then waits, or if the table ended. Takes
    // memory. An `Err` marks the reader as spent: a refused record with its number,
    // `TooManyRecords`, `Source` or `Memory`.
    #[inline(always)]
    fn next_row(&mut self, flat: &mut Flat) -> Result<bool, TableFault>
        requires { Keeps self.old.rows flat.old }
        ensures { ReadsNextRow R.remaining (progress self.old) flat.old result flat.new (progress self.new) }
    {
        if !next_record(&mut self.reader, &mut self.last, &mut self.number)? {
            self.rows.stop(State::Over);
            return Ok(false);
        }
        match self.rows.read_row::<R>(&self.last, flat) {
            Ok(more) => Ok(more),
            Err(stop) => Err(fault_at(self.number, stop)),
        }
    }

    // Makes sure that the root of the next geometry waits, and returns whether there is one. If no
    // record was read, reads the header and the first root. The reader must be neither at the end
    // nor spent. Takes memory. An `Err`, as with `read_first`, marks the reader as spent.
    #[inline(always)]
    fn find_root(&mut self) -> Result<bool, TableFault>
        requires more { is_ended self.old ≡ false }
        requires unspent { is_spent self.old ≡ false }
        ensures { FindsRoot R.remaining self.old result self.new }
    {
        match self.rows.state {
            State::Waiting(_) | State::InRecord => Ok(true),
            _ => self.read_first(),
        }
    }

    // Reads the header and the first root, which then waits with its points, since no geometry is
    // before it, and returns whether there is one. No record may have been read before. Takes
    // memory. An `Err` marks the reader as spent: a refused record with its number (1 for the
    // header), `Source` or `Memory`.
    #[inline(never)]
    fn read_first(&mut self) -> Result<bool, TableFault>
        requires { self.old.rows.state ≡ State.Fresh }
        ensures { FindsRoot R.remaining self.old result self.new }
    {
        self.read_header()?;
        self.next_root()
    }

    // Reads the first record of the table. Takes memory. An `Err` is `BadHeader` at record 1 if the
    // record is missing or is not the header, or `Source`. No record may have been read before.
    // Leaves the state `Spent`, also after an `Ok`.
    #[inline(always)]
    fn read_header(&mut self) -> Result<(), TableFault>
        requires { self.old.rows.state ≡ State.Fresh }
        ensures { ReadsHeader R.remaining self.old result self.new }
    {
        self.rows.stop(State::Spent);
        self.number = 0;
        if !read_next(&mut self.reader, &mut self.last)? || !is_header(&self.last) {
            return Err(fault_at(0, Stop::Refused(RowReason::BadHeader)));
        }
        Ok(())
    }

    // Reads the next record as a root, which then waits with its points, and returns whether there
    // is one. No root may wait before but that of a point that is not empty: then too only a root
    // can come next. Takes memory. An `Err` marks the reader as spent: a refused record with its
    // number, `TooManyRecords`, `Source` or `Memory`.
    #[inline(always)]
    pub(crate) fn next_root(&mut self) -> Result<bool, TableFault>
        requires { IsAlone (waiting self.old.rows) }
        ensures { ReadsNextRoot R.remaining (progress self.old) result (progress self.new) }
    {
        match next_record(&mut self.reader, &mut self.last, &mut self.number) {
            Ok(true) => {}
            Ok(false) => {
                self.rows.stop(State::Over);
                return Ok(false);
            }
            Err(fault) => {
                self.rows.stop(State::Spent);
                return Err(fault);
            }
        }
        match self.rows.read_root(&self.last) {
            Ok(()) => Ok(true),
            Err(stop) => Err(fault_at(self.number, stop)),
        }
    }
}
