//! A CSV, byte by byte, as the text of the table that it names.
ghost use Rattle.std.specs.Prelude.{◌≡◌, ◌≤◌, ◌<◌, ◌++◌, ◌∷◌, [], length, vec_len, take, drop, OnOk, OnErr, IfOk};
ghost use Rattle.std.specs.Prelude.{false, true};
ghost use Rattle.csv.specs.Machine.{Runs, ends_at_end};
ghost use Rattle.twkb_csv.specs.Machine.{config, state_of};

use crate::column::Column;
use crate::found::Found;
use crate::machine::{Action, State, next_state};
use crate::row_text::{put_header, put_row};
use crate::runs::{plain_length, quoted_length};
use std::alloc::{AllocError, Global};

// How far a CSV was read. Of the header it keeps one byte for each name, and of a record the field
// of the column and that of ids.
#[derive(Drop)]
pub(crate) struct Scan<'a> {
    pub(crate) column: Column<'a>,
    pub(crate) state: State,
    pub(crate) in_header: bool,
    pub(crate) found: Found,
    pub(crate) ids: Found,
    pub(crate) columns: Vec<bool>,
    pub(crate) place: usize,
    pub(crate) field: Vec<u8>,
    pub(crate) id: Vec<u8>,
    ghost in_row: { place ≤ vec_len columns },
}

impl<'a> Scan<'a> {
    ghost use Rattle.twkb_csv.specs.Scan.{GoesOn, action_text, after_record, begin, both_here, field_ended, found_here};
    ghost use Rattle.twkb_csv.specs.Scan.{ids_here, is_id, ran, record_ended, stand_of, stepped, wanted};
    ghost use Rattle.csv.specs.Machine as csv_machine;

    // Makes a scan before the first byte. Takes no memory.
    pub(crate) fn new(alloc: Global, column: Column<'a>) -> Scan<'a>
        ensures begins { stand_of result ≡ begin }
        ensures column { result.column ≡ column.entry }
    {
        Scan {
            column,
            state: State::StartRecord,
            in_header: true,
            found: Found::Absent,
            ids: Found::Absent,
            columns: Vec::new(alloc),
            place: 0,
            field: Vec::new(alloc),
            id: Vec::new(alloc),
        }
    }

    // Whether the bytes of the field at hand are kept.
    #[inline(always)]
    fn is_wanted(&self) -> bool
        ensures { result ≡ wanted (stand_of self.now) }
    {
        if self.in_header {
            return true;
        }
        self.found.is_at(self.place)
    }

    // Whether the bytes of the field at hand are kept as those of the id.
    #[inline(always)]
    fn is_id(&self) -> bool
        ensures { result ≡ is_id (stand_of self.now) }
    {
        !self.in_header && self.ids.is_at(self.place)
    }

    // What is known of the column after the name at hand.
    fn found_here(&self) -> Found
        ensures { result ≡ found_here self.now.column (stand_of self.now) }
    {
        self.found
            .after_name(self.column.name, &self.field, self.columns.len())
    }

    // What is known of the column of ids after the name at hand.
    fn ids_here(&self) -> Found
        ensures { result ≡ ids_here self.now.column (stand_of self.now) }
    {
        match self.column.ids {
            Some(wanted) => self.ids.after_name(wanted, &self.field, self.columns.len()),
            None => self.ids,
        }
    }

    // What is known of both after the name at hand.
    fn both_here(&self) -> Found
        ensures { result ≡ both_here self.now.column (stand_of self.now) }
    {
        match (self.found_here(), self.column.ids) {
            (Found::At(place), Some(_)) => self.ids_here().or_place(place),
            (found, _) => found,
        }
    }

    // Ends the field at hand. Takes memory for a name; if it is refused, nothing changes.
    #[inline(always)]
    fn end_field(&mut self) -> Result<(), AllocError>
        ensures column { self.new.column ≡ self.old.column }
        ensures ok { OnOk result (stand_of self.new ≡ field_ended self.old.column (stand_of self.old)) }
        ensures same { OnErr result (stand_of self.new ≡ stand_of self.old) }
    {
        if self.in_header {
            return self.end_name();
        }
        if self.place < self.columns.len() {
            self.place += 1;
        }
        Ok(())
    }

    // Ends the name at hand, in the header: counts it, keeps whether it is that of the column and
    // that of the column of ids, and begins the next one empty. Takes memory; if it is refused,
    // nothing changes.
    fn end_name(&mut self) -> Result<(), AllocError>
        requires { self.old.in_header ≡ true }
        ensures column { self.new.column ≡ self.old.column }
        ensures ok { OnOk result (stand_of self.new ≡ field_ended self.old.column (stand_of self.old)) }
        ensures same { OnErr result (stand_of self.new ≡ stand_of self.old) }
    {
        let found = self.found_here();
        let ids = self.ids_here();
        self.columns.push(true)?;
        self.found = found;
        self.ids = ids;
        self.field.clear();
        Ok(())
    }

    // Ends the header, which must be at hand, and appends the text that it names. Takes memory; if
    // it is refused, nothing changes.
    fn end_header(&mut self, text: &mut Vec<u8>) -> Result<(), AllocError>
        requires { self.old.in_header ≡ true }
        ensures column { self.new.column ≡ self.old.column }
        ensures ok { OnOk result (stand_of self.new ≡ after_record self.old.column (stand_of self.old)) }
        ensures text { OnOk result (text.new.items
            ≡ text.old.items ++ record_ended self.old.column (stand_of self.old)) }
        ensures same { OnErr result (stand_of self.new ≡ stand_of self.old) }
        ensures none { OnErr result (text.new.items ≡ text.old.items) }
    {
        let found = self.both_here();
        let ids = self.ids_here();
        self.columns.push(true)?;
        if put_header(&self.column, found, text).is_err() {
            let _ = self.columns.pop();
            return Err(AllocError);
        }
        self.found = found;
        self.ids = ids;
        self.in_header = false;
        self.place = 0;
        self.field.clear();
        self.id.clear();
        Ok(())
    }

    // Ends a record after the header, which must be at hand, and appends the text that it names.
    // Takes memory; if it is refused, nothing changes.
    #[inline(always)]
    fn end_row(&mut self, text: &mut Vec<u8>) -> Result<(), AllocError>
        requires { self.old.in_header ≡ false }
        ensures column { self.new.column ≡ self.old.column }
        ensures ok { OnOk result (stand_of self.new ≡ after_record self.old.column (stand_of self.old)) }
        ensures text { OnOk result (text.new.items
            ≡ text.old.items ++ record_ended self.old.column (stand_of self.old)) }
        ensures same { OnErr result (stand_of self.new ≡ stand_of self.old) }
        ensures none { OnErr result (text.new.items ≡ text.old.items) }
    {
        if let Found::At(_) = self.found {
            let is_right = self.columns.len() - self.place == 1;
            put_row(&self.column, is_right, &self.id, &self.field, text)?;
        }
        self.place = 0;
        self.field.clear();
        self.id.clear();
        Ok(())
    }

    // Ends the record at hand, and appends the text that it names. Takes memory; if it is refused,
    // nothing changes.
    #[inline(always)]
    pub(crate) fn end_record(&mut self, text: &mut Vec<u8>) -> Result<(), AllocError>
        ensures column { self.new.column ≡ self.old.column }
        ensures ok { OnOk result (stand_of self.new ≡ after_record self.old.column (stand_of self.old)) }
        ensures text { OnOk result (text.new.items
            ≡ text.old.items ++ record_ended self.old.column (stand_of self.old)) }
        ensures same { OnErr result (stand_of self.new ≡ stand_of self.old) }
        ensures none { OnErr result (text.new.items ≡ text.old.items) }
    {
        if self.in_header {
            self.end_header(text)
        } else {
            self.end_row(text)
        }
    }

    // Whether the end of the CSV here ends a record.
    pub(crate) fn ends_at_end(&self) -> bool
        ensures { result ≡ ends_at_end (state_of self.now.state) }
    {
        match self.state {
            State::StartRecord | State::AfterCr => false,
            _ => true,
        }
    }

    // Keeps bytes of the field at hand, if the field is wanted. Takes memory; if it is refused,
    // nothing changes.
    #[inline(always)]
    fn keep(&mut self, bytes: &[u8]) -> Result<(), AllocError>
        ensures column { self.new.column ≡ self.old.column }
        ensures ok { OnOk result (stand_of self.new ≡ ran (stand_of self.old) bytes.now) }
        ensures same { OnErr result (stand_of self.new ≡ stand_of self.old) }
    {
        let start = self.id.len();
        if self.is_id() {
            self.id.extend_from_slice(bytes)?;
        }
        if self.is_wanted() && self.field.extend_from_slice(bytes).is_err() {
            self.id.truncate(start);
            return Err(AllocError);
        }
        Ok(())
    }

    // Takes the next byte. Takes memory; if it is refused, nothing changes.
    #[inline(always)]
    fn take_byte(&mut self, byte: u8, text: &mut Vec<u8>) -> Result<(), AllocError>
        ensures column { self.new.column ≡ self.old.column }
        ensures ok { OnOk result (stand_of self.new ≡ stepped self.old.column (stand_of self.old) byte) }
        ensures text { OnOk result (text.new.items
            ≡ text.old.items ++ action_text self.old.column (stand_of self.old)
            (csv_machine.step (config self.old.column.delimiter) (state_of self.old.state) byte).1) }
        ensures same { OnErr result (stand_of self.new ≡ stand_of self.old) }
        ensures none { OnErr result (text.new.items ≡ text.old.items) }
    {
        let (state, action) = next_state(self.state, byte, self.column.delimiter);
        match action {
            Action::Skip => {}
            Action::Copy => self.keep(&[byte])?,
            Action::EndField => self.end_field()?,
            Action::EndRecord => self.end_record(text)?,
        }
        self.state = state;
        Ok(())
    }

    // The number of bytes, from the first on, that are known to only join the field at hand.
    #[inline(always)]
    fn run_length(&self, bytes: &[u8]) -> usize
        ensures within { result ≤ length bytes.now }
        ensures joins { Runs (config self.now.column.delimiter) (state_of self.now.state) (take result bytes.now) }
    {
        match self.state {
            State::InField => plain_length(bytes, self.column.delimiter),
            State::InQuoted => quoted_length(bytes, self.column.delimiter),
            _ => 0,
        }
    }

    // Takes the bytes that are known to only join the field at hand, and returns their number.
    // Takes memory; if it is refused, nothing changes.
    #[inline(always)]
    fn take_run(&mut self, bytes: &[u8]) -> Result<usize, AllocError>
        ensures column { self.new.column ≡ self.old.column }
        ensures within { IfOk result (λ n. n ≤ length bytes.now) }
        ensures joins { IfOk result (λ n. Runs (config self.old.column.delimiter) (state_of self.old.state)
            (take n bytes.now)) }
        ensures ok { IfOk result (λ n. stand_of self.new ≡ ran (stand_of self.old) (take n bytes.now)) }
        ensures same { OnErr result (stand_of self.new ≡ stand_of self.old) }
    {
        let length = self.run_length(bytes);
        self.keep(&bytes[..length])?;
        Ok(length)
    }

    // Takes some bytes from a place on, which must be before their end, and moves the place past
    // those that were taken. Takes memory; if it is refused, what was taken before stays so.
    #[inline(always)]
    fn take_some(
        &mut self,
        bytes: &[u8],
        at: &mut usize,
        text: &mut Vec<u8>,
    ) -> Result<(), AllocError>
        requires { at.old < length bytes.now }
        ensures column { self.new.column ≡ self.old.column }
        ensures within { at.new ≤ length bytes.now }
        ensures more { OnOk result (at.old < at.new) }
        ensures goes { GoesOn self.old.column (stand_of self.old) text.old.items (drop at.old bytes.now)
            (stand_of self.new) text.new.items (drop at.new bytes.now) }
    {
        let count = self.take_run(&bytes[*at..])?;
        *at += count;
        if *at < bytes.len() {
            self.take_byte(bytes[*at], text)?;
            *at += 1;
        }
        Ok(())
    }

    // Takes the bytes from a place on, and moves the place past those that were taken. Takes
    // memory; if it is refused, what was taken before stays so.
    pub(crate) fn take_all(
        &mut self,
        bytes: &[u8],
        at: &mut usize,
        text: &mut Vec<u8>,
    ) -> Result<(), AllocError>
        requires { at.old ≤ length bytes.now }
        ensures column { self.new.column ≡ self.old.column }
        ensures within { at.new ≤ length bytes.now }
        ensures all { OnOk result (at.new ≡ length bytes.now) }
        ensures goes { GoesOn self.old.column (stand_of self.old) text.old.items (drop at.old bytes.now)
            (stand_of self.new) text.new.items (drop at.new bytes.now) }
    {
        while *at < bytes.len() {
            self.take_some(bytes, at, text)?;
        }
        Ok(())
    }
}
