//! A reader that gives the text of the table that a CSV names.
ghost use Rattle.std.specs.Prelude.{◌≡◌, ◌≤◌, ◌<◌, length, vec_len, [], take, false};
ghost use Rattle.std.specs.Io.{ReadsAtMost};
ghost use Rattle.std.specs.Io.KnownBytes.{Consumes, IsAtEnd, Keeps, ReadConsumes};

use crate::column::Column;
use crate::scan::Scan;
use std::alloc::Global;
use std::io;
use std::io::{ErrorKind, Read};

// The number of bytes of the CSV that are held at a time.
const HELD: usize = 8192;

/// A reader that gives the text of the table that a CSV names. Takes memory for a byte for each
/// name of the header, for one field of the column, and for the text of some records.
#[derive(Drop)]
pub struct ColumnReader<'a, R: Read> {
    reader: R,
    scan: Scan<'a>,
    held: [u8; HELD],
    at: usize,
    filled: usize,
    text: Vec<u8>,
    sent: usize,
    ended: bool,
    ghost in_order: { at ≤ filled },
    ghost in_array: { filled ≤ length held },
    ghost in_text: { sent ≤ vec_len text },
}

// Copies the first bytes of a text: as many as there is room for, and returns their number.
fn copy_front(text: &[u8], buf: &mut [u8]) -> usize
    ensures within { result ≤ length text.now }
    ensures room { result ≤ length buf.new }
    ensures copied { take result buf.new ≡ take result text.now }
    ensures none { result ≡ 0 → 0 < length buf.new → text.now ≡ [] }
{
    let count = text.len().min(buf.len());
    buf[..count].copy_from_slice(&text[..count]);
    count
}

impl<'a, R: Read> ColumnReader<'a, R> {
    ghost use Rattle.twkb_csv.specs.Reading.{fresh_text, left_of, pending_of, under};

    /// Makes a reader of the table that the bytes of a reader name. Reads nothing yet, and takes no
    /// memory.
    pub fn new(alloc: Global, reader: R, column: Column<'a>) -> ColumnReader<'a, R>
        ensures text { left_of (R.remaining (under result)) result
            ≡ fresh_text column.entry (R.remaining reader) }
    {
        ColumnReader {
            reader,
            scan: Scan::new(alloc, column),
            held: [0; HELD],
            at: 0,
            filled: 0,
            text: Vec::new(alloc),
            sent: 0,
            ended: false,
        }
    }

    // Reads more bytes in place of those held, which must be used up as the text is; at the end of
    // the CSV ends the text.
    fn read_more(&mut self) -> io::Result<()>
        requires used { self.old.at ≡ self.old.filled }
        requires given { pending_of self.old ≡ [] }
        requires goes { self.old.ended ≡ false }
        ensures { Keeps (left_of (R.remaining (under self.old)) self.old)
            (left_of (R.remaining (under self.new)) self.new) }
    {
        self.text.clear();
        self.sent = 0;
        self.at = 0;
        self.filled = 0;
        let count = self.reader.read(&mut self.held)?;
        self.filled = count;
        if count == 0 {
            return self.end_text();
        }
        Ok(())
    }

    // Ends the text at the end of the CSV: no bytes may be held, and no text.
    fn end_text(&mut self) -> io::Result<()>
        requires used { self.old.at ≡ self.old.filled }
        requires given { self.old.text.items ≡ [] }
        requires sent { self.old.sent ≡ 0 }
        requires goes { self.old.ended ≡ false }
        requires end { IsAtEnd (R.remaining (under self.old)) }
        ensures { Keeps (left_of (R.remaining (under self.old)) self.old)
            (left_of (R.remaining (under self.new)) self.new) }
    {
        if !self.scan.ends_at_end() {
            self.ended = true;
            return Ok(());
        }
        match self.scan.end_record(&mut self.text) {
            Ok(()) => {
                self.ended = true;
                Ok(())
            }
            Err(_) => Err(ErrorKind::OutOfMemory.into()),
        }
    }

    // Makes text of the bytes that are held; no text may be left.
    fn scan_held(&mut self) -> io::Result<()>
        requires given { pending_of self.old ≡ [] }
        requires goes { self.old.ended ≡ false }
        ensures { Keeps (left_of (R.remaining (under self.old)) self.old)
            (left_of (R.remaining (under self.new)) self.new) }
    {
        self.text.clear();
        self.sent = 0;
        let taken = self
            .scan
            .take_all(&self.held[..self.filled], &mut self.at, &mut self.text);
        match taken {
            Ok(()) => Ok(()),
            Err(_) => Err(ErrorKind::OutOfMemory.into()),
        }
    }

    // Gives text that was made: as much as there is room for, and returns its length.
    fn give(&mut self, buf: &mut [u8]) -> usize
        ensures within { result ≤ length buf.new }
        ensures gives { Consumes (left_of (R.remaining (under self.old)) self.old)
            (left_of (R.remaining (under self.new)) self.new) (take result buf.new) }
        ensures none { result ≡ 0 → 0 < length buf.new → vec_len self.old.text ≤ self.old.sent }
        ensures end { result ≡ 0 → 0 < length buf.new → pending_of self.new ≡ [] }
        ensures ended { self.new.ended ≡ self.old.ended }
    {
        let count = copy_front(&self.text[self.sent..], buf);
        self.sent += count;
        count
    }
}

impl<R: Read> Read for ColumnReader<'_, R> {
    ghost use Rattle.twkb_csv.specs.Reading.{left_of, under};

    ghost remaining = { λ r. left_of (R.remaining (under r)) r };

    fn read(&mut self, buf: &mut [u8]) -> io::Result<usize>
        ensures bound { ReadsAtMost result buf.new }
        ensures bytes { ReadConsumes (left_of (R.remaining (under self.old)) self.old)
            (left_of (R.remaining (under self.new)) self.new) result buf.new }
    {
        for turn in 0..u64::MAX {
            if self.sent < self.text.len() || self.ended {
                return Ok(self.give(buf));
            }
            if self.at < self.filled {
                self.scan_held()?;
            } else {
                self.read_more()?;
            }
        }
        Err(ErrorKind::Other.into())
    }
}
