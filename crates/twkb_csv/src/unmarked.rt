//! A reader without the byte order mark before its bytes.
ghost use Rattle.std.specs.Prelude.{◌≡◌, ◌≤◌, ◌<◌, ◌+◌, IfOk, OnOk, length, false, true, option_map, take};
ghost use Rattle.std.specs.Io.{ReadsAtMost};
ghost use Rattle.std.specs.Io.KnownBytes.{Consumes, IsAtEnd, Keeps, ReadConsumes};
ghost use Rattle.csv.specs.Reading.{is_bom, strip_bom};

use std::io;
use std::io::Read;

// The byte order mark, U+FEFF in UTF-8.
const MARK: [u8; 3] = [0xEF, 0xBB, 0xBF];

/// A reader that gives the bytes of another one, but for a byte order mark before them (RFC 3629).
/// Takes no memory itself.
#[derive(Drop)]
pub struct Unmarked<R: Read> {
    reader: R,
    start: [u8; 3],
    at: usize,
    filled: usize,
    begun: bool,
    ghost in_order: { at ≤ filled },
    ghost in_array: { filled ≤ 3 },
    ghost first: { begun ≡ false → at ≡ 0 },
}

// Whether three bytes are the mark.
fn is_mark(first: u8, second: u8, third: u8) -> bool
    ensures { result ≡ is_bom first second third }
{
    first == MARK[0] && second == MARK[1] && third == MARK[2]
}

impl<R: Read> Unmarked<R> {
    ghost use Rattle.twkb_csv.specs.Marks.{mark_length, marked_of, unmarked_of};

    /// Wraps a reader of which nothing was read. Reads nothing yet.
    pub fn new(reader: R) -> Unmarked<R>
        ensures { unmarked_of (R.remaining (marked_of result)) result ≡ option_map strip_bom (R.remaining reader) }
    {
        Unmarked {
            reader,
            start: [0; 3],
            at: 0,
            filled: 0,
            begun: false,
        }
    }

    // Reads one of the first three bytes, and returns whether there was one.
    fn read_first(&mut self) -> io::Result<bool>
        requires room { self.old.filled < 3 }
        requires fresh { self.old.begun ≡ false }
        ensures keeps { Keeps (unmarked_of (R.remaining (marked_of self.old)) self.old)
            (unmarked_of (R.remaining (marked_of self.new)) self.new) }
        ensures fresh { self.new.begun ≡ false }
        ensures more { IfOk result (λ got. got ≡ true → self.new.filled ≡ self.old.filled + 1) }
        ensures end { IfOk result (λ got. got ≡ false → IsAtEnd (R.remaining (marked_of self.new))) }
    {
        let mut byte = [0];
        if self.reader.read(&mut byte)? == 0 {
            return Ok(false);
        }
        self.start[self.filled] = byte[0];
        self.filled += 1;
        Ok(true)
    }

    // The length of the mark at the start: 3, or 0 if there is none.
    fn mark_length(&self) -> usize
        ensures { result ≡ mark_length self.now.start self.now.filled }
    {
        if self.filled == MARK.len() && is_mark(self.start[0], self.start[1], self.start[2]) {
            MARK.len()
        } else {
            0
        }
    }

    // Passes over the first three bytes if they are the mark. If fewer were read, there are no more.
    fn pass_mark(&mut self)
        requires fresh { self.old.begun ≡ false }
        requires all { self.old.filled < 3 → IsAtEnd (R.remaining (marked_of self.old)) }
        ensures keeps { Keeps (unmarked_of (R.remaining (marked_of self.old)) self.old)
            (unmarked_of (R.remaining (marked_of self.new)) self.new) }
        ensures begun { self.new.begun ≡ true }
    {
        let length = self.mark_length();
        self.begun = true;
        self.at = length;
    }

    // If nothing was read, reads the first three bytes, or all if there are fewer, and passes over
    // them if they are the mark.
    fn begin(&mut self) -> io::Result<()>
        ensures keeps { Keeps (unmarked_of (R.remaining (marked_of self.old)) self.old)
            (unmarked_of (R.remaining (marked_of self.new)) self.new) }
        ensures begun { OnOk result (self.new.begun ≡ true) }
    {
        if self.begun {
            return Ok(());
        }
        while self.filled < MARK.len() {
            if !self.read_first()? {
                self.pass_mark();
                return Ok(());
            }
        }
        self.pass_mark();
        Ok(())
    }

    // Gives the first bytes: as many as there is room for, and returns their number.
    fn give(&mut self, buf: &mut [u8]) -> usize
        requires { self.old.begun ≡ true }
        ensures within { result ≤ length buf.new }
        ensures gives { Consumes (unmarked_of (R.remaining (marked_of self.old)) self.old)
            (unmarked_of (R.remaining (marked_of self.new)) self.new) (take result buf.new) }
        ensures none { result ≡ 0 → 0 < length buf.new → self.old.filled ≤ self.old.at }
    {
        let left = &self.start[self.at..self.filled];
        let count = left.len().min(buf.len());
        buf[..count].copy_from_slice(&left[..count]);
        self.at += count;
        count
    }

    // Gives the first bytes if some are left, and reads on otherwise.
    fn read_on(&mut self, buf: &mut [u8]) -> io::Result<usize>
        requires { self.old.begun ≡ true }
        ensures bound { ReadsAtMost result buf.new }
        ensures bytes { ReadConsumes (unmarked_of (R.remaining (marked_of self.old)) self.old)
            (unmarked_of (R.remaining (marked_of self.new)) self.new) result buf.new }
    {
        if self.at < self.filled {
            return Ok(self.give(buf));
        }
        self.reader.read(buf)
    }
}

impl<R: Read> Read for Unmarked<R> {
    ghost use Rattle.twkb_csv.specs.Marks.{marked_of, unmarked_of};

    ghost remaining = { λ r. unmarked_of (R.remaining (marked_of r)) r };

    fn read(&mut self, buf: &mut [u8]) -> io::Result<usize>
        ensures bound { ReadsAtMost result buf.new }
        ensures bytes { ReadConsumes (unmarked_of (R.remaining (marked_of self.old)) self.old)
            (unmarked_of (R.remaining (marked_of self.new)) self.new) result buf.new }
    {
        self.begin()?;
        self.read_on(buf)
    }
}
