//! A reader of which a screen shows how much was read.
ghost use Rattle.std.specs.Io.{ReadsAtMost};
ghost use Rattle.std.specs.Io.KnownBytes.{ReadConsumes};

use crate::screen::Screen;
use std::io;
use std::io::{Read, Write};
use std::time::{Clock, Instant};
use twkb_io::Tap;

/// A reader that passes each read on once, and has a screen show how much was read. Takes no memory.
#[derive(Drop)]
pub struct Watched<'a, R: Read + Drop, C: Clock + Copy, T: Write + Copy> {
    reader: Tap<R>,
    screen: &'a Screen<C, T>,
    size: u64,
    // when the next line is shown, if any is
    due: Option<Instant>,
}

impl<'a, R: Read + Drop, C: Clock + Copy, T: Write + Copy> Watched<'a, R, C, T> {
    /// Wraps a reader of a file of this size in bytes, or one of which nothing is shown.
    pub fn new(reader: R, screen: &'a Screen<C, T>, size: Option<u64>) -> Watched<'a, R, C, T> {
        let reader = Tap::new(reader);
        let (size, due) = match size {
            Some(size) => (size, screen.first()),
            None => (0, None),
        };
        Watched {
            reader,
            screen,
            size,
            due,
        }
    }
}

impl<R: Read + Drop, C: Clock + Copy, T: Write + Copy> Read for Watched<'_, R, C, T> {
    ghost use Rattle.twkb_io.specs.Taps.{device_of};

    ghost remaining = { λ watched. R.remaining (device_of watched.reader) };

    fn read(&mut self, buf: &mut [u8]) -> io::Result<usize>
        ensures bound { ReadsAtMost result buf.new }
        ensures bytes { ReadConsumes (R.remaining (device_of self.old.reader))
            (R.remaining (device_of self.new.reader)) result buf.new }
    {
        let count = self.reader.read(buf)?;
        if let Some(due) = self.due {
            self.due = self.screen.show(due, self.reader.given(), self.size);
        }
        Ok(count)
    }
}
