//! A line on a terminal that says how much of a file was read.
ghost use Rattle.std.specs.Prelude.{◌≡◌, ◌*◌, ◌/◌, ◌^◌, ◌<◌, ◌≤◌};

use std::cell::Cell;
use std::io;
use std::io::Write;
use std::time::{Clock, Duration, Instant};
use twkb_io::Tap;

// The seconds that a run takes, at least, before a line is shown.
const FIRST: u64 = 2;

// The seconds that a line stays, at least, before the next one.
const NEXT: u64 = 1;

// Blanks in place of a line, and the cursor at the first of them.
const BLANK_LINE: [u8; 7] = *b"\r     \r";

/// A terminal that shows how much of a file was read, if there is one, and the clock that says when.
/// Whatever it does not take is not shown.
#[derive(Drop)]
pub struct Screen<C: Clock + Copy, T: Write + Copy> {
    clock: C,
    terminal: Option<T>,
    shown: Cell<bool>,
}

// How much of `size` bytes this number of bytes is, in hundredths, rounded down.
fn hundredths(count: u64, size: u64) -> u64
    ensures most { result ≤ 100 }
    ensures share { count < size → size * 100 < 2 ^ 64 → result ≡ count * 100 / size }
    ensures all { size ≤ count → result ≡ 100 }
{
    if count >= size {
        return 100;
    }
    count.saturating_mul(100) / size
}

// The digit of a number from 0 to 9.
fn digit(number: u64) -> u8
    requires { number < 10 }
{
    b'0' + number as u8
}

// The line for a number of hundredths, in five characters after the first of the line.
fn line(share: u64) -> [u8; 6]
    requires { share ≤ 100 }
{
    let hundreds = if share == 100 { b'1' } else { b' ' };
    let tens = if share < 10 {
        b' '
    } else {
        digit(share / 10 % 10)
    };
    [b'\r', hundreds, tens, digit(share % 10), b' ', b'%']
}

impl<C: Clock + Copy, T: Write + Copy> Screen<C, T> {
    /// A screen on which nothing is shown yet. On one without a terminal nothing ever is.
    pub fn new(clock: C, terminal: Option<T>) -> Screen<C, T> {
        let shown = Cell::new(false);
        Screen {
            clock,
            terminal,
            shown,
        }
    }

    /// Whether there is a terminal.
    pub fn is_on(&self) -> bool {
        self.terminal.is_some()
    }

    /// When the first line is due. `None` if there is no terminal, or the clock fails.
    pub fn first(&self) -> Option<Instant> {
        let _there = self.terminal?;
        Instant::now(&self.clock)
            .ok()?
            .checked_add(Duration::from_secs(FIRST))
    }

    /// Shows how much of `size` bytes was read, if that is due, and returns when the next line is.
    pub fn show(&self, due: Instant, count: u64, size: u64) -> Option<Instant> {
        let now = Instant::now(&self.clock).ok()?;
        if now < due {
            return Some(due);
        }
        self.write(&line(hundredths(count, size)));
        self.shown.set(true);
        now.checked_add(Duration::from_secs(NEXT))
    }

    /// Removes the line, if one is shown.
    pub fn clear(&self) {
        if self.shown.get() {
            self.write(&BLANK_LINE);
            self.shown.set(false);
        }
    }

    // Writes to the terminal; a failure changes nothing else.
    fn write(&self, bytes: &[u8]) {
        if let Some(terminal) = self.terminal {
            let mut terminal = terminal;
            let _ = terminal.write_all(bytes);
        }
    }
}

/// Standard error of a run with a screen: the line on it is removed before a message.
#[derive(Drop)]
pub struct Messages<'a, 'b, E: Write, C: Clock + Copy, T: Write + Copy> {
    pub errors: &'a mut Tap<E>,
    pub screen: &'b Screen<C, T>,
}

impl<E: Write, C: Clock + Copy, T: Write + Copy> Write for Messages<'_, '_, E, C, T> {
    fn write(&mut self, buf: &[u8]) -> io::Result<usize> {
        self.screen.clear();
        self.errors.write(buf)
    }

    fn flush(&mut self) -> io::Result<()> {
        self.errors.flush()
    }
}
