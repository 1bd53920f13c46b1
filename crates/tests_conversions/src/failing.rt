//! Conversions between devices that fail: worked ones with each read, each write, the flush and
//! each growth failing in turn, and a reader that fails after its end.
use crate::devices::{Ended, Failing, SOUND, carried, carry_out};
use crate::worked::{WORKED, Worked};
use example_callers::Account;
use std::alloc::Global;
use std::io;
use std::io::{ErrorKind, Read};
use twkb_conversions::Conversion;
use twkb_convert::{Cause, Style};
use twkb_io::{Ending, FuseEnd, Tap};

// ---- worked tables and streams between devices, with each read, each write and the flush failing
// in turn; and with each growth refused in turn (`make hostile`). The flush comes once, as the last
// call, and not after a refused write.

// The number of geometries done if this many bytes of the output are written.
fn done_with(worked: &Worked, sent: usize) -> u64 {
    if sent < worked.first {
        0
    } else if worked.first < sent && sent == worked.output.len() {
        2
    } else {
        1
    }
}

// Whether a conversion wrote this many bytes of its output, then stopped for this cause, and
// called the writer once more.
fn is_told(worked: &Worked, found: &Ended, sent: usize, stopped: Option<Cause>) -> bool {
    let due = Account {
        done: done_with(worked, sent),
        sent: sent as u64,
        stopped,
    };
    found.account == due
        && found.written.len() == sent
        && worked.output.starts_with(&found.written)
        && found.calls == due.sent.saturating_add(1)
}

fn run(alloc: Global, worked: &Worked, failing: Failing) -> Ended {
    carried(alloc, worked.what, worked.input, failing, Vec::new(alloc))
}

// Whether the end of a writer that takes this many bytes is reported, and the writer is not
// called again.
fn write_is_told(alloc: Global, worked: &Worked, taken: usize, end: FuseEnd) -> bool {
    let failing = Failing {
        taken: taken as u64,
        end,
        ..SOUND
    };
    let found = run(alloc, worked, failing);
    is_told(worked, &found, taken, Some(Cause::WriteDevice))
}

// Whether the end of the writer is reported at each write.
fn writes_are_told(alloc: Global, worked: &Worked) -> bool {
    let mut are_told = true;
    for taken in 0..worked.output.len() {
        are_told = are_told
            && write_is_told(alloc, worked, taken, FuseEnd::Fail)
            && write_is_told(alloc, worked, taken, FuseEnd::Zero);
    }
    are_told
}

#[test]
fn each_write_that_fails_or_takes_nothing_is_told_after_the_bytes_before_it(rt: HostRuntime) {
    for worked in &WORKED {
        let are_told = writes_are_told(rt.alloc(), worked);
        assert!(rt; are_told, "{}", worked.name);
    }
}

// The number of bytes written if a read fails after this many: for a table a prefix of the blobs;
// for a stream the text before its first blob, and everything once that blob is complete.
fn sent_before(worked: &Worked, given: usize, written: usize) -> usize {
    if worked.what == Conversion::Pack(Style::Full) {
        written
    } else if given < worked.whole {
        worked.before
    } else {
        worked.output.len()
    }
}

// Whether a read that fails after this many bytes is reported, and the writer is flushed.
fn read_is_told(alloc: Global, worked: &Worked, given: usize) -> bool {
    let failing = Failing {
        given: given as u64,
        ..SOUND
    };
    let found = run(alloc, worked, failing);
    let sent = sent_before(worked, given, found.written.len());
    is_told(worked, &found, sent, Some(Cause::ReadDevice))
}

// Whether a failed read is reported at each read.
fn reads_are_told(alloc: Global, worked: &Worked) -> bool {
    let mut are_told = true;
    for given in 0..worked.reads {
        are_told = are_told && read_is_told(alloc, worked, given);
    }
    are_told
}

#[test]
fn each_read_that_fails_is_told_after_the_whole_blobs(rt: HostRuntime) {
    for worked in &WORKED {
        let are_told = reads_are_told(rt.alloc(), worked);
        assert!(rt; are_told, "{}", worked.name);
    }
}

// Whether all output is written and flushed last.
fn is_whole(alloc: Global, worked: &Worked) -> bool {
    let found = run(alloc, worked, SOUND);
    is_told(worked, &found, worked.output.len(), worked.stopped) && !found.has_unflushed
}

// Whether a failed flush is reported after this many bytes, if a read fails after so many.
fn flush_is_told(alloc: Global, worked: &Worked, given: u64, sent: usize) -> bool {
    let failing = Failing {
        given,
        flush_fails: true,
        ..SOUND
    };
    let found = run(alloc, worked, failing);
    is_told(worked, &found, sent, Some(Cause::WriteDevice))
}

// Whether a failed flush is reported, also before a refused input and before a failed read.
fn flushes_are_told(alloc: Global, worked: &Worked) -> bool {
    is_whole(alloc, worked)
        && flush_is_told(alloc, worked, SOUND.given, worked.output.len())
        && flush_is_told(alloc, worked, 0, worked.before)
}

#[test]
fn a_conversion_flushes_once_and_last_and_a_flush_that_fails_comes_before_other_causes(
    rt: HostRuntime,
) {
    for worked in &WORKED {
        let are_told = flushes_are_told(rt.alloc(), worked);
        assert!(rt; are_told, "{}", worked.name);
    }
}

// Whether want of memory is possible after this many bytes: for a stream, before the blob or
// after all output.
fn may_want(worked: &Worked, sent: usize) -> bool {
    worked.what == Conversion::Pack(Style::Full)
        || sent == worked.output.len()
        || sent == worked.before
}

// Whether a conversion is complete, or reports want of memory after a prefix of the output.
fn is_whole_or_lacks(worked: &Worked, found: &Ended) -> bool {
    let sent = found.written.len();
    (sent == worked.output.len() && is_told(worked, found, sent, worked.stopped))
        || (may_want(worked, sent) && is_told(worked, found, sent, Some(Cause::Memory)))
}

// Whether every refused growth is want of memory, for a writer that has room for the whole output.
fn growths_are_told(alloc: Global, worked: &Worked) -> bool {
    match Vec::with_capacity(alloc, worked.output.len()) {
        Ok(room) => {
            let found = carried(alloc, worked.what, worked.input, SOUND, room);
            is_whole_or_lacks(worked, &found)
        }
        Err(_) => true,
    }
}

#[test]
fn a_refused_growth_is_want_of_memory_after_a_front_of_the_output(rt: HostRuntime) {
    for worked in &WORKED {
        let are_told = growths_are_told(rt.alloc(), worked);
        assert!(rt; are_told, "{}", worked.name);
    }
}

// Whether a refused growth of the writer, a `Vec` without room, is a failed write after a prefix of
// the output, and any other want of memory.
fn growth_of_the_writer_is_told(alloc: Global, worked: &Worked) -> bool {
    let found = run(alloc, worked, SOUND);
    is_whole_or_lacks(worked, &found)
        || is_told(
            worked,
            &found,
            found.written.len(),
            Some(Cause::WriteDevice),
        )
}

#[test]
fn a_refused_growth_of_the_writer_is_a_failed_write(rt: HostRuntime) {
    let is_told = growth_of_the_writer_is_told(rt.alloc(), &WORKED[0]);
    assert!(rt; is_told);
}

// ---- a reader that fails after its end, and one over it that remembers the end

// Gives a text, then reports its end once, and then fails.
#[derive(Drop)]
struct FailsBehindItsEnd<'a> {
    text: &'a [u8],
    has_ended: bool,
}

impl<'a> Read for FailsBehindItsEnd<'a> {
    fn read(&mut self, buf: &mut [u8]) -> io::Result<usize> {
        if self.has_ended {
            return Err(ErrorKind::Other.into());
        }
        self.has_ended = self.text.is_empty();
        self.text.read(buf)
    }
}

// The account of a conversion whose output is dropped.
fn account<R: Read>(alloc: Global, what: Conversion, reader: &mut Tap<R>) -> Account {
    carry_out(alloc, what, reader, &mut Tap::new(Vec::new(alloc)))
}

// A conversion, and the geometries and bytes that it writes.
#[derive(Clone, Copy)]
struct Input {
    what: Conversion,
    text: &'static [u8],
    done: u64,
    sent: u64,
}

const TABLE: &[u8] = b"depth,kind,id,precision,polyline\n0,point,,0,AC\n0,point,,0,AA\n";

const PACKED: Input = Input {
    what: Conversion::Pack(Style::Full),
    text: TABLE,
    done: 2,
    sent: 10,
};

const SHOWN: Input = Input {
    what: Conversion::Show,
    text: b"\x01\x02\x02\x04\x02\x01\x02\x02\x02\x02",
    done: 2,
    sent: 38,
};

// The second table has no line end after its last row.
const INPUTS: [Input; 6] = [
    PACKED,
    Input {
        text: b"depth,kind,id,precision,polyline\n0,point,,0,AC\n0,point,,0,AA",
        ..PACKED
    },
    Input {
        text: b"depth,kind,id,precision,polyline\n",
        done: 0,
        sent: 0,
        ..PACKED
    },
    Input {
        what: Conversion::Unpack,
        sent: 61,
        ..SHOWN
    },
    SHOWN,
    Input {
        text: b"",
        done: 0,
        sent: 0,
        ..SHOWN
    },
];

// Whether everything is converted if the end is remembered, so that the device is asked for it
// only once.
fn ends_once(alloc: Global, input: &Input) -> bool {
    let mut reader = Tap::new(Ending::new(FailsBehindItsEnd {
        text: input.text,
        has_ended: false,
    }));
    let due = Account {
        done: input.done,
        sent: input.sent,
        stopped: None,
    };
    account(alloc, input.what, &mut reader) == due
}

#[test]
fn an_end_that_is_remembered_is_asked_for_once(rt: HostRuntime) {
    for input in &INPUTS {
        let is_once = ends_once(rt.alloc(), input);
        assert!(rt; is_once, "{} bytes", input.sent);
    }
}

#[test]
fn a_read_that_fails_after_the_end_is_a_failed_read(rt: HostRuntime) {
    let mut reader = Tap::new(FailsBehindItsEnd {
        text: TABLE,
        has_ended: false,
    });
    let due = Account {
        done: 2,
        sent: 10,
        stopped: Some(Cause::ReadDevice),
    };
    let is_told = account(rt.alloc(), Conversion::Pack(Style::Full), &mut reader) == due;
    assert!(rt; is_told);
}
